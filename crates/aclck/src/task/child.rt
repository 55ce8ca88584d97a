//! `child`: the list that a new object gets from its directory.
ghost use Rattle.std.specs.Prelude.{◌≡◌};
ghost use Rattle.aclck.specs.Common.{ReadsValues, RunsCommand, profile_of, rows_in};
ghost use Rattle.aclck.specs.commands.Child.{child, child_held, child_in, kind_value};

use crate::answer::{Outcome, RunFault, write_list_answer};
use crate::input::xdr::read_list;
use crate::line::{Argument, LineFault, text_of};
use crate::task::values::Child;
use crate::words::options::{KIND, PROFILE};
use crate::words::profile::profile_in;
use acl_eval::{ChildKind, child};
use acl_perm::{Profile, Sink, Source};
use clap::ArgMatches;
use std::alloc::Global;

/// The options of `child`, which takes no other word.
pub(crate) const ARGUMENTS: [Argument; 2] = [KIND, PROFILE];

/// Returns what is created, and the profile. Fails with `Usage` if an option has a bad value.
#[tactic(auto, unfolding(crate::specs::commands::Child::child_in))]
pub(crate) fn read(matches: &ArgMatches<'_>) -> Result<Child, LineFault>
    ensures { ReadsValues child_held (child_in (rows_in matches.now)) result }
{
    Ok(Child {
        kind: text_of(matches, KIND)
            .and_then(kind_value)
            .ok_or(LineFault::Usage)?,
        profile: profile_in(matches)?,
    })
}

// The value of `--kind`: `file` or `dir`. None if the word is neither.
#[tactic(auto, unfolding(crate::specs::commands::Child::kind_value))]
fn kind_value(word: &str) -> Option<ChildKind>
    ensures { result ≡ kind_value word.now }
{
    match word {
        "file" => Some(ChildKind::File),
        "dir" => Some(ChildKind::Directory),
        _ => None,
    }
}

/// Writes the bytes that spell the list that a new file or directory gets from the list of its directory, which the
/// whole input spells (this library's own, in the manner of RFC 8881, section 6.4). Nothing is written before the input
/// is accepted as a list of the profile. Nothing is read after a refusal. Fails if the input is refused, if a read or a
/// write fails, or if memory runs out.
pub fn run_child<S: Source, K: Sink>(
    alloc: Global,
    source: &mut S,
    sink: &mut K,
    kind: ChildKind,
    profile: Profile,
) -> Result<Outcome, RunFault>
    ensures { RunsCommand child (record { created = kind; profile = profile_of profile })
        S.remaining S.failure_count source.old source.new
        K.contents K.failure_count sink.old sink.new result }
{
    let list = child(alloc, &read_list(alloc, source, profile)?, kind)?;
    write_list_answer(sink, &list)
}
