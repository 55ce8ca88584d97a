//! `create`: the canonical text of a new object.
ghost use Rattle.aclck.specs.Common.{ReadsValues, RunsCommand, rows_in};
ghost use Rattle.aclck.specs.commands.Create.{create, create_held, create_in};

use crate::answer::{Outcome, RunFault};
use crate::input::posix::{read_file, write_file};
use crate::line::{Argument, LineFault, is_set, text_of};
use crate::task::values::Create;
use crate::words::names::names_in;
use crate::words::options::{DIR, MODE, UMASK};
use crate::words::values::mode_in;
use acl_perm::{Mode, Sink, Source};
use acl_posix::{AclTextForm, Names, create};
use clap::ArgMatches;
use std::alloc::Global;

/// The options of `create`. Its other words are names with their ids.
pub(crate) const ARGUMENTS: [Argument; 4] = [MODE, UMASK, DIR, Argument::Words];

/// Returns the modes, what is created, and the names. Fails with `Usage` if an option has a bad value or a name is
/// refused, and with `Memory` if memory runs out.
#[tactic(auto, unfolding(crate::specs::commands::Create::create_in))]
pub(crate) fn read(alloc: Global, matches: &ArgMatches<'_>) -> Result<Create, LineFault>
    ensures { ReadsValues create_held (create_in (rows_in matches.now)) result }
{
    Ok(Create {
        mode: mode_in(text_of(matches, MODE))?,
        umask: mode_in(text_of(matches, UMASK))?,
        dir: is_set(matches, DIR),
        names: names_in(alloc, matches)?,
    })
}

/// Writes the canonical text of a new object in the directory that the input spells: a file, or a directory if `dir` is
/// true (acl(5), "OBJECT CREATION AND DEFAULT ACLs"). The umask is ignored if the directory has a default ACL. Nothing
/// is written before the input is accepted. Fails if the input is refused, if a read or a write fails, or if memory
/// runs out.
pub fn run_create<S: Source, K: Sink>(
    alloc: Global,
    source: &mut S,
    sink: &mut K,
    mode: Mode,
    umask: Mode,
    dir: bool,
    names: &Names,
) -> Result<Outcome, RunFault>
    ensures { RunsCommand create (record {
      mode = mode.bits;
      umask = umask.bits;
      is_directory = dir;
      names = names.now;
    })
        S.remaining S.failure_count source.old source.new
        K.contents K.failure_count sink.old sink.new result }
{
    let parent = read_file(alloc, source, names)?;
    let default = parent.default.as_ref();
    let file = create(alloc, default, mode, umask, dir)?;
    drop(parent);
    write_file(alloc, sink, file, AclTextForm::Canonical)
}
