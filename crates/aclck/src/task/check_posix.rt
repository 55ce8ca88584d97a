//! `check-posix`: whether the access part of a text grants a request.
ghost use Rattle.std.specs.Prelude.{◌≡◌, ◌==◌, count_by};
ghost use Rattle.std.specs.List.{list_all, slice_split};
ghost use Rattle.acl_posix.specs.Check.{ids};
ghost use Rattle.acl_posix.specs.Grammar.{comma};
ghost use Rattle.aclck.specs.Common.{IfOk, ReadsValues, RunsCommand, option_and_then, option_map, rows_in, text_if_any, texts};
ghost use Rattle.aclck.specs.Values.{each_value, id_value, ids_value, is_letter, letters_value, want_value};
ghost use Rattle.aclck.specs.commands.CheckPosix.{check_posix, check_posix_held, check_posix_in, groups_value};

use crate::answer::{Outcome, RunFault, decision_line, write_answer};
use crate::input::posix::read_file;
use crate::line::{Argument, LineFault, text_of};
use crate::task::values::CheckPosix;
use crate::words::names::names_in;
use crate::words::options::{GROUP, GROUPS, OWNER, USER, WANT};
use crate::words::values::id_value;
use acl_perm::{Perm, Sink, Source};
use acl_posix::{Id, Names};
use clap::ArgMatches;
use std::alloc::{AllocError, Global};

/// The options of `check-posix`. Its other words are names with their ids.
pub(crate) const ARGUMENTS: [Argument; 6] = [OWNER, GROUP, USER, GROUPS, WANT, Argument::Words];

/// Returns the request and the names. Fails with `Usage` if an option has a bad value or a name is refused, and with
/// `Memory` if memory runs out.
#[tactic(auto, unfolding(crate::specs::commands::CheckPosix::check_posix_in))]
pub(crate) fn read(alloc: Global, matches: &ArgMatches<'_>) -> Result<CheckPosix, LineFault>
    ensures { ReadsValues check_posix_held (check_posix_in (rows_in matches.now)) result }
{
    Ok(CheckPosix {
        owner: id_in(text_of(matches, OWNER))?,
        group: id_in(text_of(matches, GROUP))?,
        user: id_in(text_of(matches, USER))?,
        groups: groups_in(alloc, text_of(matches, GROUPS))?,
        want: want_in(text_of(matches, WANT))?,
        names: names_in(alloc, matches)?,
    })
}

fn id_in(word: Option<&str>) -> Result<Id, LineFault>
    ensures { ReadsValues (λ id. id.value)
        (option_and_then id_value (text_if_any word.entry)) result }
{
    word.and_then(id_value).ok_or(LineFault::Usage)
}

fn groups_in(alloc: Global, word: Option<&str>) -> Result<Vec<Id>, LineFault>
    ensures { ReadsValues (λ v. ids v.items) (groups_value (text_if_any word.entry)) result }
{
    match word {
        Some(word) => ids_value(alloc, word),
        None => Ok(Vec::new(alloc)),
    }
}

// The value of `--groups`: IDs with commas between them.
#[tactic(auto, unfolding(crate::specs::Values::ids_value))]
fn ids_value(alloc: Global, word: &str) -> Result<Vec<Id>, LineFault>
    ensures { ReadsValues (λ v. ids v.items) (ids_value word.now) result }
{
    let items = items_of(alloc, word)?;
    each_id(alloc, items.as_slice())
}

// Returns the parts between the commas. A part may be empty, which is no ID.
fn items_of<'a>(alloc: Global, word: &'a str) -> Result<Vec<&'a str>, AllocError>
    ensures { IfOk result (λ v. texts v.items ≡ slice_split (λ b. b == comma) word.entry.now) }
{
    word.split(',').collect(alloc)
}

fn each_id(alloc: Global, items: &[&str]) -> Result<Vec<Id>, LineFault>
    ensures { ReadsValues (λ v. ids v.items) (each_value id_value (texts items.now)) result }
{
    let mut all = Vec::new(alloc);
    for item in items {
        let id = id_value(item).ok_or(LineFault::Usage)?;
        all.push(id)?;
    }
    Ok(all)
}

fn want_in(word: Option<&str>) -> Result<Perm, LineFault>
    ensures { ReadsValues (λ perm. perm.bits)
        (option_and_then want_value (text_if_any word.entry)) result }
{
    word.and_then(want_value).ok_or(LineFault::Usage)
}

// The value of `--want`: r, w and x in any order, or `none`.
#[tactic(auto, unfolding(crate::specs::Values::want_value))]
fn want_value(word: &str) -> Option<Perm>
    ensures { option_map (λ perm. perm.bits) result ≡ want_value word.now }
{
    if word == "none" {
        Some(Perm::NONE)
    } else {
        letters(word.as_bytes())
    }
}

// Returns the permissions of letters, or `None` if there is no letter, another byte, or a letter twice.
#[tactic(auto, using(crate::proofs::ValueLemmas::are_permissions), unfolding(acl_posix::specs::Fields::permissions_of))]
fn letters(bytes: &[u8]) -> Option<Perm>
    ensures { option_map (λ perm. perm.bits) result ≡ letters_value bytes.now }
{
    let read = count(bytes, b'r');
    let write = count(bytes, b'w');
    let execute = count(bytes, b'x');
    if bytes.is_empty() || !are_letters(bytes) || read > 1 || write > 1 || execute > 1 {
        return None;
    }
    Perm::new((4 * read + 2 * write + execute) as u8)
}

fn are_letters(bytes: &[u8]) -> bool
    ensures { result ≡ list_all is_letter bytes.now }
{
    bytes.iter().all(|b| *b == b'r' || *b == b'w' || *b == b'x')
}

fn count(bytes: &[u8], letter: u8) -> usize
    ensures { result ≡ count_by (λ b. b == letter) bytes.now }
{
    bytes.iter().filter(|b| **b == letter).count()
}

/// Writes whether the access ACL of the file that the input spells grants the user, who is in these groups, the
/// permissions on an object of this owner and owning group (acl(5), "ACCESS CHECK ALGORITHM"; POSIX.1e draft 17,
/// section 23): `granted`, or `denied` and No. Nothing is written before the whole input is accepted, with its default
/// part. Fails if the input is refused, if a read or a write fails, or if memory runs out.
pub fn run_check_posix<S: Source, K: Sink>(
    alloc: Global,
    source: &mut S,
    sink: &mut K,
    owner: Id,
    group: Id,
    user: Id,
    groups: &[Id],
    want: Perm,
    names: &Names,
) -> Result<Outcome, RunFault>
    ensures { RunsCommand check_posix (record {
      object = record { user = owner.value; group = group.value };
      requester = record { user = user.value; groups = ids groups.now };
      want = want.bits;
      names = names.now;
    })
        S.remaining S.failure_count source.old source.new
        K.contents K.failure_count sink.old sink.new result }
{
    let file = read_file(alloc, source, names)?;
    let granted = file.access.check(owner, group, user, groups, want);
    let outcome = Outcome::of(granted);
    write_answer(sink, outcome, decision_line(outcome))
}
