//! `chmod`: the canonical text of a file with its mode set.
ghost use Rattle.aclck.specs.Common.{ReadsValues, RunsCommand, rows_in};
ghost use Rattle.aclck.specs.commands.Chmod.{chmod, chmod_held, chmod_in};

use crate::answer::{Outcome, RunFault};
use crate::input::posix::{read_file, write_file};
use crate::line::{Argument, LineFault, text_of};
use crate::task::values::Chmod;
use crate::words::names::names_in;
use crate::words::options::MODE;
use crate::words::values::mode_in;
use acl_perm::{Mode, Sink, Source};
use acl_posix::{AclTextForm, Names};
use clap::ArgMatches;
use std::alloc::Global;

/// The option of `chmod`. Its other words are names with their ids.
pub(crate) const ARGUMENTS: [Argument; 2] = [MODE, Argument::Words];

/// Returns the mode and the names. Fails with `Usage` if the mode is bad or a name is refused, and with `Memory` if
/// memory runs out.
#[tactic(auto, unfolding(crate::specs::commands::Chmod::chmod_in))]
pub(crate) fn read(alloc: Global, matches: &ArgMatches<'_>) -> Result<Chmod, LineFault>
    ensures { ReadsValues chmod_held (chmod_in (rows_in matches.now)) result }
{
    let mode = mode_in(text_of(matches, MODE))?;
    Ok(Chmod {
        mode,
        names: names_in(alloc, matches)?,
    })
}

/// Writes the canonical text of the file that the input spells, with the mode of its access ACL set (acl(5),
/// "CORRESPONDENCE BETWEEN ACL ENTRIES AND FILE PERMISSION BITS"); the default ACL stays. Nothing is written before the
/// input is accepted. Fails if the input is refused, if a read or a write fails, or if memory runs out.
pub fn run_chmod<S: Source, K: Sink>(
    alloc: Global,
    source: &mut S,
    sink: &mut K,
    mode: Mode,
    names: &Names,
) -> Result<Outcome, RunFault>
    ensures { RunsCommand chmod (record { mode = mode.bits; names = names.now })
        S.remaining S.failure_count source.old source.new
        K.contents K.failure_count sink.old sink.new result }
{
    let mut file = read_file(alloc, source, names)?;
    file.access.chmod(mode);
    write_file(alloc, sink, file, AclTextForm::Canonical)
}
