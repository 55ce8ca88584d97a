//! `show-posix`: the text of a file in a form.
ghost use Rattle.std.specs.Prelude.{◌≡◌};
ghost use Rattle.aclck.specs.Common.{ReadsValues, RunsCommand, rows_in};
ghost use Rattle.aclck.specs.commands.ShowPosix.{show_posix, show_posix_held, show_posix_in};

use crate::answer::{Outcome, RunFault};
use crate::input::posix::{read_file, write_file};
use crate::line::{Argument, LineFault, text_of};
use crate::task::values::ShowPosix;
use crate::words::names::names_in;
use crate::words::options::FORM;
use acl_perm::{Sink, Source};
use acl_posix::{AclTextForm, Names};
use clap::ArgMatches;
use std::alloc::Global;

/// The option of `show-posix`. Its other words are names with their ids.
pub(crate) const ARGUMENTS: [Argument; 2] = [FORM, Argument::Words];

/// Returns the form and the names. Fails with `Usage` if the form is bad or a name is refused, and with `Memory` if
/// memory runs out.
#[tactic(auto, unfolding(crate::specs::commands::ShowPosix::show_posix_in, crate::specs::commands::ShowPosix::form_value))]
pub(crate) fn read(alloc: Global, matches: &ArgMatches<'_>) -> Result<ShowPosix, LineFault>
    ensures { ReadsValues show_posix_held (show_posix_in (rows_in matches.now)) result }
{
    let form = match text_of(matches, FORM) {
        Some("canonical") => AclTextForm::Canonical,
        Some("shown") => AclTextForm::Shown,
        Some("short") => AclTextForm::Short,
        _ => return Err(LineFault::Usage),
    };
    let names = names_in(alloc, matches)?;
    Ok(ShowPosix { form, names })
}

/// Writes the text in a form of the file that the input spells (acl(5), "LONG TEXT FORM", "SHORT TEXT FORM"), with a
/// line feed after the short text. Nothing is written before the input is accepted. Fails if the input is refused, if a
/// read or a write fails, or if memory runs out.
pub fn run_show_posix<S: Source, K: Sink>(
    alloc: Global,
    source: &mut S,
    sink: &mut K,
    form: AclTextForm,
    names: &Names,
) -> Result<Outcome, RunFault>
    ensures { RunsCommand show_posix (record { form = form; names = names.now })
        S.remaining S.failure_count source.old source.new
        K.contents K.failure_count sink.old sink.new result }
{
    let file = read_file(alloc, source, names)?;
    write_file(alloc, sink, file, form)
}
