//! The files that POSIX texts spell, and the texts of files.
ghost use Rattle.std.specs.Io.KnownBytes.{IsAtEnd};
ghost use Rattle.acl_posix.specs.Grammar.{Reads};
ghost use Rattle.acl_posix.specs.Programs.{file_text};
ghost use Rattle.std.specs.Prelude.{◌≡◌, ◌⊎◌};
ghost use Rattle.aclck.specs.Common.{IfErr, IfOk, OnOk, failures_after, is_input_fault, true};
ghost use Rattle.aclck.specs.Answer.{has_read_failed};
ghost use Rattle.aclck.specs.PosixAnswer.{IsPosixFault};
ghost use Rattle.aclck.specs.internal.Reading.{HasInput};
ghost use Rattle.aclck.specs.internal.Files.{IsNoFile};
ghost use Rattle.aclck.specs.internal.Writing.{WritesText};

use crate::answer::{Outcome, RunFault, write_answer};
use acl_perm::{Sink, Source, read_all};
use acl_posix::{AclTextForm, Names, PosixFile, TextFault, parse};
use std::alloc::Global;

/// Reads an input to its end, and returns the file that its text spells. Fails if the text is refused, a read fails, or
/// memory runs out.
pub(crate) fn read_file<S: Source>(
    alloc: Global,
    source: &mut S,
    names: &Names,
) -> Result<PosixFile, RunFault>
    ensures found { IfOk result (λ file.
        HasInput (λ input. Reads input names.now file) (S.remaining source.old)) }
    ensures whole { OnOk result (IsAtEnd (S.remaining source.new)) }
    ensures not_read { IfErr result (IsNoFile names.now (S.remaining source.old)) }
    ensures ended { IfErr result (λ e. is_input_fault e ≡ true → IsAtEnd (S.remaining source.new)) }
    ensures reads { S.failure_count source.new
        ≡ failures_after (S.failure_count source.old) (has_read_failed result) }
{
    let input = read_all(alloc, source)?;
    file_of(alloc, &input, names)
}

// `parse` reports memory that runs out as a fault of the text. Here it becomes a fault of the run.
fn file_of(alloc: Global, input: &[u8], names: &Names) -> Result<PosixFile, RunFault>
    ensures read { IfOk result (Reads input.now names.now) }
    ensures refused { IfErr result (λ e. (e ≡ RunFault.Memory)
        ⊎ ((is_input_fault e ≡ true) × IsPosixFault names.now input.now e)) }
{
    match parse(alloc, input, names) {
        Ok(file) => Ok(file),
        Err(TextFault::Memory) => Err(RunFault::Memory),
        Err(fault) => Err(RunFault::Posix(fault)),
    }
}

/// Writes the text of a file in a form, and returns Yes. The short text gets a line feed after it. Nothing is written
/// before all of the text is made.
pub(crate) fn write_file<K: Sink>(
    alloc: Global,
    sink: &mut K,
    file: PosixFile,
    form: AclTextForm,
) -> Result<Outcome, RunFault>
    ensures { WritesText Outcome.Yes (file_text form file)
        K.contents K.failure_count sink.old sink.new result }
{
    let text = file.to_text(alloc, form)?;
    drop(file);
    write_answer(sink, Outcome::Yes, text.as_slice())
}
