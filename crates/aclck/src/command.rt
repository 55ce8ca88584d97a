//! The program over a source and sinks.
ghost use Rattle.std.specs.Prelude.{◌≡◌, IfOk, Err, Some, false};
ghost use Rattle.aclck.specs.Line.{rows_in, texts, words_of};
ghost use Rattle.aclck.specs.Task.{is_command, task_held, task_in, task_of};
ghost use Rattle.aclck.specs.Command.{RunsWords};
ghost use Rattle.aclck.specs.internal.Performing.{RunsTask, command_fault_of, status_of};

use crate::answer::{Origin, Outcome, RunFault};
use crate::line::{LineFault, other_words};
use crate::task::{Name, Task};
use acl_perm::{Sink, Source, put_all};
use clap::ArgMatches;
use std::alloc::{AllocError, Global};
use std::io::Write;
use thiserror::Error;

/// Why a command line was not carried out.
#[derive(Clone, Copy, Debug, PartialEq, Eq, Error)]
pub enum CommandFault {
    /// The first word names no command, the command does not take the words, or a value is bad.
    #[error("usage")]
    Usage,
    /// The command did not run to its end, or memory ran out for its words.
    #[error("{0}")]
    Run(RunFault),
}

impl From<LineFault> for CommandFault {
    ghost from_gives = { λ fault command. command ≡ command_fault_of fault };

    fn from(fault: LineFault) -> CommandFault {
        match fault {
            LineFault::Usage => CommandFault::Usage,
            LineFault::Memory => CommandFault::Run(RunFault::Memory),
        }
    }
}

impl From<RunFault> for CommandFault {
    ghost use Rattle.aclck.specs.declared.command.CommandFault.TheVariants.{Run};

    ghost from_gives = { λ fault command. command ≡ Run fault };

    fn from(fault: RunFault) -> CommandFault {
        CommandFault::Run(fault)
    }
}

impl From<AllocError> for CommandFault {
    ghost use Rattle.aclck.specs.declared.answer.RunFault.TheVariants.{Memory};
    ghost use Rattle.aclck.specs.declared.command.CommandFault.TheVariants.{Run};

    ghost from_gives = { λ _ command. command ≡ Run Memory };

    fn from(_: AllocError) -> CommandFault {
        CommandFault::Run(RunFault::Memory)
    }
}

/// Runs the command that the words name, which come without the program's name, and returns the exit status: 0 done,
/// granted or the same, 1 denied or different, 2 the input is refused, 3 usage, 4 a device or memory. From 2 on, one
/// line on `err` says why; a fault of `err` changes nothing.
pub fn command<S: Source, K: Sink, E: Sink>(
    alloc: Global,
    words: &[&str],
    source: &mut S,
    out: &mut K,
    err: &mut E,
) -> u8
    ensures { RunsWords (texts words.entry.now)
        S.remaining S.failure_count source.old source.new
        K.contents K.failure_count out.old out.new err.old err.new result }
{
    match perform(alloc, words, source, out) {
        Ok(Outcome::Yes) => 0,
        Ok(Outcome::No) => 1,
        Err(fault) => fail(err, fault),
    }
}

/// Returns the exit status of a fault, 3 for usage, 2 for a refused input, and 4 for a device or memory, and writes one
/// line on `err` that says why.
pub(crate) fn fail<E: Sink>(err: &mut E, fault: CommandFault) -> u8
    ensures { result ≡ status_of fault }
{
    report(err, fault);
    match fault {
        CommandFault::Usage => 3,
        CommandFault::Run(fault) => match fault.origin() {
            Origin::Input => 2,
            Origin::Source | Origin::Sink(_) | Origin::Memory => 4,
        },
    }
}

// Runs the command that the words name.
#[tactic(auto, unfolding(crate::specs::Task::task_named))]
fn perform<'a, S: Source, K: Sink>(
    alloc: Global,
    words: &'a [&'a str],
    source: &mut S,
    out: &mut K,
) -> Result<Outcome, CommandFault>
    ensures runs { RunsTask (task_of (texts words.entry.now))
        S.remaining S.failure_count source.old source.new
        K.contents K.failure_count out.old out.new result }
    ensures unnamed { is_command (texts words.entry.now) ≡ false
        → result ≡ Err CommandFault.Usage }
{
    let named = words.first().and_then(|word| Name::of(word));
    let name = named.ok_or(CommandFault::Usage)?;
    let matches = name.matches(alloc, words)?;
    perform_named(alloc, name, &matches, source, out)
}

// Reads all values of a command before it runs the command, so that no input is read if one of them is bad.
fn perform_named<S: Source, K: Sink>(
    alloc: Global,
    name: Name,
    matches: &ArgMatches<'_>,
    source: &mut S,
    out: &mut K,
) -> Result<Outcome, CommandFault>
    ensures { RunsTask
        (task_in name (rows_in matches.now) (words_of (rows_in matches.now)))
        S.remaining S.failure_count source.old source.new
        K.contents K.failure_count out.old out.new result }
{
    let words = words_in(alloc, matches)?;
    let task = Task::read(alloc, name, matches, &words)?;
    Ok(task.run(alloc, source, out)?)
}

// Returns the words outside options, as bytes, in their order.
fn words_in<'a>(alloc: Global, matches: &ArgMatches<'a>) -> Result<Vec<&'a [u8]>, AllocError>
    ensures { IfOk result (λ v. texts v.items ≡ words_of (rows_in matches.now)) }
{
    let words = other_words(matches).unwrap_or(&[]);
    let mut all = Vec::new(alloc);
    for word in words {
        all.push(word.as_bytes())?;
    }
    Ok(all)
}

// The longest line about a fault has fewer bytes.
const LINE_ROOM: usize = 80;

// Writes one line about the fault, made without memory. A fault of `err` changes nothing.
fn report<E: Sink>(err: &mut E, fault: CommandFault) {
    let mut buffer = [0u8; LINE_ROOM];
    let mut room = buffer.as_mut_slice();
    let _ = writeln!(room, "aclck: {fault}");
    let left = room.len();
    let _ = put_all(err, &buffer[..LINE_ROOM.saturating_sub(left)]);
}
