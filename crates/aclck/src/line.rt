//! The words of a command, by `clap`'s rule for a simple command.
ghost use Rattle.std.specs.Prelude.{◌≡◌, ◌≢◌, [], IfErr, IfOk, OnOk, codes, false, map, option_map, true, unwrap_or};
ghost use Rattle.std.specs.Option.{option_map_or};
ghost use Rattle.std.specs.Str.{bytes_eq};
ghost use Rattle.clap.specs.Words.{app_of, is_simple_and_free, kind_of, rule_of};
ghost use Rattle.aclck.specs.Line.{app_from, is_given, is_taken, rows_at, rows_in, rule_from, term_id, text_if_any, texts, value_of, words_of};
ghost use Rattle.aclck.specs.internal.Held.{term};
ghost use Rattle.aclck.specs.declared.line.LineFault.TheVariants.{Memory};

use clap::error::ErrorKind;
use clap::{Arg, ArgAction, ArgMatches, Command};
use std::alloc::{AllocError, AllocFailed, Global};
use thiserror::Error;

/// An option of a command, or the words that belong to no option.
#[derive(Clone, Copy)]
pub enum Argument {
    /// `--NAME VALUE`, which is required.
    Required(&'static str),
    /// `--NAME VALUE`, which may be absent.
    Optional(&'static str),
    /// `--NAME VALUE`; if the option is absent, its value is the second text.
    Default(&'static str, &'static str),
    /// `--NAME`.
    Flag(&'static str),
    /// Any number of words.
    Words,
}

// The id under which `clap` keeps the words that belong to no option.
const WORDS_ID: &str = "words";

impl Argument {
    // Returns the id under which `clap` keeps the values of the argument: for an option, its name.
    fn id(self) -> &'static str
        ensures { result.now ≡ term_id (term self) }
    {
        match self {
            Argument::Required(name)
            | Argument::Optional(name)
            | Argument::Default(name, _)
            | Argument::Flag(name) => name,
            Argument::Words => WORDS_ID,
        }
    }
}

/// Why words ask for nothing.
#[derive(Clone, Copy, Debug, PartialEq, Eq, Error)]
pub enum LineFault {
    /// The command does not take the words, or a value is bad.
    #[error("usage")]
    Usage,
    /// Memory ran out for the words.
    #[error("out of memory")]
    Memory,
}

impl From<AllocError> for LineFault {
    ghost from_gives = { λ _ fault. fault ≡ Memory };

    fn from(_: AllocError) -> LineFault {
        LineFault::Memory
    }
}

impl<T: Drop> From<AllocFailed<T>> for LineFault {
    ghost from_gives = { λ _ fault. fault ≡ Memory };

    fn from(_: AllocFailed<T>) -> LineFault {
        LineFault::Memory
    }
}

/// Returns the command as `clap` has it, with the arguments of a table. Fails if memory runs out.
pub(crate) fn command_from<'a>(
    alloc: Global,
    name: &'a str,
    table: &[Argument],
) -> Result<Command<'a>, AllocError>
    ensures { IfOk result (λ c. app_of c ≡ app_from name.entry.now (map term table.now)) }
{
    // Without help, `--help` and `-h` are unknown options.
    let mut command = Command::new(alloc, name).disable_help_flag(true);
    for argument in table {
        command = command.arg(arg_of(alloc, *argument))?;
    }
    Ok(command)
}

fn arg_of<'a>(alloc: Global, argument: Argument) -> Arg<'a>
    ensures rule { rule_of result ≡ rule_from (term argument) }
    ensures local { result.global ≡ false }
{
    match argument {
        Argument::Required(name) => Arg::new(alloc, name).long(name).required(true),
        Argument::Optional(name) => Arg::new(alloc, name).long(name),
        Argument::Default(name, value) => Arg::new(alloc, name).long(name).default_value(value),
        Argument::Flag(name) => Arg::new(alloc, name).long(name).action(ArgAction::SetTrue),
        Argument::Words => Arg::new(alloc, WORDS_ID)
            .action(ArgAction::Append)
            .num_args(1..),
    }
}

/// Returns the values that a command takes from the words. The first word is in the place of the program's name, so it
/// is not read. Fails with `Usage` if the command does not take the words, and with `Memory` if memory runs out.
pub(crate) fn parse<'a>(
    command: Command<'a>,
    words: &'a [&'a str],
) -> Result<ArgMatches<'a>, LineFault>
    requires { is_simple_and_free (app_of command) ≡ true }
    ensures ok { IfOk result (λ m. rows_in m
        ≡ rows_at (app_of command.entry) (texts words.entry.now)) }
    ensures taken { OnOk result (is_taken (app_of command.entry) (texts words.entry.now) ≡ true) }
    ensures usage { IfErr result (λ e. e ≡ LineFault.Usage
        → is_taken (app_of command.entry) (texts words.entry.now) ≡ false) }
{
    match command.try_get_matches_from(words) {
        Ok(matches) => Ok(matches),
        Err(error) => Err(line_fault(&error)),
    }
}

fn line_fault(error: &clap::Error) -> LineFault
    ensures usage { result ≡ LineFault.Usage → kind_of error.now ≢ ErrorKind.OutOfMemory }
    ensures memory { result ≡ LineFault.Memory → kind_of error.now ≡ ErrorKind.OutOfMemory }
{
    match error.kind() {
        ErrorKind::OutOfMemory => LineFault::Memory,
        _ => LineFault::Usage,
    }
}

/// Returns whether a flag is among the words.
pub(crate) fn is_set(matches: &ArgMatches<'_>, flag: Argument) -> bool
    ensures { result ≡ is_given (term flag) (rows_in matches.now) }
{
    text_of(matches, flag).is_some_and(|text| text == "true")
}

/// Returns the first value of an option: its default value if it is absent, and `None` if it has no default.
pub(crate) fn text_of<'a>(matches: &ArgMatches<'a>, option: Argument) -> Option<&'a str>
    ensures { text_if_any result ≡ value_of (term option) (rows_in matches.now) }
{
    matches.get_str(option.id())
}

/// Returns the words that belong to no option, in their order. `None` means that there are none.
pub(crate) fn other_words<'a, 'm>(matches: &'m ArgMatches<'a>) -> Option<&'m [&'a str]>
    ensures { unwrap_or (option_map (λ ws. texts ws.now) result) []
        ≡ words_of (rows_in matches.now) }
{
    matches.get_strs(WORDS_ID)
}
