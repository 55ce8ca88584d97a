//! The commands: one row per command in each table, and one file per command.
ghost use Rattle.std.specs.Prelude.{◌≡◌, IfErr, IfOk, OnOk, false, find, map, option_copied, true};
ghost use Rattle.std.specs.Str.{bytes_eq};
ghost use Rattle.aclck.specs.Run.{Runs};
ghost use Rattle.aclck.specs.Line.{ReadsValues, is_taken, rows_at, rows_in, texts};
ghost use Rattle.aclck.specs.internal.Held.{is_sound, term};
ghost use Rattle.aclck.specs.Task.{Answers, app_named, command_named, definition_of, shape_of, task_held, task_in, command_word};

pub mod bridge;
pub mod calc_mask;
pub mod check_nfs;
pub mod check_posix;
pub mod child;
pub mod chmod;
pub mod compare;
pub mod create;
pub mod encode;
pub mod mode;
pub mod normalize;
pub mod show_nfs;
pub mod show_posix;
pub mod table;
pub mod values;

use crate::answer::{Outcome, RunFault};
use crate::line::{Argument, LineFault, command_from, parse};
use crate::words::names::{self, names_in};
use crate::words::profile::{self, profile_in};
use acl_perm::{Profile, Sink, Source};
use acl_posix::Names;
use bridge::run_bridge;
use calc_mask::run_calc_mask;
use check_nfs::run_check_nfs;
use check_posix::run_check_posix;
use child::run_child;
use chmod::run_chmod;
use clap::ArgMatches;
use compare::run_compare;
use create::run_create;
use encode::run_encode;
use mode::run_mode;
use normalize::{run_normalize, run_normalize_inherit};
use show_nfs::run_show_nfs;
use show_posix::run_show_posix;
use std::alloc::Global;
use table::run_table;
use values::{CheckNfs, CheckPosix, Child, Chmod, Create, Normalize, RightTable, ShowPosix};

/// A command of the program, which the first word of a line names.
#[derive(Clone, Copy)]
pub enum Name {
    ShowPosix,
    CheckPosix,
    CalcMask,
    Chmod,
    Create,
    ShowNfs,
    Encode,
    CheckNfs,
    Child,
    Mode,
    Bridge,
    Table,
    Normalize,
    Compare,
}

const NAMES: [Name; 14] = [
    Name::ShowPosix,
    Name::CheckPosix,
    Name::CalcMask,
    Name::Chmod,
    Name::Create,
    Name::ShowNfs,
    Name::Encode,
    Name::CheckNfs,
    Name::Child,
    Name::Mode,
    Name::Bridge,
    Name::Table,
    Name::Normalize,
    Name::Compare,
];

impl Name {
    /// Returns the command that a word names, or `None` if there is no such command.
    pub(crate) fn of(word: &str) -> Option<Name>
        ensures { result ≡ command_named word.now }
    {
        find_name(&NAMES, word).copied()
    }

    /// Returns the values that the command takes from the words, whose first is its own name. Fails with `Usage` if it
    /// does not take the words, and with `Memory` if memory runs out.
    pub(crate) fn matches<'a>(
        self,
        alloc: Global,
        words: &'a [&'a str],
    ) -> Result<ArgMatches<'a>, LineFault>
        ensures ok { IfOk result (λ m. rows_in m
            ≡ rows_at (app_named self) (texts words.entry.now)) }
        ensures taken { OnOk result (is_taken (app_named self) (texts words.entry.now) ≡ true) }
        ensures usage { IfErr result (λ e. e ≡ LineFault.Usage
            → is_taken (app_named self) (texts words.entry.now) ≡ false) }
    {
        let command = command_from(alloc, self.word(), self.arguments())?;
        parse(command, words)
    }

    fn word<'a>(self) -> &'a str
        ensures { result.now ≡ command_word self }
    {
        match self {
            Name::ShowPosix => "show-posix",
            Name::CheckPosix => "check-posix",
            Name::CalcMask => "calc-mask",
            Name::Chmod => "chmod",
            Name::Create => "create",
            Name::ShowNfs => "show-nfs",
            Name::Encode => "encode",
            Name::CheckNfs => "check-nfs",
            Name::Child => "child",
            Name::Mode => "mode",
            Name::Bridge => "bridge",
            Name::Table => "table",
            Name::Normalize => "normalize",
            Name::Compare => "compare",
        }
    }

    // Returns the arguments of the command. At most one of them takes words that belong to no option.
    fn arguments(self) -> &'static [Argument]
        ensures terms { map term result.now ≡ (definition_of self).terms }
        ensures sound { is_sound (definition_of self).terms ≡ true }
    {
        match self {
            Name::ShowPosix => &show_posix::ARGUMENTS,
            Name::CheckPosix => &check_posix::ARGUMENTS,
            Name::CalcMask => &names::ARGUMENTS,
            Name::Chmod => &chmod::ARGUMENTS,
            Name::Create => &create::ARGUMENTS,
            Name::ShowNfs => &profile::ARGUMENTS,
            Name::Encode => &profile::ARGUMENTS,
            Name::CheckNfs => &check_nfs::ARGUMENTS,
            Name::Child => &child::ARGUMENTS,
            Name::Mode => &profile::ARGUMENTS,
            Name::Bridge => &names::ARGUMENTS,
            Name::Table => &table::ARGUMENTS,
            Name::Normalize => &normalize::ARGUMENTS,
            Name::Compare => &profile::ARGUMENTS,
        }
    }
}

// Returns the first of some commands that has this word.
fn find_name<'a>(names: &'a [Name], word: &str) -> Option<&'a Name>
    ensures { option_copied result ≡ find (λ n. bytes_eq (command_word n) word.now) names.now }
{
    names.iter().find(|name| name.word() == word)
}

/// A command with its values, ready to run.
#[derive(Drop)]
pub enum Task<'a> {
    ShowPosix(ShowPosix),
    CheckPosix(CheckPosix),
    CalcMask(Names),
    Chmod(Chmod),
    Create(Create),
    ShowNfs(Profile),
    Encode(Profile),
    CheckNfs(CheckNfs<'a>),
    Child(Child),
    Mode(Profile),
    Bridge(Names),
    Table(RightTable),
    Normalize(Normalize),
    Compare(Profile),
}

impl<'a> Task<'a> {
    /// Returns the command with its values. Fails with `Usage` if a value or a name is bad, and with `Memory` if memory
    /// runs out.
    pub(crate) fn read<'w: 'a>(
        alloc: Global,
        name: Name,
        matches: &ArgMatches<'w>,
        words: &'a [&'a [u8]],
    ) -> Result<Task<'a>, LineFault>
        ensures { ReadsValues task_held (task_in name (rows_in matches.now)
            (texts words.entry.now)) result }
    {
        match name {
            Name::ShowPosix => Ok(Task::ShowPosix(show_posix::read(alloc, matches)?)),
            Name::CheckPosix => Ok(Task::CheckPosix(check_posix::read(alloc, matches)?)),
            Name::CalcMask => Ok(Task::CalcMask(names_in(alloc, matches)?)),
            Name::Chmod => Ok(Task::Chmod(chmod::read(alloc, matches)?)),
            Name::Create => Ok(Task::Create(create::read(alloc, matches)?)),
            Name::ShowNfs => Ok(Task::ShowNfs(profile_in(matches)?)),
            Name::Encode => Ok(Task::Encode(profile_in(matches)?)),
            Name::CheckNfs => Ok(Task::CheckNfs(check_nfs::read(matches, words)?)),
            Name::Child => Ok(Task::Child(child::read(matches)?)),
            Name::Mode => Ok(Task::Mode(profile_in(matches)?)),
            Name::Bridge => Ok(Task::Bridge(names_in(alloc, matches)?)),
            Name::Table => Ok(Task::Table(table::read(matches)?)),
            Name::Normalize => Ok(Task::Normalize(normalize::read(matches)?)),
            Name::Compare => Ok(Task::Compare(profile_in(matches)?)),
        }
    }

    /// Reads the input, and writes the answer. A binary input that is refused is not always read to its end.
    #[tactic(auto, unfolding(crate::specs::Task::Answers))]
    pub fn run<S: Source, K: Sink>(
        &self,
        alloc: Global,
        source: &mut S,
        sink: &mut K,
    ) -> Result<Outcome, RunFault>
        ensures { Runs (Answers (task_held self.now)) (shape_of (task_held self.now))
            S.remaining S.failure_count source.old source.new
            K.contents K.failure_count sink.old sink.new result }
    {
        match self {
            Task::ShowPosix(v) => run_show_posix(alloc, source, sink, v.form, &v.names),
            Task::CheckPosix(v) => run_check_posix(
                alloc, source, sink, v.owner, v.group, v.user, &v.groups, v.want, &v.names,
            ),
            Task::CalcMask(names) => run_calc_mask(alloc, source, sink, names),
            Task::Chmod(v) => run_chmod(alloc, source, sink, v.mode, &v.names),
            Task::Create(v) => run_create(alloc, source, sink, v.mode, v.umask, v.dir, &v.names),
            Task::ShowNfs(profile) => run_show_nfs(alloc, source, sink, *profile),
            Task::Encode(profile) => run_encode(alloc, source, sink, *profile),
            Task::CheckNfs(v) => run_check_nfs(
                alloc,
                source,
                sink,
                &v.object,
                &v.requester,
                v.mask,
                v.profile,
            ),
            Task::Child(v) => run_child(alloc, source, sink, v.kind, v.profile),
            Task::Mode(profile) => run_mode(alloc, source, sink, *profile),
            Task::Bridge(names) => run_bridge(alloc, source, sink, names),
            Task::Table(v) => run_table(alloc, source, sink, v.bit, v.profile),
            Task::Normalize(v) if v.inherit => run_normalize_inherit(
                alloc, source, sink, v.profile,
            ),
            Task::Normalize(v) => run_normalize(alloc, source, sink, v.profile),
            Task::Compare(profile) => run_compare(alloc, source, sink, *profile),
        }
    }
}
