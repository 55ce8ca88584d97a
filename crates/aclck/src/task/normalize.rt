//! `normalize`: the normal form of a list, or its five normal forms.
ghost use Rattle.aclck.specs.Common.{ReadsValues, RunsCommand, rows_in};
ghost use Rattle.acl_normal.specs.FiveForms.{five_spellings};
ghost use Rattle.aclck.specs.internal.Writing.{WritesText};
ghost use Rattle.aclck.specs.commands.Normalize.{five_forms, normalize, normalize_held, normalize_in, one_form};

use crate::answer::{Outcome, RunFault, write_list_answer};
use crate::input::xdr::read_list;
use crate::line::{Argument, LineFault, is_set};
use crate::task::values::Normalize;
use crate::words::options::{INHERIT, PROFILE};
use crate::words::profile::profile_in;
use acl_normal::{FiveForms, normalize, normalize_inherit};
use acl_perm::{Profile, Sink, Source};
use clap::ArgMatches;
use std::alloc::Global;

/// The options of `normalize`, which takes no other word.
pub(crate) const ARGUMENTS: [Argument; 2] = [INHERIT, PROFILE];

/// Returns whether inheritance counts, and the profile. Fails with `Usage` if the profile is bad.
#[tactic(auto, unfolding(crate::specs::commands::Normalize::normalize_in))]
pub(crate) fn read(matches: &ArgMatches<'_>) -> Result<Normalize, LineFault>
    ensures { ReadsValues normalize_held (normalize_in (rows_in matches.now)) result }
{
    let inherit = is_set(matches, INHERIT);
    let profile = profile_in(matches)?;
    Ok(Normalize { inherit, profile })
}

/// Writes the bytes that spell the normal form of the list that the whole input spells: the one list that grants the
/// same in every situation and is normal (this library's own, over RFC 8881, section 6.2.1). Nothing is written before
/// the input is accepted as a list of the profile. Nothing is read after a refusal. Fails if the input is refused, if a
/// read or a write fails, or if memory runs out.
pub fn run_normalize<S: Source, K: Sink>(
    alloc: Global,
    source: &mut S,
    sink: &mut K,
    profile: Profile,
) -> Result<Outcome, RunFault>
    ensures { RunsCommand normalize (one_form profile)
        S.remaining S.failure_count source.old source.new
        K.contents K.failure_count sink.old sink.new result }
{
    let form = normalize(alloc, &read_list(alloc, source, profile)?)?;
    write_list_answer(sink, &form)
}

/// Writes the bytes that spell the five normal forms of the list that the whole input spells, one after the other: of
/// the list itself, of a new file, of a new directory, and of a new file and a new directory in that new directory
/// (this library's own, over RFC 8881, section 6.2.1). Nothing is written before the input is accepted as a list of the
/// profile and all five are made. Nothing is read after a refusal. Fails if the input is refused, if a read or a write
/// fails, or if memory runs out.
pub fn run_normalize_inherit<S: Source, K: Sink>(
    alloc: Global,
    source: &mut S,
    sink: &mut K,
    profile: Profile,
) -> Result<Outcome, RunFault>
    ensures { RunsCommand normalize (five_forms profile)
        S.remaining S.failure_count source.old source.new
        K.contents K.failure_count sink.old sink.new result }
{
    let forms = normalize_inherit(alloc, &read_list(alloc, source, profile)?)?;
    write_forms(sink, &forms)
}

// Writes the bytes that spell the five lists, and returns Yes. Fails if the sink fails.
fn write_forms<K: Sink>(sink: &mut K, forms: &FiveForms) -> Result<Outcome, RunFault>
    ensures { WritesText Outcome.Yes (five_spellings forms.now)
        K.contents K.failure_count sink.old sink.new result }
{
    forms.encode(sink)?;
    Ok(Outcome::Yes)
}
