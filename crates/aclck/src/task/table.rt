//! `table`: what the normal form of a list says about one right.
ghost use Rattle.std.specs.Prelude.{◌≡◌};
ghost use Rattle.aclck.specs.Common.{ReadsValues, RunsCommand, option_and_then, option_map, profile_of, rows_in, text_if_any};
ghost use Rattle.aclck.specs.commands.RightTable.{bit_value, right_named, table, table_held, table_in};

use crate::answer::{Outcome, RunFault, write_answer};
use crate::input::xdr::read_list;
use crate::line::{Argument, LineFault, text_of};
use crate::task::values::RightTable;
use crate::words::options::{BIT, PROFILE};
use crate::words::profile::profile_in;
use crate::words::values::within;
use acl_nfs4::read_mask;
use acl_normal::table_text;
use acl_perm::{Mask, Profile, Sink, Source};
use clap::ArgMatches;
use std::alloc::Global;

/// The options of `table`, which takes no other word.
pub(crate) const ARGUMENTS: [Argument; 2] = [BIT, PROFILE];

/// Returns the right and the profile. Fails with `Usage` if the value of `--bit` is not one right of the profile, or
/// the profile is bad.
#[tactic(auto, unfolding(crate::specs::commands::RightTable::table_in))]
pub(crate) fn read(matches: &ArgMatches<'_>) -> Result<RightTable, LineFault>
    ensures { ReadsValues table_held (table_in (rows_in matches.now)) result }
{
    let profile = profile_in(matches)?;
    let bit = bit_in(text_of(matches, BIT), profile.masks).ok_or(LineFault::Usage)?;
    Ok(RightTable { bit, profile })
}

// Returns the right that a word names. The rights are those of the profile, and the right must be one of them.
fn bit_in(word: Option<&str>, rights: Mask) -> Option<Mask>
    ensures { option_map (λ mask. mask.bits) result
        ≡ option_and_then (bit_value rights.bits) (text_if_any word.entry) }
{
    within(rights, right_named(word?.as_bytes())?)
}

// Returns the right of one name. `read_mask` also takes `-` and several names, which are refused here.
#[tactic(auto, unfolding(crate::specs::commands::RightTable::right_named))]
fn right_named(word: &[u8]) -> Option<Mask>
    ensures { option_map (λ mask. mask.bits) result ≡ right_named word.now }
{
    if word == b"-".as_slice() || word.contains(&b'|') {
        return None;
    }
    read_mask(word)
}

/// Writes the rows of one right of the list that the whole input spells: one line for each ACE of its normal form that
/// has the right, in order, with the place in the given list from which it comes (this library's own, over RFC 8881,
/// section 6.2.1). Nothing is written before the input is accepted as a list of the profile. Nothing is read after a
/// refusal. Fails if the input is refused, if a read or a write fails, or if memory runs out.
pub fn run_table<S: Source, K: Sink>(
    alloc: Global,
    source: &mut S,
    sink: &mut K,
    bit: Mask,
    profile: Profile,
) -> Result<Outcome, RunFault>
    ensures { RunsCommand table (record { bit = bit.bits; profile = profile_of profile })
        S.remaining S.failure_count source.old source.new
        K.contents K.failure_count sink.old sink.new result }
{
    let text = table_text(alloc, &read_list(alloc, source, profile)?, bit)?;
    write_answer(sink, Outcome::Yes, text.as_slice())
}
