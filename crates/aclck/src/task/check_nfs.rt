//! `check-nfs`: whether a list grants a request.
ghost use Rattle.std.specs.Prelude.{◌≡◌};
ghost use Rattle.aclck.specs.Common.{ReadsValues, RunsCommand, option_and_then, option_map, profile_of, rows_in, text_if_any, texts};
ghost use Rattle.aclck.specs.Values.{mask_within};
ghost use Rattle.aclck.specs.commands.CheckNfs.{check_nfs, check_nfs_held, check_nfs_in, object_named, object_names, requester_named, requester_names};

use crate::answer::{Outcome, RunFault, decision_line, write_answer};
use crate::input::xdr::read_list;
use crate::line::{Argument, LineFault, text_of};
use crate::task::values::CheckNfs;
use crate::words::options::{GROUP, MASK, OWNER, PROFILE, USER};
use crate::words::profile::profile_in;
use crate::words::values::within;
use acl_eval::{Object, Requester, grants_for_many_groups};
use acl_nfs4::read_mask;
use acl_perm::{Mask, Profile, Sink, Source};
use clap::ArgMatches;
use std::alloc::Global;

/// The options of `check-nfs`. Its other words are the groups of the requester.
pub(crate) const ARGUMENTS: [Argument; 6] = [OWNER, GROUP, USER, MASK, PROFILE, Argument::Words];

/// Returns the request and the profile. Fails with `Usage` if a name is empty, the mask has a right outside the
/// profile, or an option has a bad value.
#[tactic(auto, unfolding(crate::specs::commands::CheckNfs::check_nfs_in))]
pub(crate) fn read<'a, 'w: 'a>(
    matches: &ArgMatches<'w>,
    groups: &'a [&'a [u8]],
) -> Result<CheckNfs<'a>, LineFault>
    ensures { ReadsValues check_nfs_held (check_nfs_in (rows_in matches.now)
        (texts groups.entry.now)) result }
{
    let Some(object) = object_of(text_of(matches, OWNER), text_of(matches, GROUP)) else {
        return Err(LineFault::Usage);
    };
    let Some(requester) = requester_of(text_of(matches, USER), groups) else {
        return Err(LineFault::Usage);
    };
    let profile = profile_in(matches)?;
    let mask = mask_in(text_of(matches, MASK), profile.masks).ok_or(LineFault::Usage)?;
    Ok(CheckNfs {
        object,
        requester,
        mask,
        profile,
    })
}

fn object_of<'a>(owner: Option<&'a str>, group: Option<&'a str>) -> Option<Object<'a>>
    ensures { option_map object_names result
        ≡ object_named (text_if_any owner.entry) (text_if_any group.entry) }
{
    Object::new(owner?.as_bytes(), group?.as_bytes())
}

fn requester_of<'a>(user: Option<&'a str>, groups: &'a [&'a [u8]]) -> Option<Requester<'a>>
    ensures { option_map requester_names result
        ≡ requester_named (text_if_any user.entry) (texts groups.entry.now) }
{
    requester_of_bytes(user?.as_bytes(), groups)
}

fn requester_of_bytes<'a>(user: &'a [u8], groups: &'a [&'a [u8]]) -> Option<Requester<'a>>
    ensures { option_map requester_names result
        ≡ requester_named (Some user.entry.now) (texts groups.entry.now) }
{
    Requester::new(user, groups)
}

// Returns the value of `--mask`: `none`, or names of rights with `|` between them. The rights are those of the profile,
// and the mask may have no other.
#[tactic(auto, unfolding(crate::specs::Values::mask_value))]
fn mask_in(word: Option<&str>, rights: Mask) -> Option<Mask>
    ensures { option_map (λ mask. mask.bits) result
        ≡ option_and_then (mask_within rights.bits) (text_if_any word.entry) }
{
    let mask = match word? {
        "none" => Mask::NONE,
        "-" => return None,
        names => read_mask(names.as_bytes())?,
    };
    within(rights, mask)
}

/// Writes whether the list that the whole input spells grants the requester the mask on the object (RFC 8881, section
/// 6.2.1): `granted`, or `denied` and No. Nothing is written before the input is accepted as a list of the profile.
/// Nothing is read after a refusal. Fails if the input is refused, if a read or a write fails, or if memory runs out.
pub fn run_check_nfs<S: Source, K: Sink>(
    alloc: Global,
    source: &mut S,
    sink: &mut K,
    object: &Object<'_>,
    requester: &Requester<'_>,
    mask: Mask,
    profile: Profile,
) -> Result<Outcome, RunFault>
    ensures { RunsCommand check_nfs (record {
      object = object_names object.now;
      requester = requester_names requester.now;
      mask = mask.bits;
      profile = profile_of profile;
    })
        S.remaining S.failure_count source.old source.new
        K.contents K.failure_count sink.old sink.new result }
{
    let list = read_list(alloc, source, profile)?;
    let granted = grants_for_many_groups(alloc, &list.view(), object, requester, mask)?;
    let outcome = Outcome::of(granted);
    write_answer(sink, outcome, decision_line(outcome))
}
