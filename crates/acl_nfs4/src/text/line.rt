//! The ACE that a line of a text spells, or what is wrong with the line.
ghost use Rattle.std.specs.Prelude.{◌≡◌, ◌==◌, ◌+◌, ◌<◌, ◌≤◌, count_ones, option_map, position, IfOk, IfSome};
ghost use Rattle.acl_perm.specs.Ascii.{space};
ghost use Rattle.acl_perm.specs.Profile.{profile_of};
ghost use Rattle.acl_nfs4.specs.Ace.{ace};
ghost use Rattle.acl_nfs4.specs.AceText.{is_skipped};
ghost use Rattle.acl_nfs4.specs.internal.AceReading.{cut_space, line_fields, kind_named, read_ace, read_flags, read_mask_field, read_who, viewed_fields, view_first, who_fault_at, LineFieldsFit};
ghost use Rattle.acl_nfs4.specs.Limits.{most_aces, most_weight};
ghost use Rattle.acl_nfs4.specs.internal.Reading.{Gives};
ghost use Rattle.acl_nfs4.specs.Who.{IsWho};

use crate::ace::AceRef;
use crate::limits::{is_full, is_too_heavy};
use crate::names::bit_names::set_within;
use crate::names::flag_names::FLAGS;
use crate::text::fault::AceTextFault;
use crate::who::{WhoFault, judge};
use acl_perm::internal::{RIGHTS, is_all_blank, kind_name, place_of};
use acl_perm::{Flags, Kind, Mask, Profile};

/// The four fields of a line that should spell an ACE.
#[derive(Clone, Copy)]
pub(crate) struct LineFields<'a> {
    pub kind: &'a [u8],
    pub flags: &'a [u8],
    pub mask: &'a [u8],
    pub who: &'a [u8],
}

/// Returns whether a line should spell no ACE: it begins with `#`, or all its bytes are blanks.
pub(crate) fn is_skipped(line: &[u8]) -> bool
    ensures { result ≡ is_skipped line.now }
{
    match line.first() {
        Some(b'#') => true,
        _ => is_all_blank(line),
    }
}

/// Returns the ACE that a line spells, as the next ACE of a list with this length and weight.
#[tactic(auto, unfolding(crate::specs::internal::AceReading::read_ace))]
pub(crate) fn read_ace(
    line: &[u8],
    number: usize,
    count: usize,
    weight: u32,
    profile: Profile,
) -> Result<AceRef<'_>, AceTextFault>
    requires { weight ≤ most_weight }
    ensures exact { Gives ace result (read_ace (profile_of profile) count weight number line.now) }
    ensures room { IfOk result (λ a. count < most_aces) }
    ensures light { IfOk result (λ a. weight + count_ones a.mask.bits ≤ most_weight) }
    ensures who { IfOk result (λ a. IsWho a.who.now) }
{
    if is_full(count) {
        return Err(AceTextFault::TooManyAces {
            line: number,
            column: 1,
        });
    }
    let Some(fields) = fields(line) else {
        return Err(AceTextFault::Fields {
            line: number,
            column: 1,
        });
    };
    let Some(kind) = kind_named(fields.kind) else {
        return Err(AceTextFault::AceType {
            line: number,
            column: 1,
        });
    };
    let column = fields.kind.len() + 2;
    let flags = flags_at(fields.flags, number, column, profile)?;
    let column = column + fields.flags.len() + 1;
    let mask = mask_at(fields.mask, number, column, weight, profile)?;
    let column = column + fields.mask.len() + 1;
    let who = who_at(fields.who, number, column)?;
    Ok(AceRef {
        kind,
        flags,
        mask,
        who,
    })
}

/// The bytes before the first space, and the bytes after it.
#[derive(Clone, Copy)]
pub(crate) struct FirstField<'a> {
    pub field: &'a [u8],
    pub rest: &'a [u8],
}

// Returns the fields of a line, or `None` if it has fewer than three spaces. The who is all that follows the third
// space.
#[tactic(auto, unfolding(crate::specs::internal::AceReading::line_fields))]
fn fields(line: &[u8]) -> Option<LineFields<'_>>
    ensures value { option_map viewed_fields result ≡ line_fields line.now }
    ensures fits { IfSome result (λ f. LineFieldsFit (viewed_fields f) line.now) }
{
    let kind = cut(line)?;
    let flags = cut(kind.rest)?;
    let mask = cut(flags.rest)?;
    Some(LineFields {
        kind: kind.field,
        flags: flags.field,
        mask: mask.field,
        who: mask.rest,
    })
}

fn cut(bytes: &[u8]) -> Option<FirstField<'_>>
    ensures { option_map view_first result ≡ cut_space bytes.now }
{
    let place = space_in(bytes)?;
    Some(FirstField {
        field: &bytes[..place],
        rest: &bytes[place + 1..],
    })
}

fn space_in(bytes: &[u8]) -> Option<usize>
    ensures { result ≡ position (λ b. b == space) bytes.now }
{
    place_of(bytes, b' ')
}

#[tactic(auto, unfolding(crate::specs::internal::AceReading::kind_named))]
fn kind_named(word: &[u8]) -> Option<Kind>
    ensures { result ≡ kind_named word.now }
{
    if word == kind_name(Kind::Allow).as_bytes() {
        Some(Kind::Allow)
    } else if word == kind_name(Kind::Deny).as_bytes() {
        Some(Kind::Deny)
    } else {
        None
    }
}

// Returns the flags of a field, which must be flags of the profile.
#[tactic(auto, using(crate::proofs::list::Within::within))]
fn flags_at(
    field: &[u8],
    line: usize,
    column: usize,
    profile: Profile,
) -> Result<Flags, AceTextFault>
    ensures { Gives (λ f. f.bits) result (read_flags (profile_of profile) line column field.now) }
{
    match set_within(&FLAGS, field, profile.flags.bits() as u32) {
        Some(bits) => Ok(Flags { bits: bits as u8 }),
        None => Err(AceTextFault::Flag { line, column }),
    }
}

// Returns the mask of a field, which must have rights of the profile alone, after ACEs of this weight.
#[tactic(auto, using(crate::proofs::list::Within::within))]
fn mask_at(
    field: &[u8],
    line: usize,
    column: usize,
    weight: u32,
    profile: Profile,
) -> Result<Mask, AceTextFault>
    requires { weight ≤ most_weight }
    ensures exact { Gives (λ m. m.bits) result
        (read_mask_field (profile_of profile) weight line column field.now) }
    ensures light { IfOk result (λ m. weight + count_ones m.bits ≤ most_weight) }
{
    let Some(bits) = set_within(&RIGHTS, field, profile.masks.bits()) else {
        return Err(AceTextFault::Mask { line, column });
    };
    if is_too_heavy(weight + bits.count_ones()) {
        return Err(AceTextFault::TooHeavy { line, column });
    }
    Ok(Mask { bits })
}

// Returns the field as a who, or the first reason for which it is not one, at its line and column.
fn who_at(field: &[u8], line: usize, column: usize) -> Result<&[u8], AceTextFault>
    ensures exact { Gives (λ who. who.now) result (read_who line column field.now) }
    ensures who { IfOk result (λ who. IsWho who.now) }
{
    match judge(field) {
        Ok(()) => Ok(field),
        Err(fault) => Err(who_fault(fault, line, column)),
    }
}

fn who_fault(fault: WhoFault, line: usize, column: usize) -> AceTextFault
    ensures { result ≡ who_fault_at line column fault }
{
    match fault {
        WhoFault::Length => AceTextFault::WhoLength { line, column },
        WhoFault::Utf8 => AceTextFault::WhoUtf8 { line, column },
        WhoFault::Control => AceTextFault::WhoControl { line, column },
        WhoFault::Special => AceTextFault::SpecialWho { line, column },
    }
}
