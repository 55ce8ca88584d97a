//! The ACE that an entry of a text spells, of any type.
ghost use Rattle.std.specs.Prelude.{◌+◌, ◌≤◌, IfOk, count_ones};
ghost use Rattle.acl_nfs4.specs.Limits.{most_weight};
ghost use Rattle.acl_nfs4.specs.internal.Reading.{Gives};
ghost use Rattle.acl_forms.specs.PartTexts.{any_taken, judged_at, who_of_type};
ghost use Rattle.acl_forms.specs.internal.AnyAces.{HasAnyName, any_ace_of, any_entry, any_name};
ghost use Rattle.acl_forms.specs.internal.NfsReading.{entry_name};

use crate::acl41_ids::IdWho;
use crate::fault::{ReadFault, ReadReason};
use crate::nfs_text::entry::EntryWho;
use crate::part::any_ace::{AnyAceRef, AnyWho, who_of};
use crate::words::placed;
use acl_nfs4::internal::{is_no_who_len, is_too_heavy};
use acl_nfs4::{Flags, Mask, Reason};

/// The ACE of an entry, whose who is not judged yet.
#[derive(Clone, Copy)]
pub(crate) struct AnyEntry<'a> {
    pub type_number: u32,
    pub flags: Flags,
    pub mask: Mask,
    pub who: EntryWho<'a>,
}

/// Returns the ACE with its mask and its who at these places, after ACEs of this weight.
pub(crate) fn judged(
    item: AnyEntry<'_>,
    weight: u32,
    mask: usize,
    who: usize,
) -> Result<AnyAceRef<'_>, ReadFault>
    requires { weight ≤ most_weight }
    ensures exact { Gives any_ace_of result (any_taken weight mask who (any_entry item.entry)) }
    ensures light { IfOk result (λ a. weight + count_ones a.mask.bits ≤ most_weight) }
    ensures named { IfOk result (λ a. HasAnyName a.who) }
{
    if is_too_heavy(weight + item.mask.bits().count_ones()) {
        return Err(ReadFault::new(mask, ReadReason::List(Reason::TooHeavy)));
    }
    let who = who_at(who, item.type_number, item.who)?;
    Ok(AnyAceRef {
        type_number: item.type_number,
        flags: item.flags,
        mask: item.mask,
        who,
    })
}

// Returns the who at a place, in an ACE of this type.
fn who_at(place: usize, type_number: u32, who: EntryWho<'_>) -> Result<AnyWho<'_>, ReadFault>
    ensures exact { Gives any_name result
        (judged_at place (who_of_type type_number (entry_name who.entry))) }
    ensures named { IfOk result HasAnyName }
{
    match who {
        EntryWho::Named(name) => placed(place as u64, name_of(type_number, name)),
        EntryWho::Numbered(id) => Ok(AnyWho::Known(IdWho::Account(id))),
    }
}

fn name_of(type_number: u32, name: &[u8]) -> Result<AnyWho<'_>, ReadReason>
    ensures exact { Gives any_name result (who_of_type type_number name.now) }
    ensures named { IfOk result HasAnyName }
{
    if is_no_who_len(name.len()) {
        return Err(ReadReason::List(Reason::WhoLength));
    }
    who_of(type_number, name)
}
