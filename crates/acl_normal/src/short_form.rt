//! The normal form of a short list, without queues and without a heap, and whether two short lists have one form.
ghost use Rattle.std.specs.Prelude.{◌<◌, ◌↔◌, ◌≡◌};
ghost use Rattle.acl_normal.specs.Common.{aces_in, aces_with, all_rights, AreRowNumbers, emitted_ace, emitted_aces, full, IfOk, IsAccepted, IsNormalFormOf, IsReducedOf, IsTrue, left, length, SameGrants, vec_len};
ghost use Rattle.acl_normal.specs.internal.Counts.{rights_together};
ghost use Rattle.acl_normal.specs.internal.Limits.{list_limit};

use crate::ace_principal::key;
use crate::emit::emission::Emitted;
use crate::emit::rising::rises;
use crate::emit::short::drain_short;
use crate::normal_form::{ace_of, written};
use crate::reduce::collected::collect;
use crate::reduce::reduced_masks;
use crate::rows::short_list::rows_of_short_list;
use acl_nfs4::{AceRef, Acl, AclView};
use acl_perm::Mask;
use std::alloc::{AllocError, Global};

/// The rights of the ACEs of a list that are needed, and the rows of their principals, both by place.
#[derive(Drop)]
struct NeededRights {
    masks: Vec<Mask>,
    rows: Vec<usize>,
}

/// Returns the normal form of a list. It takes time that grows with the square of the number of ACEs, and takes the
/// least for a short list.
pub fn short_form(alloc: Global, list: &AclView<'_>) -> Result<Acl, AllocError>
    ensures { IfOk result (λ form. IsNormalFormOf list.now form) }
{
    let aces = collect(alloc, list)?;
    let needed = needed_rights(alloc, &aces)?;
    let form = emitted(alloc, &aces, &needed.masks, &needed.rows)?;
    written(alloc, &form)
}

/// Returns whether two lists have one normal form, which is whether they grant the same. It takes time that grows with
/// the square of the number of ACEs.
pub fn have_one_form(
    alloc: Global,
    list: &[AceRef<'_>],
    other: &[AceRef<'_>],
) -> Result<bool, AllocError>
    requires list { IsAccepted full (aces_in list.now) }
    requires other { IsAccepted full (aces_in other.now) }
    ensures { IfOk result (λ answer. IsTrue answer
        ↔ SameGrants all_rights (aces_in list.now) (aces_in other.now)) }
{
    let needed = needed_rights(alloc, list)?;
    let other_needed = needed_rights(alloc, other)?;
    // Lists that grant the same need as many rights. To count the rights takes less time than to emit both forms.
    if count_rights(&needed.masks) != count_rights(&other_needed.masks) {
        return Ok(false);
    }
    let form = emitted(alloc, list, &needed.masks, &needed.rows)?;
    let other_form = emitted(alloc, other, &other_needed.masks, &other_needed.rows)?;
    Ok(are_equal(&form, &other_form))
}

fn needed_rights(alloc: Global, aces: &[AceRef<'_>]) -> Result<NeededRights, AllocError>
    requires { IsAccepted full (aces_in aces.now) }
    ensures masks { IfOk result (λ needed. vec_len needed.masks ≡ length aces.now) }
    ensures rows { IfOk result (λ needed. AreRowNumbers (aces_in aces.now) needed.rows.items) }
    ensures reduced { IfOk result (λ needed. IsReducedOf (aces_in aces.now)
        (aces_with aces.now needed.masks.items)) }
{
    let rows = rows_of_short_list(alloc, aces)?;
    let masks = reduced_masks(alloc, aces, &rows)?;
    Ok(NeededRights { masks, rows })
}

fn count_rights(masks: &[Mask]) -> usize
    requires { length masks.now < list_limit }
    ensures { result ≡ rights_together masks.now }
{
    let mut count = 0;
    for mask in masks {
        count += mask.bits.count_ones() as usize;
    }
    count
}

// The ACEs of the normal form, if only the rights of these masks are needed.
fn emitted<'a>(
    alloc: Global,
    aces: &[AceRef<'a>],
    masks: &[Mask],
    rows: &[usize],
) -> Result<Vec<Emitted<'a>>, AllocError>
    requires masks { length masks.now ≡ length aces.now }
    requires rows { AreRowNumbers (aces_in aces.now) rows.now }
    requires reduced { IsReducedOf (aces_in aces.now) (aces_with aces.now masks.now) }
    ensures { IfOk result (λ form.
        IsNormalFormOf (aces_in aces.now) (emitted_aces form.items)) }
{
    // What is to be emitted, in the order of the list.
    let mut left = Vec::with_capacity(alloc, aces.len())?;
    for (place, ace) in aces.iter().enumerate() {
        let mask = masks[place];
        if mask.bits != 0 {
            left.push(Emitted {
                key: key(ace),
                mask,
                row: rows[place],
            })?;
        }
    }
    if rises(aces, masks, rows) {
        return Ok(left);
    }
    drain_short(alloc, &mut left)
}

fn are_equal(list: &[Emitted<'_>], other: &[Emitted<'_>]) -> bool
    ensures { IsTrue result ↔ (emitted_aces list.now ≡ emitted_aces other.now) }
{
    if list.len() != other.len() {
        return false;
    }
    for (place, item) in list.iter().enumerate() {
        if !is_same(item, &other[place]) {
            return false;
        }
    }
    true
}

fn is_same(item: &Emitted<'_>, other: &Emitted<'_>) -> bool
    ensures { IsTrue result ↔ (emitted_ace item.now ≡ emitted_ace other.now) }
{
    let (ace, other) = (ace_of(*item), ace_of(*other));
    ace.kind == other.kind
        && ace.flags == other.flags
        && ace.mask == other.mask
        && ace.who == other.who
}
