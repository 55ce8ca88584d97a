//! The sets of the places that wait, one for each kind, class and right, and their numbers, which are called slots.
ghost use Rattle.std.specs.Prelude.{◌≡◌};
ghost use Rattle.acl_normal.specs.Common.{[], aces_with, bit_count, IfOk, is_users, length, OnOk, slot_count, slot_of, vec_len};
ghost use Rattle.acl_normal.specs.internal.Tidy.{IsQuiet};
ghost use Rattle.acl_normal.specs.internal.rows.Waiting.{HoldWaiting, PutsBelow};

use crate::mask_rights::next_right;
use crate::principal_class::Class;
use acl_nfs4::AceRef;
use acl_perm::internal::Bit;
use acl_perm::{Kind, Mask};
use std::alloc::{AllocError, Global};
use std::collections::BTreeSet;

/// How many slots there are: one for each of two kinds, two classes and 21 bits.
pub(crate) const SLOTS: usize = 4 * Bit::COUNT;

/// Returns the sets of the places that wait before anything is emitted, by their slots.
pub(crate) fn waiting_sets(
    alloc: Global,
    aces: &[AceRef<'_>],
    masks: &[Mask],
) -> Result<Vec<BTreeSet<usize>>, AllocError>
    requires places { length masks.now ≡ length aces.now }
    requires quiet { IsQuiet (aces_with aces.now masks.now) }
    ensures { IfOk result (λ sets.
        HoldWaiting (aces_with aces.now masks.now) sets.items) }
{
    let mut sets = empty_sets(alloc)?;
    for (place, ace) in aces.iter().enumerate() {
        let class = Class::of(ace.principal());
        put(&mut sets, place, ace.kind, class, masks[place])?;
    }
    Ok(sets)
}

fn empty_sets(alloc: Global) -> Result<Vec<BTreeSet<usize>>, AllocError>
    ensures { IfOk result (λ sets. HoldWaiting [] sets.items) }
{
    let mut sets = Vec::with_capacity(alloc, SLOTS)?;
    for _slot in 0..SLOTS {
        sets.push(BTreeSet::new(alloc))?;
    }
    Ok(sets)
}

// Puts a place into one set for each right of a mask.
fn put(
    sets: &mut Vec<BTreeSet<usize>>,
    place: usize,
    kind: Kind,
    class: Class,
    mask: Mask,
) -> Result<(), AllocError>
    requires { vec_len sets.old ≡ slot_count }
    ensures { OnOk result (PutsBelow place kind (is_users class) mask.bits bit_count
        sets.old.items sets.new.items) }
{
    let mut from = 0;
    while let Some(right) = next_right(mask, from) {
        let set = &mut sets[slot(kind, class, right)];
        set.insert(place)?;
        from = right.bit + 1;
    }
    Ok(())
}

/// Returns the slot of a kind, a class and a right: the number of their set.
pub(crate) fn slot(kind: Kind, class: Class, right: Bit) -> usize
    ensures { result ≡ slot_of kind (is_users class) right.bit }
{
    let kinds = match kind {
        Kind::Deny => 0,
        Kind::Allow => 2,
    };
    let classes = match class {
        Class::Others => 0,
        Class::Users => 1,
    };
    4 * right.bit + kinds + classes
}
