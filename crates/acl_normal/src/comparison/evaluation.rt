//! The rights that a list grants if only the principals of a small set match, and everyone.
ghost use Rattle.std.specs.Prelude.{◌&&◌, ◌^◌, ◌≡◌, ◌≢◌};
ghost use Rattle.acl_normal.specs.Common.{ace, aces_in, AreNumbered, AreWhoms, has_bit, is_matched, IsGrantedTo, IsLowest, length, List, members_of, not, Principal, set_of, ℕ};
ghost use Rattle.std.specs.Int.{trailing_zeros, w32};
ghost use Rattle.acl_perm.specs.Kind.{is_allow};
ghost use Rattle.acl_normal.specs.internal.comparison.SetSearch.{AreRightsOf, HasBitsOf};

use super::members::Members;
use super::placing::Whom;
use super::small_set::SmallSet;
use acl_nfs4::AceRef;
use acl_perm::{Kind, Mask};

/// Returns the rights that a list grants if only the principals of a set match, and everyone.
pub(crate) fn granted(list: &[AceRef<'_>], set: SmallSet<'_>) -> Mask
    ensures { IsGrantedTo (aces_in list.now) (set_of set.entry) result.bits }
{
    let mut decided = Mask::NONE;
    let mut granted = Mask::NONE;
    for item in list {
        let rights = own_rights(item, set);
        granted = granted.union(granted_anew(item.kind, rights, decided));
        decided = decided.union(rights);
    }
    granted
}

/// Returns the same rights as [`granted`] for a set that is given by numbers. `whoms` has, by place, which of the
/// numbered principals each ACE names.
pub(crate) fn granted_to(list: &[AceRef<'_>], whoms: &[Whom], set: Members) -> Mask
    requires { length whoms.now ≡ length list.now }
    ensures { (whole : List Principal) → AreWhoms whole (aces_in list.now) whoms.now
        → AreNumbered whole set
        → IsGrantedTo (aces_in list.now) (members_of whole set) result.bits }
{
    let mut decided = Mask::NONE;
    let mut granted = Mask::NONE;
    for (place, item) in list.iter().enumerate() {
        let rights = rights_matched(item, whoms[place], set);
        granted = granted.union(granted_anew(item.kind, rights, decided));
        decided = decided.union(rights);
    }
    granted
}

// The rights that an ACE with these rights grants: none if it denies, and otherwise those that no earlier ACE decided.
fn granted_anew(kind: Kind, rights: Mask, decided: Mask) -> Mask
    ensures { (bit : ℕ) → has_bit result.bits bit
        ≡ (is_allow kind && (has_bit rights.bits bit && not (has_bit decided.bits bit))) }
{
    match kind {
        Kind::Allow => rights.difference(decided),
        Kind::Deny => Mask::NONE,
    }
}

// The mask of an ACE that names a principal of the set or everyone, and otherwise no rights.
fn rights_matched(item: &AceRef<'_>, whom: Whom, set: Members) -> Mask
    ensures { (bit : ℕ) → has_bit result.bits bit
        ≡ (has_bit item.now.mask.bits bit && is_matched set whom) }
{
    if set.matches(whom) {
        item.mask
    } else {
        Mask::NONE
    }
}

// The mask of an ACE that takes part and names a principal of the set or everyone, and otherwise no rights.
fn own_rights(item: &AceRef<'_>, set: SmallSet<'_>) -> Mask
    ensures { HasBitsOf (ace item.now) (set_of set.entry) result.bits }
{
    if item.takes_part() && set.matches(item.principal()) {
        item.mask
    } else {
        Mask::NONE
    }
}

/// Returns the right with the lowest bit, as a mask. There must be at least one right.
pub(crate) fn lowest(rights: Mask) -> Mask
    requires { rights.bits ≢ 0 }
    ensures value { result.bits ≡ 2 ^ trailing_zeros w32 rights.bits }
    ensures lowest { IsLowest (trailing_zeros w32 rights.bits) rights.bits }
{
    Mask {
        bits: lowest_bit(rights.bits()),
    }
}

fn lowest_bit(bits: u32) -> u32
    requires { bits ≢ 0 }
    ensures { result ≡ 2 ^ trailing_zeros w32 bits }
{
    1 << bits.trailing_zeros()
}

/// Returns the rights that at least one ACE of the list has.
pub(crate) fn rights_of(list: &[AceRef<'_>]) -> Mask
    ensures { AreRightsOf (aces_in list.now) result.bits }
{
    let mut rights = Mask::NONE;
    for item in list {
        rights = rights.union(item.mask);
    }
    rights
}
