//! The first ACE that concerns each principal in each of two lists, for one right.
ghost use Rattle.std.specs.Prelude.{◌<◌, ◌≡◌, ◌≤◌};
ghost use Rattle.acl_normal.specs.Common.{ace, aces_in, AreWhoms, false, IfOk, length, principals, slice_index_or, true, vec_len, ℕ};
ghost use Rattle.acl_perm.specs.Kind.{is_allow};
ghost use Rattle.acl_normal.specs.internal.comparison.FirstPlaces.{AreFirstFrom, IsWhomWithin, no_ace, put, same_whom, stops_at};

use crate::principal_class::Class;
use acl_nfs4::AceRef;
use acl_perm::internal::Bit;
use acl_perm::{Kind, Principal};
use std::alloc::{AllocError, Global};

/// The place and the kind of the first ACE that has a right and concerns a principal: one that names the principal or
/// everyone.
#[derive(Clone, Copy)]
pub struct First {
    pub place: usize,
    pub kind: Kind,
}

impl First {
    /// Returns whether it is an ALLOW.
    pub fn allows(self) -> bool
        ensures { result ≡ is_allow self.kind }
    {
        self.kind.is_allow()
    }
}

/// The first ACE in each of two lists that concerns a principal, and the class of the principal.
#[derive(Clone, Copy)]
pub struct Placing {
    pub here: First,
    pub there: First,
    pub class: Class,
}

/// Whom an ACE names: nobody if it takes no part, one of the mentioned principals by its number, or everyone.
#[derive(Clone, Copy)]
pub enum Whom {
    Nobody,
    One(usize),
    Everyone,
}

impl Whom {
    pub(crate) fn is_same(self, other: Whom) -> bool
        ensures { result ≡ same_whom self other }
    {
        match (self, other) {
            (Whom::Nobody, Whom::Nobody) => true,
            (Whom::One(number), Whom::One(another)) => number == another,
            (Whom::Everyone, Whom::Everyone) => true,
            _ => false,
        }
    }
}

/// Returns, for each principal, the first ACE with a right that concerns it. At first this is the first ACE of everyone
/// for all principals. Then the ACEs before it are noted from the last to the first, so that the first ACE of each
/// principal remains.
pub(crate) fn firsts(
    alloc: Global,
    whole: &[Principal<'_>],
    list: &[AceRef<'_>],
    whoms: &[Whom],
    right: Bit,
) -> Result<Vec<First>, AllocError>
    requires { AreWhoms (principals whole.now) (aces_in list.now) whoms.now }
    ensures { IfOk result (λ v. AreFirstFrom (principals whole.now)
        (aces_in list.now) right.bit 0 v.items) }
{
    let end = place_of_everyone(list, whoms, right);
    let kind = kind_at(list, end);
    let mut out = vec![in alloc; First { place: end, kind }; whole.len()]?;
    for place in (0..end).rev() {
        put_first(&mut out, &list[place], whoms[place], place, right);
    }
    Ok(out)
}

// The place of the first ACE that names everyone and has the right, or the number of ACEs if there is none.
fn place_of_everyone(list: &[AceRef<'_>], whoms: &[Whom], right: Bit) -> usize
    requires { length whoms.now ≡ length list.now }
    ensures within { result ≤ length list.now }
    ensures before { (k : ℕ) → k < result
        → stops_at (aces_in list.now) whoms.now right.bit k ≡ false }
    ensures at { result < length list.now
        → stops_at (aces_in list.now) whoms.now right.bit result ≡ true }
{
    for (place, ace) in list.iter().enumerate() {
        if let Whom::Everyone = whoms[place] {
            if right.is_in(ace.mask) {
                return place;
            }
        }
    }
    list.len()
}

// The kind of the ACE at a place. After the end of the list everything is denied.
fn kind_at(list: &[AceRef<'_>], place: usize) -> Kind
    ensures { result ≡ (slice_index_or (aces_in list.now) place no_ace).kind }
{
    match list.get(place) {
        Some(item) => item.kind,
        None => Kind::Deny,
    }
}

// Notes an ACE as the first of its principal if it has the right. It replaces a later ACE.
fn put_first(out: &mut Vec<First>, item: &AceRef<'_>, whom: Whom, place: usize, right: Bit)
    requires { IsWhomWithin whom (vec_len out.old) }
    ensures { out.new.items ≡ put out.old.items (ace item.now) whom place right.bit }
{
    if let Whom::One(i) = whom {
        if right.is_in(item.mask) {
            out[i] = First {
                place,
                kind: item.kind,
            };
        }
    }
}
