//! Which ALLOWs of a list exceed the bound on one right, by the first ACEs that concern each principal.
ghost use Rattle.std.specs.Prelude.{◌&&◌, ◌<◌, ◌≡◌};
ghost use Rattle.acl_perm.specs.Kind.{is_allow};
ghost use Rattle.acl_normal.specs.internal.comparison.FirstPlaces.{IsWhomWithin};
ghost use Rattle.acl_normal.specs.Common.{IfOk, has_bit, vec_len};
ghost use Rattle.acl_contain.specs.internal.Limits.{AreLimits, NameSome, exceeds, whom_exceeds};

use super::limits::Limits;
use super::named::Named;
use acl_nfs4::AceRef;
use acl_normal::internal::{Class, Whom, denied_before, placings};
use acl_perm::Right;
use acl_perm::internal::Bit;
use std::alloc::{AllocError, Global};

impl Limits {
    pub(crate) fn of(alloc: Global, named: &Named<'_>, right: Right) -> Result<Limits, AllocError>
        requires { NameSome named.now }
        ensures { IfOk result (AreLimits named.now right.bit) }
    {
        let placings = placings(
            alloc,
            &named.whole,
            &named.list,
            &named.bound,
            Bit::from(right),
        )?;
        let size = named.list.aces.len().max(named.bound.aces.len());
        let users = denied_before(alloc, &placings, size, Class::Users)?;
        let others = denied_before(alloc, &placings, size, Class::Others)?;
        Ok(Limits {
            placings,
            users,
            others,
        })
    }

    // Whether an ALLOW at a place, of the principal with a number, grants somebody what the bound denies.
    fn exceeds(&self, number: usize, place: usize) -> bool
        requires { number < vec_len self.now.placings }
        ensures { result ≡ exceeds self.now number place }
    {
        let placing = self.placings[number];
        if placing.here.place < place {
            return false;
        }
        if !placing.there.allows() {
            return true;
        }
        let before = if placing.class.is_users() {
            &self.users
        } else {
            &self.others
        };
        place < before[placing.there.place]
    }
}

/// Returns whether an ACE at a place is an ALLOW that grants somebody the right whom the bound denies it.
pub(crate) fn is_excess(
    limits: &Limits,
    item: &AceRef<'_>,
    whom: Whom,
    place: usize,
    right: Right,
) -> bool
    requires whom { IsWhomWithin whom (vec_len limits.now.placings) }
    requires some { 0 < vec_len limits.now.placings }
    ensures { result ≡ ((is_allow item.now.kind && has_bit item.now.mask.bits right.bit)
        && whom_exceeds limits.now whom place) }
{
    if !item.kind.is_allow() || !item.mask.has(right) {
        return false;
    }
    match whom {
        Whom::Nobody => false,
        Whom::One(number) => limits.exceeds(number, place),
        Whom::Everyone => limits.exceeds(limits.placings.len() - 1, place),
    }
}
