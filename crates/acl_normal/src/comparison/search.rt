//! The search for the first small set at which two lists differ in a direction. A test of each pair of principals would
//! take time that grows with the square of their number, so the search finds one principal of the pair first, and then
//! the other. Principals alone come before pairs, and are tested for all rights at once.
ghost use Rattle.std.specs.Prelude.{◌≡◌};
ghost use Rattle.acl_normal.specs.Common.{all_mentioned, all_rights, AreNumbered, FindSet, has_bit, IfOk, IfSome, members_or_none, true};
ghost use Rattle.acl_normal.specs.internal.comparison.Columns.{AreRightsByNumber};
ghost use Rattle.acl_normal.specs.internal.comparison.FirstPair.{AreAlikeAlone, IsFoundOnAll, IsFoundOn, IsNothing};

use super::first_pair::FirstPair;
use super::inversions::{first_inverted, first_inverting};
use super::list_pair::ListPair;
use super::members::Members;
use acl_perm::Mask;
use acl_perm::internal::Bit;
use std::alloc::{AllocError, Global};

impl ListPair<'_, '_> {
    /// Returns the first small set at which the lists differ in the direction. The lesser member of the first such pair
    /// is the least principal that is in any such pair, and the other member is the least later principal that makes a
    /// pair with it.
    pub(crate) fn first_set(&self, alloc: Global) -> Result<Option<Members>, AllocError>
        ensures found { IfOk result (λ r.
            FindSet self.now (members_or_none (all_mentioned self.now) r)) }
        ensures within { IfOk result (λ r. IfSome r (AreNumbered (all_mentioned self.now))) }
    {
        if !self.grant_strangers_alike() {
            return Ok(Some(Members::Nobody));
        }
        let single = self.first_single(alloc)?;
        if single < self.count() {
            return Ok(Some(Members::One(single)));
        }
        let found = self.found(alloc)?;
        if found.member == self.count() {
            return Ok(None);
        }
        Ok(Some(Members::Two(found.member, found.partner)))
    }

    // The first pair for which the lists differ on any right.
    fn found(&self, alloc: Global) -> Result<FirstPair, AllocError>
        requires { AreAlikeAlone self.now }
        ensures { IfOk result (IsFoundOnAll self.now) }
    {
        let rights = self.rights_by_number(alloc)?;
        let mut found = self.nothing();
        for bit in 0..Bit::COUNT {
            let right = Bit { bit };
            if right.is_in(self.apart) {
                let next = self.found_on(alloc, right, &rights)?;
                if next.is_before(found) {
                    found = next;
                }
            }
        }
        Ok(found)
    }

    fn nothing(&self) -> FirstPair
        ensures { IsNothing self.now result }
    {
        let count = self.count();
        FirstPair {
            member: count,
            partner: count,
        }
    }

    // The first pair for which the lists differ on a right. `rights` has the rights of each principal.
    fn found_on(&self, alloc: Global, right: Bit, rights: &[Mask]) -> Result<FirstPair, AllocError>
        requires alone { AreAlikeAlone self.now }
        requires right { has_bit all_rights right.bit ≡ true }
        requires rights { AreRightsByNumber self.now rights.now }
        ensures { IfOk result (IsFoundOn self.now right.bit) }
    {
        let columns = self.columns(alloc, right, rights)?;
        let placings = columns.placings(alloc, right)?;
        let end = placings.len();
        let member = first_inverting(alloc, self.direction, &placings, columns.longer(), end)?;
        if member == end {
            return Ok(self.nothing());
        }
        let (_, others) = placings.as_slice().split_at(member + 1);
        let partner = first_inverted(self.direction, placings[member], others, others.len());
        let count = self.count();
        Ok(FirstPair {
            member: columns.number(member, count),
            partner: columns.number(member + 1 + partner, count),
        })
    }
}
