//! Two lists that are compared. What the search needs again and again is computed once: which principals the lists
//! mention, which of these each ACE names, and on which rights the lists may differ.
ghost use Rattle.std.specs.Prelude.{◌<◌, ◌≡◌};
ghost use Rattle.acl_normal.specs.Common.{AllByRecursion, AreAlikeTo, AreMentioned, AreNumbered, IfOk, IsGrantedTo, OnFalse, OnTrue, [], aces_in, all_mentioned, has_bit, length, map, members_of, principal, principals, set_of, two_lists, ℕ};
ghost use Rattle.acl_normal.specs.internal.comparison.Directions.{differ_in};
ghost use Rattle.acl_normal.specs.internal.comparison.TwoLists.{IsFirstSingle, principal_at};
ghost use Rattle.acl_normal.specs.internal.comparison.Columns.{AreColumnsOf, AreRightsByNumber};

use super::columns::{Columns, Numbers, add_rights, column_of, numbers_with};
use super::differing_rights::rights_apart;
use super::direction::Direction;
use super::evaluation::granted_to;
use super::granted_alone::GrantedAlone;
use super::members::Members;
use super::mentioned_principals::Mentions;
use super::placing::Whom;
use super::small_set::SmallSet;
use acl_nfs4::AceRef;
use acl_perm::internal::Bit;
use acl_perm::{Mask, Principal};
use std::alloc::{AllocError, Global};
use std::marker::Model;

/// Two lists that are compared in a direction. Clauses mention only the direction and the two lists, because all other
/// fields follow from the lists.
#[derive(Drop)]
pub(crate) struct ListPair<'a, 'b> {
    /// Which differences the search looks for.
    pub(crate) direction: Direction,
    pub(crate) first: &'b [AceRef<'a>],
    pub(crate) second: &'b [AceRef<'a>],
    /// The principals that the lists mention, in order.
    pub(crate) mentioned: &'b [Principal<'a>],
    /// Which of these principals each ACE of the first list names.
    first_whoms: &'b [Whom],
    /// Which of these principals each ACE of the second list names.
    second_whoms: &'b [Whom],
    /// For every other right, the lists have the same ACEs in the same order.
    pub(crate) apart: Mask,
}

impl<'a, 'b> Model for ListPair<'a, 'b> {
    ghost use Rattle.acl_normal.specs.internal.comparison.ListPair.{IsListPair, lists_in};
    ghost use Rattle.acl_normal.specs.internal.comparison.Directions.{differ_in};
    ghost use Rattle.acl_normal.specs.internal.comparison.TwoLists.{TwoLists};

    ghost Value = { TwoLists };

    ghost view = { lists_in };

    ghost invariant = { IsListPair };
}

impl<'a, 'b> ListPair<'a, 'b> {
    /// Prepares two lists for the search in a direction. `mentions` has the principals that the lists mention.
    #[tactic(auto, using(crate::proofs::comparison::MentionedWhoms::list_pair_parts))]
    pub(crate) fn of(
        direction: Direction,
        first: &'b [AceRef<'a>],
        second: &'b [AceRef<'a>],
        mentions: &'b Mentions<'a>,
    ) -> ListPair<'a, 'b>
        requires { AreMentioned (aces_in first.now) (aces_in second.now) mentions.now }
        ensures { result ≡ two_lists direction (aces_in first.now) (aces_in second.now) }
    {
        let (first_whoms, second_whoms) = mentions.whoms.as_slice().split_at(first.len());
        ListPair {
            direction,
            first,
            second,
            mentioned: mentions.principals.as_slice(),
            first_whoms,
            second_whoms,
            apart: rights_apart(first, first_whoms, second, second_whoms),
        }
    }

    pub(crate) fn set(&self, members: Members) -> SmallSet<'a>
        requires { AreNumbered (all_mentioned self.now) members }
        ensures { set_of result ≡ members_of (all_mentioned self.now) members }
    {
        match members {
            Members::Nobody => SmallSet::Empty,
            Members::One(i) => SmallSet::One(self.principal(i)),
            Members::Two(i, j) => SmallSet::Two(self.principal(i), self.principal(j)),
        }
    }

    /// Returns how many principals the lists mention. Their numbers are below this.
    pub(crate) fn count(&self) -> usize
        ensures { result ≡ length (all_mentioned self.now) }
    {
        self.mentioned.len()
    }

    pub(crate) fn principal(&self, number: usize) -> Principal<'a>
        requires { number < length (all_mentioned self.now) }
        ensures { principal result ≡ principal_at self.now number }
    {
        let mentioned = self.mentioned;
        mentioned[number]
    }

    /// Returns whether the lists do not differ in the direction if only everyone matches, and no principal that they
    /// mention.
    pub(crate) fn grant_strangers_alike(&self) -> bool
        ensures alike { OnTrue result (AreAlikeTo self.now []) }
        ensures differ { OnFalse result (AreAlikeTo self.now [] → ⊥) }
    {
        let nobody = Members::Nobody;
        self.differing(
            self.granted_by_first(nobody),
            self.granted_by_second(nobody),
        )
        .bits()
            == 0
    }

    /// Returns the number of the first principal for whom alone the lists differ in the direction, on any right, or the
    /// number of all principals if there is none.
    pub(crate) fn first_single(&self, alloc: Global) -> Result<usize, AllocError>
        ensures { IfOk result (IsFirstSingle self.now) }
    {
        let count = self.count();
        let here = GrantedAlone::of(alloc, self.first, self.first_whoms, count)?;
        let there = GrantedAlone::of(alloc, self.second, self.second_whoms, count)?;
        for number in 0..count {
            if self.differing(here.to(number), there.to(number)).bits() != 0 {
                return Ok(number);
            }
        }
        Ok(count)
    }

    /// Returns the rights on which the answers of the lists differ in the direction, given the rights that each grants.
    pub(crate) fn differing(&self, here: Mask, there: Mask) -> Mask
        ensures { (bit : ℕ) → has_bit result.bits bit
            ≡ differ_in self.now.direction (has_bit here.bits bit) (has_bit there.bits bit) }
    {
        self.direction.differing(here, there)
    }

    /// Returns the rights that the first list grants if only the principals with these numbers match, and everyone.
    pub(crate) fn granted_by_first(&self, members: Members) -> Mask
        requires { AreNumbered (all_mentioned self.now) members }
        ensures { IsGrantedTo self.now.first
            (members_of (all_mentioned self.now) members) result.bits }
    {
        granted_to(self.first, self.first_whoms, members)
    }

    /// Returns the rights that the second list grants if only the principals with these numbers match, and everyone.
    pub(crate) fn granted_by_second(&self, members: Members) -> Mask
        requires { AreNumbered (all_mentioned self.now) members }
        ensures { IsGrantedTo self.now.second
            (members_of (all_mentioned self.now) members) result.bits }
    {
        granted_to(self.second, self.second_whoms, members)
    }

    /// Returns, by number, the rights of the ACEs that name each mentioned principal.
    pub(crate) fn rights_by_number(&self, alloc: Global) -> Result<Vec<Mask>, AllocError>
        ensures { IfOk result (λ v. AreRightsByNumber self.now v.items) }
    {
        let mut rights = vec![in alloc; Mask::NONE; self.mentioned.len()]?;
        add_rights(&mut rights, self.first, self.first_whoms);
        add_rights(&mut rights, self.second, self.second_whoms);
        Ok(rights)
    }

    /// Returns the ACEs of both lists that have the right, and the principals that they name.
    pub(crate) fn columns(
        &self,
        alloc: Global,
        right: Bit,
        rights: &[Mask],
    ) -> Result<Columns<'a>, AllocError>
        requires { AreRightsByNumber self.now rights.now }
        ensures { IfOk result (AreColumnsOf self.now right.bit) }
    {
        let Numbers { numbers, places } = numbers_with(alloc, rights, right)?;
        let first = column_of(alloc, self.first, self.first_whoms, &places, right)?;
        let second = column_of(alloc, self.second, self.second_whoms, &places, right)?;
        let principals = self.principals_at(alloc, &numbers)?;
        Ok(Columns {
            numbers,
            principals,
            first,
            second,
        })
    }

    fn principals_at(
        &self,
        alloc: Global,
        numbers: &[usize],
    ) -> Result<Vec<Principal<'a>>, AllocError>
        requires { AllByRecursion (λ k. k < length (all_mentioned self.now)) numbers.now }
        ensures { IfOk result (λ v. principals v.items ≡ map (principal_at self.now) numbers.now) }
    {
        let mut found = Vec::with_capacity(alloc, numbers.len())?;
        for number in numbers {
            found.push(self.principal(*number))?;
        }
        Ok(found)
    }
}
