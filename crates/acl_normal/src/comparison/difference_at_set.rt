//! The difference of two lists, once the search has found a small set at which they differ.
ghost use Rattle.std.specs.Prelude.{◌≡◌};
ghost use Rattle.acl_normal.specs.Common.{all_mentioned, AreAlikeTo, AreNumbered, FindSet, IfOk, IfSome, IsGrantedTo, members_or_none, set_of, set_or_none};
ghost use Rattle.acl_perm.specs.Situation.{IsSituation};
ghost use Rattle.acl_normal.specs.SmallSets.{strange_length};
ghost use Rattle.acl_normal.specs.internal.comparison.TwoLists.{AreNamed, DifferLowestOn, IsSearched, ShowsSituation, situation_at};

use super::Difference;
use super::evaluation::{granted, lowest};
use super::list_pair::ListPair;
use super::members::Members;
use super::mentioned_principals::longest_of;
use super::situation_names::{groups_in, owner_in, owning_group_in, user_in};
use super::small_set::SmallSet;
use acl_perm::Mask;
use std::alloc::{AllocError, Global};

impl ListPair<'_, '_> {
    /// Returns the result of the search, given the first small set at which the lists differ, if there is one.
    pub(crate) fn difference(
        &self,
        alloc: Global,
        found: Option<SmallSet<'_>>,
    ) -> Result<Option<Difference>, AllocError>
        requires named { AreNamed self.now }
        requires found { FindSet self.now (set_or_none found) }
        ensures { IfOk result (IsSearched self.now) }
    {
        match found {
            None => Ok(None),
            Some(set) => {
                let here = granted(self.first, set);
                let there = granted(self.second, set);
                Ok(Some(self.difference_at(alloc, set, here, there)?))
            }
        }
    }

    /// Returns the result of the search as `difference` does, but takes the set by the numbers of its members.
    pub(crate) fn difference_of(
        &self,
        alloc: Global,
        found: Option<Members>,
    ) -> Result<Option<Difference>, AllocError>
        requires named { AreNamed self.now }
        requires found { FindSet self.now (members_or_none (all_mentioned self.now) found) }
        requires within { IfSome found (AreNumbered (all_mentioned self.now)) }
        ensures { IfOk result (IsSearched self.now) }
    {
        match found {
            None => Ok(None),
            Some(members) => {
                let here = self.granted_by_first(members);
                let there = self.granted_by_second(members);
                Ok(Some(self.difference_at(alloc, self.set(members), here, there)?))
            }
        }
    }

    // The small situation of a set at which the lists differ in the direction, and the lowest right on which they do.
    // `here` and `there` are the rights that each list grants in that situation.
    fn difference_at(
        &self,
        alloc: Global,
        set: SmallSet<'_>,
        here: Mask,
        there: Mask,
    ) -> Result<Difference, AllocError>
        requires differ { AreAlikeTo self.now (set_of set) → ⊥ }
        requires named { IsSituation (situation_at self.now (set_of set)) }
        requires here { IsGrantedTo self.now.first (set_of set) here.bits }
        requires there { IsGrantedTo self.now.second (set_of set) there.bits }
        ensures situation { IfOk result (ShowsSituation self.now (set_of set.entry)) }
        ensures bit { IfOk result (DifferLowestOn self.now (set_of set.entry)) }
    {
        let n = self.strange_length();
        let bit = lowest(self.differing(here, there));
        Ok(Difference {
            owner: owner_in(alloc, set, n)?,
            group: owning_group_in(alloc, set, n)?,
            user: user_in(alloc, set, n)?,
            groups: groups_in(alloc, set, n)?,
            bit,
            first_grants: here.contains(bit),
        })
    }

    // The length of a strange name, which must be longer than any name that the lists mention.
    fn strange_length(&self) -> usize
        ensures { result ≡ strange_length self.now.first self.now.second }
    {
        longest_of(self.mentioned) + 1
    }
}
