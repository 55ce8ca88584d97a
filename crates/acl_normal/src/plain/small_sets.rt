//! The comparison and the excess by a search that tries all small sets. It is slow, and tests compare the fast search
//! with it.
ghost use Rattle.std.specs.Prelude.{◌∷◌, ◌≡◌};
ghost use Rattle.acl_normal.specs.Common.{[], aces_in, GrantAlikeTo, IfOk, OnFalse, OnTrue, principal, principals, set_of, set_or_none, true, two_lists};
ghost use Rattle.acl_perm.specs.Overlap.{may_overlap};
ghost use Rattle.acl_normal.specs.Difference.{IsComparison};
ghost use Rattle.acl_normal.specs.Excess.{IsExcess};
ghost use Rattle.acl_normal.specs.SmallSets.{principal_pairs, partners, singles, small_sets};
ghost use Rattle.acl_normal.specs.internal.comparison.SetSearch.{FindsSet};
ghost use Rattle.acl_normal.specs.internal.comparison.TwoLists.{IsSearched};

use crate::comparison::Difference;
use crate::comparison::direction::Direction;
use crate::comparison::evaluation::granted;
use crate::comparison::list_pair::ListPair;
use crate::comparison::mentioned_principals::mentioned;
use crate::comparison::small_set::SmallSet;
use crate::reduce::collected::collect;
use acl_nfs4::{AceRef, Acl};
use acl_perm::{Principal, overlaps};
use std::alloc::{AllocError, Global};

/// The two lists of a comparison and its direction, in one value that each step of the search is given.
#[derive(Clone, Copy)]
struct Lists<'l, 'a> {
    direction: Direction,
    first: &'l [AceRef<'a>],
    second: &'l [AceRef<'a>],
}

/// Returns the same as [`crate::compare`], but tries all small situations. Its time grows with the third power of the
/// number of principals. Fails if memory runs out.
pub fn compare(alloc: Global, first: &Acl, second: &Acl) -> Result<Option<Difference>, AllocError>
    // The same result: `None` if and only if both lists grant the same, and otherwise the first difference.
    ensures { IfOk result (IsComparison first.now second.now) }
{
    searched(alloc, Direction::Either, first, second)
}

/// Returns the same as the fast search over a first list, but tries all small situations, as `compare` here does. Fails
/// if memory runs out.
pub fn excess(alloc: Global, first: &Acl, second: &Acl) -> Result<Option<Difference>, AllocError>
    // The same result: `None` if and only if the second list grants whatever the first grants, and otherwise the first
    // excess.
    ensures { IfOk result (IsExcess first.now second.now) }
{
    searched(alloc, Direction::Over, first, second)
}

// The first small situation in which two lists differ in a direction. The lists are borrowed for the same lifetime,
// because one value holds both.
fn searched<'a>(
    alloc: Global,
    direction: Direction,
    first: &'a Acl,
    second: &'a Acl,
) -> Result<Option<Difference>, AllocError>
    ensures { IfOk result (IsSearched (two_lists direction first.now second.now)) }
{
    let first = collect(alloc, &first.view())?;
    let second = collect(alloc, &second.view())?;
    let mentions = mentioned(alloc, &first, &second)?;
    let lists = Lists {
        direction,
        first: &first,
        second: &second,
    };
    let found = first_set(lists, &mentions.principals);
    ListPair::of(direction, &first, &second, &mentions).difference(alloc, found)
}

// The first small set at which the lists differ.
#[tactic(auto, using(crate::proofs::comparison::SetSearchLemmas::empty_differs))]
fn first_set<'a>(lists: Lists<'_, '_>, whole: &[Principal<'a>]) -> Option<SmallSet<'a>>
    ensures { FindsSet lists.entry.direction (aces_in lists.entry.first.now)
        (aces_in lists.entry.second.now)
        (small_sets (principals whole.now)) (set_or_none result) }
{
    if !lists.are_alike(SmallSet::Empty) {
        return Some(SmallSet::Empty);
    }
    if let Some(set) = first_single(lists, whole) {
        return Some(set);
    }
    first_pair(lists, whole)
}

// The first principal at which alone the lists differ.
#[tactic(auto, using(crate::proofs::comparison::SetSearchLemmas::single_ends))]
fn first_single<'a>(lists: Lists<'_, '_>, whole: &[Principal<'a>]) -> Option<SmallSet<'a>>
    ensures { FindsSet lists.entry.direction (aces_in lists.entry.first.now)
        (aces_in lists.entry.second.now)
        (singles (principals whole.now)) (set_or_none result) }
{
    for p in whole {
        let set = SmallSet::One(*p);
        if !lists.are_alike(set) {
            return Some(set);
        }
    }
    None
}

// The first pair at which the lists differ.
#[tactic(auto, using(crate::proofs::comparison::SetSearchLemmas::pair_ends))]
fn first_pair<'a>(lists: Lists<'_, '_>, whole: &[Principal<'a>]) -> Option<SmallSet<'a>>
    ensures { FindsSet lists.entry.direction (aces_in lists.entry.first.now)
        (aces_in lists.entry.second.now)
        (principal_pairs (principals whole.now)) (set_or_none result) }
{
    for (i, p) in whole.iter().enumerate() {
        let (_, rest) = whole.split_at(i + 1);
        if let Some(set) = first_partner(lists, *p, rest) {
            return Some(set);
        }
    }
    None
}

// The first pair of the principal and one of the rest at which the lists differ.
#[tactic(auto, using(crate::proofs::comparison::SetSearchLemmas::partner_ends))]
fn first_partner<'a>(
    lists: Lists<'_, '_>,
    p: Principal<'a>,
    rest: &[Principal<'a>],
) -> Option<SmallSet<'a>>
    ensures { FindsSet lists.entry.direction (aces_in lists.entry.first.now)
        (aces_in lists.entry.second.now)
        (partners (principal p.entry) (principals rest.now)) (set_or_none result) }
{
    for q in rest {
        if lists.differ_at_pair(p, *q) {
            return Some(SmallSet::Two(p, *q));
        }
    }
    None
}

impl Lists<'_, '_> {
    // Returns whether the principals may overlap, and the lists differ at the two.
    fn differ_at_pair(self, p: Principal<'_>, q: Principal<'_>) -> bool
        ensures overlap { OnTrue result
            (may_overlap (principal p.entry) (principal q.entry) ≡ true) }
        ensures differ { OnTrue result
            (GrantAlikeTo self.entry.direction
            (aces_in self.entry.first.now) (aces_in self.entry.second.now)
            (principal p.entry ∷ principal q.entry ∷ []) → ⊥) }
        ensures agree { OnFalse result (may_overlap (principal p.entry) (principal q.entry) ≡ true
            → GrantAlikeTo self.entry.direction
            (aces_in self.entry.first.now) (aces_in self.entry.second.now)
            (principal p.entry ∷ principal q.entry ∷ [])) }
    {
        overlaps(p, q) && !self.are_alike(SmallSet::Two(p, q))
    }

    // Returns whether the lists do not differ in the direction if only the principals of the set match, and everyone.
    fn are_alike(self, set: SmallSet<'_>) -> bool
        ensures alike { OnTrue result (GrantAlikeTo self.entry.direction
            (aces_in self.entry.first.now)
            (aces_in self.entry.second.now) (set_of set.entry)) }
        ensures differ { OnFalse result (GrantAlikeTo self.entry.direction
            (aces_in self.entry.first.now)
            (aces_in self.entry.second.now) (set_of set.entry) → ⊥) }
    {
        self.direction
            .differing(granted(self.first, set), granted(self.second, set))
            .bits()
            == 0
    }
}
