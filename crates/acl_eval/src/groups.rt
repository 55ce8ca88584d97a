//! The groups of a requester, and the look-up of one among many.
ghost use Rattle.std.specs.Prelude.{◌≡◌, ℕ, IfOk, List, map, true};
ghost use Rattle.std.specs.Borrow.{Bor};
ghost use Rattle.std.specs.List.{list_any};
ghost use Rattle.std.specs.Str.{bytes_eq};
ghost use Rattle.acl_eval.specs.GroupSearch.{found_groups};
ghost use Rattle.acl_eval.specs.internal.GroupOrder.{AreInOrder, IsSortedCopy};
ghost use Rattle.acl_eval.specs.declared.groups.Order.TheVariants.{Copied, Known};

use std::alloc::{AllocError, Global};
use std::cmp::Ordering;

// Up to this number of names, a look-up one by one is faster than a binary search.
const FEW: usize = 16;

// To find out whether many names are in order takes as long as about sixteen look-ups one by one. A list of more ACEs
// than this has so many look-ups, even if it ends early or is mostly about users.
const MANY_LOOK_UPS: usize = 64;

// Up to this number of comparisons, look-ups one by one take less than a millisecond. Above it, they take longer than
// sorting the names, if there are many look-ups.
const MANY_COMPARISONS: usize = 1 << 18;

/// What is known about the order of names.
#[derive(Clone, Copy, Debug)]
pub(crate) enum Order<'a> {
    /// Nothing: a name is looked up one by one.
    Unknown,
    /// The names are in the order of their bytes.
    Known,
    /// A copy of the names is in the order of their bytes, and a name is looked up in the copy.
    Copied(&'a [&'a [u8]]),
    /// The caller said that they are. Whether they are or not, those count that a binary search finds.
    Said,
}

/// The names of groups, and what is known about their order.
#[derive(Clone, Copy, Debug)]
pub(crate) struct Groups<'a> {
    names: &'a [&'a [u8]],
    order: Order<'a>,
    ghost known: { order ≡ Known → AreInOrder names.now },
    ghost copied: { (copy : Bor (List (Bor (List ℕ)))) → order ≡ Copied copy
        → IsSortedCopy names.now copy.now },
}

impl<'a> Groups<'a> {
    ghost use Rattle.acl_eval.specs.Situation.{groups_among};

    /// Makes the groups of these names. It does not find out whether they are in order.
    pub(crate) fn new(names: &'a [&'a [u8]]) -> Self
        ensures names { result.names.now ≡ names.entry.now }
        ensures groups { groups_among result ≡ map (λ g. g.now) names.entry.now }
    {
        Groups {
            names,
            order: Order::Unknown,
        }
    }

    /// Makes the groups of these names, for any number of look-ups. If there are many names, it finds out whether they
    /// are in order.
    pub(crate) fn judged(names: &'a [&'a [u8]]) -> Self
        ensures names { result.names.now ≡ names.entry.now }
        ensures groups { groups_among result ≡ map (λ g. g.now) names.entry.now }
    {
        if names.len() > FEW && are_in_order(names) {
            Groups::in_order(names)
        } else {
            Groups::new(names)
        }
    }

    /// Makes the groups of these names, of which the caller says that they are in order.
    pub(crate) fn said(names: &'a [&'a [u8]]) -> Self
        ensures names { result.names.now ≡ names.entry.now }
        ensures groups { groups_among result ≡ found_groups (map (λ g. g.now) names.entry.now) }
    {
        Groups {
            names,
            order: Order::Said,
        }
    }

    /// Makes the groups of these names, which are in order.
    pub(crate) fn in_order(names: &'a [&'a [u8]]) -> Self
        requires { AreInOrder names.now }
        ensures names { result.names.now ≡ names.entry.now }
        ensures groups { groups_among result ≡ map (λ g. g.now) names.entry.now }
    {
        Groups {
            names,
            order: Order::Known,
        }
    }

    /// Makes the groups of these names, and looks them up in a copy that is in order.
    pub(crate) fn copied(names: &'a [&'a [u8]], copy: &'a [&'a [u8]]) -> Self
        requires { IsSortedCopy names.now copy.now }
        ensures names { result.names.now ≡ names.entry.now }
        ensures groups { groups_among result ≡ map (λ g. g.now) names.entry.now }
    {
        Groups {
            names,
            order: Order::Copied(copy),
        }
    }

    /// Returns the same groups, for this many look-ups. If there are many look-ups and many names, it finds out whether
    /// the names are in order, since each look-up then takes less time.
    pub(crate) fn for_look_ups(self, look_ups: usize) -> Self
        ensures names { result.names.now ≡ self.entry.names.now }
        ensures groups { groups_among result ≡ groups_among self.entry }
    {
        match self.order {
            Order::Unknown if look_ups > MANY_LOOK_UPS => Groups::judged(self.names),
            _ => self,
        }
    }

    /// Returns the names, in the order in which they were given.
    pub(crate) fn names(&self) -> &'a [&'a [u8]]
        ensures { result.now ≡ self.now.names.now }
    {
        self.names
    }

    /// Returns whether to sort a copy of the names for this many look-ups. Then each name counts. The copy makes the
    /// time proportional to the sum of the numbers of look-ups and names, times a logarithm, and not to their
    /// product.
    pub(crate) fn are_worth_sorting(&self, look_ups: usize) -> bool
        ensures { result ≡ true → groups_among self.now ≡ map (λ g. g.now) self.now.names.now }
    {
        match self.order {
            Order::Unknown => {
                look_ups > MANY_LOOK_UPS
                    && self.names.len() > FEW
                    && look_ups.saturating_mul(self.names.len()) > MANY_COMPARISONS
            }
            Order::Known | Order::Copied(_) | Order::Said => false,
        }
    }

    /// Returns whether one of the groups has the name: by binary search if they or a copy are in order or they are said
    /// to be, and otherwise one by one.
    #[tactic(auto, using(crate::proofs::Members::any_now))]
    pub(crate) fn contains(&self, name: &[u8]) -> bool
        ensures { result ≡ list_any (bytes_eq name.now) (groups_among self.now) }
    {
        match self.order {
            Order::Unknown => is_met(self.names, name),
            Order::Known => is_found(self.names, name),
            Order::Copied(copy) => is_found(copy, name),
            Order::Said => is_found_by_halves(self.names, name),
        }
    }
}

/// Returns a copy of the names in the order of their bytes. Fails if memory runs out.
pub(crate) fn sorted_names<'a>(
    alloc: Global,
    names: &[&'a [u8]],
) -> Result<Vec<&'a [u8]>, AllocError>
    ensures { IfOk result (λ sorted. IsSortedCopy names.now sorted.items) }
{
    let mut sorted = names.to_vec(alloc)?;
    sorted.sort_unstable();
    Ok(sorted)
}

// Returns whether no name comes after the next name.
fn are_in_order(names: &[&[u8]]) -> bool
    ensures { result ≡ true → AreInOrder names.now }
{
    names.is_sorted()
}

// Searches for the name among these names, which must be in order, by binary search.
fn is_found(names: &[&[u8]], name: &[u8]) -> bool
    requires { AreInOrder names.now }
    ensures { result ≡ list_any (λ g. bytes_eq name.now g.now) names.now }
{
    names.binary_search(&name).is_ok()
}

// Searches for the name among these names by binary search. In names that are in no order it may miss the name, so each
// step of the search is a part of the contract: it compares the name with the one in the middle.
fn is_found_by_halves(names: &[&[u8]], name: &[u8]) -> bool
    ensures { result ≡ list_any (bytes_eq name.now) (found_groups (map (λ g. g.now) names.now)) }
{
    let mut rest = names;
    while !rest.is_empty() {
        let half = rest.len() / 2;
        let behind = half + 1;
        match name.cmp(rest[half]) {
            Ordering::Less => rest = &rest[..half],
            Ordering::Equal => return true,
            Ordering::Greater => rest = &rest[behind..],
        }
    }
    false
}

// Searches for the name among these names, which may be in any order, one by one.
fn is_met(names: &[&[u8]], name: &[u8]) -> bool
    ensures { result ≡ list_any (λ g. bytes_eq name.now g.now) names.now }
{
    names.iter().any(|other| name == *other)
}
