//! The ACEs of two lists that have one right. They mostly name few of the principals that the lists mention, so these
//! principals get numbers of their own, and the search for a right does not touch the others.
ghost use Rattle.std.specs.Prelude.{◌<◌, ◌≡◌, ◌≤◌};
ghost use Rattle.acl_normal.specs.Common.{aces_in, AllByRecursion, AreWhoms, IfOk, length, Principal, principal, principals, vec_len};
ghost use Rattle.acl_normal.specs.internal.comparison.FirstPlaces.{AreFirstFrom, ArePlacings, IsWhomWithin};
ghost use Rattle.acl_normal.specs.internal.comparison.Columns.{AddRights, all_renumbered, AreNumbersOf, IsNumberOr, renumbered, with_right};
ghost use Rattle.acl_normal.specs.internal.Limits.{slice_limit};

use super::placing::{First, Placing, Whom, firsts};
use crate::principal_class::Class;
use acl_nfs4::AceRef;
use acl_perm::internal::Bit;
use acl_perm::{Mask, Principal};
use std::alloc::{AllocError, Global};

/// The ACEs of two lists that have a right, and the principals that they name.
#[derive(Drop)]
pub(crate) struct Columns<'a> {
    /// The numbers of these principals among all mentioned principals, rising.
    pub(crate) numbers: Vec<usize>,
    /// These principals, in the same order.
    pub(crate) principals: Vec<Principal<'a>>,
    pub(crate) first: Column<'a>,
    pub(crate) second: Column<'a>,
}

/// The ACEs of a list that have a right, in order, and which of the principals of the columns each of them names.
#[derive(Drop)]
pub struct Column<'a> {
    pub aces: Vec<AceRef<'a>>,
    pub whoms: Vec<Whom>,
}

impl<'a> Columns<'a> {
    /// Returns, for each principal of the columns, the first ACE that concerns it in each of them.
    pub(crate) fn placings(&self, alloc: Global, right: Bit) -> Result<Vec<Placing>, AllocError>
        requires here { AreWhoms (principals self.now.principals.items)
            (aces_in self.now.first.aces.items) self.now.first.whoms.items }
        requires there { AreWhoms (principals self.now.principals.items)
            (aces_in self.now.second.aces.items) self.now.second.whoms.items }
        ensures { IfOk result (λ v. ArePlacings (principals self.now.principals.items)
            (aces_in self.now.first.aces.items) (aces_in self.now.second.aces.items)
            right.bit v.items) }
    {
        placings(alloc, &self.principals, &self.first, &self.second, right)
    }

    /// Returns the number among all mentioned principals of the principal at a place, or `count` if the columns have no
    /// such place.
    pub(crate) fn number(&self, place: usize, count: usize) -> usize
        ensures { IsNumberOr self.now.numbers.items place count result }
    {
        match self.numbers.get(place) {
            Some(number) => *number,
            None => count,
        }
    }
    /// Returns how many ACEs the longer column has.
    pub(crate) fn longer(&self) -> usize
        ensures first { length self.now.first.aces.items ≤ result }
        ensures second { length self.now.second.aces.items ≤ result }
        ensures small { result < slice_limit }
    {
        self.first.aces.len().max(self.second.aces.len())
    }
}

impl<'a> Column<'a> {
    fn firsts(
        &self,
        alloc: Global,
        named: &[Principal<'_>],
        right: Bit,
    ) -> Result<Vec<First>, AllocError>
        requires { AreWhoms (principals named.now) (aces_in self.now.aces.items)
            self.now.whoms.items }
        ensures { IfOk result (λ v. AreFirstFrom (principals named.now)
            (aces_in self.now.aces.items) right.bit 0 v.items) }
    {
        firsts(
            alloc,
            named,
            self.aces.as_slice(),
            self.whoms.as_slice(),
            right,
        )
    }
}

/// Returns, for each of some principals, the first ACE with a right that concerns it in each of two columns.
pub fn placings(
    alloc: Global,
    named: &[Principal<'_>],
    first: &Column<'_>,
    second: &Column<'_>,
    right: Bit,
) -> Result<Vec<Placing>, AllocError>
    requires here { AreWhoms (principals named.now) (aces_in first.now.aces.items)
        first.now.whoms.items }
    requires there { AreWhoms (principals named.now) (aces_in second.now.aces.items)
        second.now.whoms.items }
    ensures { IfOk result (λ v. ArePlacings (principals named.now) (aces_in first.now.aces.items)
        (aces_in second.now.aces.items) right.bit v.items) }
{
    let here = first.firsts(alloc, named, right)?;
    let there = second.firsts(alloc, named, right)?;
    let mut placings = Vec::with_capacity(alloc, named.len())?;
    for (i, p) in named.iter().enumerate() {
        placings.push(Placing {
            here: here[i],
            there: there[i],
            class: Class::of(*p),
        })?;
    }
    Ok(placings)
}

/// The numbers of the principals that have a right, rising; and by number, for each of these, its place among them.
#[derive(Drop)]
pub(crate) struct Numbers {
    pub(crate) numbers: Vec<usize>,
    pub(crate) places: Vec<usize>,
}

/// Returns the numbers of the principals that have a right, given the rights of each.
pub(crate) fn numbers_with(
    alloc: Global,
    rights: &[Mask],
    right: Bit,
) -> Result<Numbers, AllocError>
    ensures { IfOk result (λ n. AreNumbersOf rights.now right.bit (length rights.now)
        n.numbers.items n.places.items) }
{
    let mut numbers = Vec::with_capacity(alloc, rights.len())?;
    let mut places = vec![in alloc; 0usize; rights.len()]?;
    for (number, own) in rights.iter().enumerate() {
        if right.is_in(*own) {
            places[number] = numbers.len();
            numbers.push(number)?;
        }
    }
    Ok(Numbers { numbers, places })
}

/// Returns the ACEs of a list that have a right. `places` has the new numbers of the principals.
pub(crate) fn column_of<'a>(
    alloc: Global,
    list: &[AceRef<'a>],
    whoms: &[Whom],
    places: &[usize],
    right: Bit,
) -> Result<Column<'a>, AllocError>
    requires whoms { length whoms.now ≡ length list.now }
    requires within { AllByRecursion (λ w. IsWhomWithin w (length places.now)) whoms.now }
    ensures aces { IfOk result (λ c.
        aces_in c.aces.items ≡ with_right right.bit (aces_in list.now)) }
    ensures whoms { IfOk result (λ c. c.whoms.items
        ≡ all_renumbered places.now right.bit (aces_in list.now) whoms.now) }
{
    let mut aces = Vec::with_capacity(alloc, list.len())?;
    let mut named = Vec::with_capacity(alloc, list.len())?;
    for (place, item) in list.iter().enumerate() {
        if right.is_in(item.mask) {
            aces.push(*item)?;
            named.push(renumbered(whoms[place], places))?;
        }
    }
    Ok(Column { aces, whoms: named })
}

// Whom an ACE names, by the new numbers.
fn renumbered(whom: Whom, places: &[usize]) -> Whom
    requires { IsWhomWithin whom (length places.now) }
    ensures { result ≡ renumbered places.now whom }
{
    match whom {
        Whom::One(number) => Whom::One(places[number]),
        other => other,
    }
}

/// Adds the rights of each ACE of a list to those of the principal that it names.
pub(crate) fn add_rights(rights: &mut Vec<Mask>, list: &[AceRef<'_>], whoms: &[Whom])
    requires whoms { length whoms.now ≡ length list.now }
    requires within { AllByRecursion (λ w. IsWhomWithin w (vec_len rights.old)) whoms.now }
    ensures { AddRights (length list.now) (aces_in list.now) whoms.now rights.old.items
        rights.new.items }
{
    for (place, item) in list.iter().enumerate() {
        if let Whom::One(number) = whoms[place] {
            let all = rights[number].union(item.mask);
            rights[number] = all;
        }
    }
}
