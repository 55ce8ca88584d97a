//! The search for principals that two lists name in opposite orders. Tables save a test of each pair of principals.
ghost use Rattle.std.specs.Prelude.{◌&&◌, ◌+◌, ◌<◌, ◌≡◌, ◌≤◌};
ghost use Rattle.acl_normal.specs.Common.{AllByRecursion, IfOk, is_users, length, not, true, vec_len};
ghost use Rattle.acl_normal.specs.internal.comparison.FirstPlaces.{IsFirstBelow, SameAlone, earlier_allows, inverts, inverts_any};
ghost use Rattle.acl_normal.specs.internal.comparison.PlaceTables.{IsDeniedTable, IsPlacingWithin, IsFirstOf, IsPlaceTable, Raises, has_kind, is_inverting, is_selected, other_place, place_of, wants};
ghost use Rattle.acl_normal.specs.internal.Limits.{slice_limit};

use super::direction::Direction;
use super::placing::{First, Placing};
use crate::principal_class::Class;
use acl_perm::Kind;
use std::alloc::{AllocError, Global};

/// Returns the number of the first principal, below a limit, that comes before another in one list and not in the
/// other, so that the lists differ in the direction for both together; or the limit. There is one search for each
/// selection, because the tables of a selection have only principals of the other kind.
pub(crate) fn first_inverting(
    alloc: Global,
    direction: Direction,
    placings: &[Placing],
    size: usize,
    limit: usize,
) -> Result<usize, AllocError>
    requires limit { limit ≤ length placings.now }
    requires places { AllByRecursion (IsPlacingWithin size) placings.now }
    requires size { size < slice_limit }
    requires alone { AllByRecursion (SameAlone direction) placings.now }
    ensures { IfOk result (IsFirstBelow (λ r. inverts_any direction r placings.now) placings.now
        limit) }
{
    let mut selection = Selection {
        direction,
        kind: Kind::Allow,
        class: Class::Users,
    };
    let allowed_users = first_of(alloc, placings, size, limit, selection)?;
    selection.class = Class::Others;
    let allowed = first_of(alloc, placings, size, allowed_users, selection)?;
    selection.kind = Kind::Deny;
    selection.class = Class::Users;
    let users = first_of(alloc, placings, size, allowed, selection)?;
    selection.class = Class::Others;
    first_of(alloc, placings, size, users, selection)
}

// The number of the first principal of a selection, below a limit, that inverts another principal, or the limit.
fn first_of(
    alloc: Global,
    placings: &[Placing],
    size: usize,
    limit: usize,
    selection: Selection,
) -> Result<usize, AllocError>
    requires limit { limit ≤ length placings.now }
    requires places { AllByRecursion (IsPlacingWithin size) placings.now }
    requires size { size < slice_limit }
    requires alone { AllByRecursion (SameAlone selection.direction) placings.now }
    ensures { IfOk result (λ v. IsFirstOf selection placings.now limit v) }
{
    if !placings
        .iter()
        .any(|placing| is_selected(*placing, selection))
    {
        return Ok(limit);
    }
    let forward = table(alloc, placings, size, selection, Side::Here)?;
    let back = table(alloc, placings, size, selection, Side::There)?;
    let (near, _) = placings.split_at(limit);
    for (k, placing) in near.iter().enumerate() {
        if is_inverting(*placing, selection, &forward, &back) {
            return Ok(k);
        }
    }
    Ok(limit)
}

/// A selection of principals: those of a class for whom the first ACE of both lists is of a kind. The principals that
/// both lists treat differently are in no selection: they make no difference with another one in the direction.
#[derive(Clone, Copy)]
pub(crate) struct Selection {
    pub direction: Direction,
    pub kind: Kind,
    pub class: Class,
}

impl Selection {
    // Returns whether the opposing principals that come before one of the selection in the list of the side, and not in
    // the other list, make a difference in the direction.
    fn wants(self, side: Side) -> bool
        ensures { result ≡ wants self side }
    {
        match (self.direction, self.kind, side) {
            (Direction::Either, _, _) => true,
            (Direction::Over, Kind::Allow, Side::There) => true,
            (Direction::Over, Kind::Deny, Side::Here) => true,
            _ => false,
        }
    }
}

// By place in one list, one more than the greatest place in the other list of the opposing principals before the place;
// or zeros if the selection does not want the side. First, only the principals just before each place count.
#[tactic(auto)]
fn table(
    alloc: Global,
    placings: &[Placing],
    size: usize,
    selection: Selection,
    side: Side,
) -> Result<Vec<usize>, AllocError>
    requires places { AllByRecursion (IsPlacingWithin size) placings.now }
    requires size { size < slice_limit }
    ensures { IfOk result (λ v. IsPlaceTable selection side size placings.now v.items) }
{
    let mut table = vec![in alloc; 0usize; size + 2]?;
    if !selection.wants(side) {
        return Ok(table);
    }
    for placing in placings {
        raise(&mut table, *placing, selection, side);
    }
    for k in 1..size + 2 {
        let most = table[k].max(table[k - 1]);
        table[k] = most;
    }
    Ok(table)
}

/// Returns, by place in the second list, one more than the greatest place in the first list of those principals that
/// the second list denies the right before the place, and that may overlap with other principals of a class.
pub fn denied_before(
    alloc: Global,
    placings: &[Placing],
    size: usize,
    class: Class,
) -> Result<Vec<usize>, AllocError>
    requires places { AllByRecursion (IsPlacingWithin size) placings.now }
    requires size { size < slice_limit }
    ensures { IfOk result (λ v. IsDeniedTable class size placings.now v.items) }
{
    let selection = Selection {
        direction: Direction::Over,
        kind: Kind::Allow,
        class,
    };
    table(alloc, placings, size, selection, Side::There)
}

/// The list by whose places a table is indexed: the first or the second.
#[derive(Clone, Copy)]
pub(crate) enum Side {
    Here,
    There,
}

// Notes an opposing principal: raises the number after its place in one list to one more than its place in the other.
#[tactic(auto, using(crate::proofs::comparison::PlaceTableLemmas::raising))]
fn raise(table: &mut Vec<usize>, placing: Placing, selection: Selection, side: Side)
    requires within { place_of side placing + 1 < vec_len table.old }
    requires small { other_place side placing < slice_limit }
    ensures { Raises selection side placing table.old.items table.new.items }
{
    // It counts if it has the other kind than the selection and may overlap with the principals of the selection.
    if may_overlap(selection.class, placing.class)
        && has_kind(!selection.kind.is_allow(), placing)
    {
        let (own, other) = match side {
            Side::Here => (placing.here.place, placing.there.place),
            Side::There => (placing.there.place, placing.here.place),
        };
        let most = table[own + 1].max(other + 1);
        table[own + 1] = most;
    }
}

// Returns whether both lists allow (deny) the right to a principal for which they do not differ in the direction: then
// an ALLOW in the first list is one in both, and a DENY in the second.
fn has_kind(allowed: bool, placing: Placing) -> bool
    ensures { result ≡ has_kind allowed placing }
{
    if allowed {
        placing.here.allows()
    } else {
        !placing.there.allows()
    }
}

// Returns whether a principal is of a selection and inverts another principal by the tables of that selection.
fn is_inverting(placing: Placing, selection: Selection, forward: &[usize], back: &[usize]) -> bool
    requires here { placing.here.place < length forward.now }
    requires there { placing.there.place < length back.now }
    ensures { result ≡ is_inverting selection placing forward.now back.now }
{
    is_selected(placing, selection)
        && (placing.there.place < forward[placing.here.place]
            || placing.here.place < back[placing.there.place])
}

fn is_selected(placing: Placing, selection: Selection) -> bool
    ensures { result ≡ is_selected selection placing }
{
    has_kind(selection.kind.is_allow(), placing)
        && placing.class.is_users() == selection.class.is_users()
}

/// Returns the number of the first of the others, below a limit, that the principal inverts, or the limit.
#[tactic(auto, using(crate::proofs::comparison::FirstInverting::first_below))]
pub(crate) fn first_inverted(
    direction: Direction,
    placing: Placing,
    others: &[Placing],
    limit: usize,
) -> usize
    requires { limit ≤ length others.now }
    ensures { IsFirstBelow (inverts direction placing) others.now limit result }
{
    let (near, _) = others.split_at(limit);
    for (k, other) in near.iter().enumerate() {
        if is_inverted(direction, placing, *other) {
            return k;
        }
    }
    limit
}

// Returns whether two principals may overlap, and the lists differ in the direction for both together.
fn is_inverted(direction: Direction, placing: Placing, other: Placing) -> bool
    ensures { result ≡ inverts direction placing other }
{
    may_overlap(placing.class, other.class)
        && direction.differ(
            earlier_allows(placing.here, other.here),
            earlier_allows(placing.there, other.there),
        )
}

// Returns whether the first of two ACEs is an ALLOW.
fn earlier_allows(first: First, other: First) -> bool
    ensures { result ≡ earlier_allows first other }
{
    if other.place < first.place {
        other.allows()
    } else {
        first.allows()
    }
}

// Returns whether different principals of two classes may overlap: all but two users may.
fn may_overlap(class: Class, other: Class) -> bool
    ensures { result ≡ not (is_users class && is_users other) }
{
    !(class.is_users() && other.is_users())
}
