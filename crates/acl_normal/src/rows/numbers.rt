//! The rows of the principals of a list. Here a row is the number of a principal in the order of the principals, and
//! not a line of the table of a right.
ghost use Rattle.std.specs.Prelude.{◌&&◌, ◌≡◌, ◌==◌};
ghost use Rattle.acl_normal.specs.Common.{aces_in, AreRowNumbers, false, IfNone, IfOk, IfSome, is_principal_of, IsRowOf, map, nat_cmp, principal, principal_here};
ghost use Rattle.std.specs.Cmp.Lexicographic.{slice_cmp};
ghost use Rattle.std.specs.Ordering.{ordering_then};
ghost use Rattle.std.specs.Str.{bytes_eq};
ghost use Rattle.acl_normal.specs.internal.rows.RowNumbers.{AreHeaded, AreSorted, DoNotFall, tail_here, who_here};
ghost use Rattle.acl_normal.specs.internal.rows.Rows.{IsByPrincipal};

use super::heads::{HeadedPrincipal, common_start, head, is_whole};
use crate::ace_principal::whom;
use acl_nfs4::AceRef;
use acl_perm::Principal;
use std::alloc::{AllocError, Global};
use std::cmp::Ordering;

/// For each place the row of the principal that its ACE names, and the places in the order of their principals.
#[derive(Drop)]
pub(crate) struct RowNumbers {
    pub(crate) rows: Vec<usize>,
    pub(crate) order: Vec<usize>,
}

/// A place, and the head of whom its ACE names.
#[derive(Clone, Copy)]
struct HeadedPlace {
    head: u64,
    place: usize,
}

/// Returns the rows. This takes one pass if no principal is below the one before it, and otherwise one sort.
pub(crate) fn row_numbers(alloc: Global, aces: &[AceRef<'_>]) -> Result<RowNumbers, AllocError>
    ensures rows { IfOk result (λ n. AreRowNumbers (aces_in aces.now) n.rows.items) }
    ensures order { IfOk result (λ n. IsByPrincipal (aces_in aces.now) n.order.items) }
{
    match rising_rows(alloc, aces)? {
        Some(rows) => {
            let order = (0..aces.len()).collect(alloc)?;
            Ok(RowNumbers { rows, order })
        }
        None => sorted_rows(alloc, aces),
    }
}

// By place, the row of the principal, if no principal is below the one before it.
fn rising_rows(alloc: Global, aces: &[AceRef<'_>]) -> Result<Option<Vec<usize>>, AllocError>
    ensures order { IfOk result (λ found. IfSome found (λ _. DoNotFall (aces_in aces.now))) }
    ensures rows { IfOk result (λ found.
        IfSome found (λ rows. AreRowNumbers (aces_in aces.now) rows.items)) }
{
    let mut rows = Vec::with_capacity(alloc, aces.len())?;
    let mut row = 0;
    let mut last = HeadedPrincipal::new(Principal::Owner);
    for (place, ace) in aces.iter().enumerate() {
        let next = HeadedPrincipal::new(whom(ace));
        match next.compared(&last) {
            Ordering::Less => return Ok(None),
            Ordering::Equal => {}
            Ordering::Greater => row = place,
        }
        rows.push(row)?;
        last = next;
    }
    Ok(Some(rows))
}

// The rows of a list whose principals are in no order.
fn sorted_rows(alloc: Global, aces: &[AceRef<'_>]) -> Result<RowNumbers, AllocError>
    ensures rows { IfOk result (λ n. AreRowNumbers (aces_in aces.now) n.rows.items) }
    ensures order { IfOk result (λ n. IsByPrincipal (aces_in aces.now) n.order.items) }
{
    let mut sorted = headed_places(alloc, aces)?;
    sorted.sort_unstable_by(|at, other| headed_compared(aces, at, other));
    let rows = rows_of(alloc, aces, &sorted)?;
    let order = places_of(alloc, &sorted)?;
    Ok(RowNumbers { rows, order })
}

// Each place, with the head of the principal that its ACE names.
fn headed_places(alloc: Global, aces: &[AceRef<'_>]) -> Result<Vec<HeadedPlace>, AllocError>
    ensures { IfOk result (λ v. AreHeaded (aces_in aces.now) v.items) }
{
    let common = common_start(aces).len();
    let mut places = Vec::with_capacity(alloc, aces.len())?;
    for (place, ace) in aces.iter().enumerate() {
        places.push(HeadedPlace {
            head: head(whom(ace), common),
            place,
        })?;
    }
    Ok(places)
}

// Compares whom the ACEs at two places name: by the heads, and by the whos if the heads are the same and do not have
// the whole names.
fn headed_compared(aces: &[AceRef<'_>], at: &HeadedPlace, other: &HeadedPlace) -> Ordering
    ensures { result ≡ ordering_then (nat_cmp at.now.head other.now.head)
        (slice_cmp nat_cmp (tail_here (aces_in aces.now) at.now)
        (tail_here (aces_in aces.now) other.now)) }
{
    if at.head != other.head {
        return at.head.cmp(&other.head);
    }
    if is_whole(at.head) {
        return Ordering::Equal;
    }
    who_at(aces, at.place).cmp(who_at(aces, other.place))
}

// By place, the row of the principal: the first position that has the principal in the order.
fn rows_of(
    alloc: Global,
    aces: &[AceRef<'_>],
    sorted: &[HeadedPlace],
) -> Result<Vec<usize>, AllocError>
    requires { AreSorted (aces_in aces.now) sorted.now }
    ensures { IfOk result (λ rows. AreRowNumbers (aces_in aces.now) rows.items) }
{
    let mut rows = vec![in alloc; 0; aces.len()]?;
    let mut start = 0;
    for (i, at) in sorted.iter().enumerate() {
        if !is_same(aces, *at, sorted[start]) {
            start = i;
        }
        rows[at.place] = start;
    }
    Ok(rows)
}

// Returns whether the ACEs at two places name one principal.
fn is_same(aces: &[AceRef<'_>], at: HeadedPlace, other: HeadedPlace) -> bool
    ensures { result ≡ ((at.head == other.head)
        && bytes_eq (tail_here (aces_in aces.now) at) (tail_here (aces_in aces.now) other)) }
{
    at.head == other.head
        && (is_whole(at.head) || who_at(aces, at.place) == who_at(aces, other.place))
}

// The who of the ACE at a place, or no bytes after the last place, because a comparison may be given any place.
fn who_at<'a>(aces: &[AceRef<'a>], place: usize) -> &'a [u8]
    ensures { result.now ≡ who_here (aces_in aces.now) place }
{
    match aces.get(place) {
        Some(ace) => ace.who,
        None => &[],
    }
}

fn places_of(alloc: Global, sorted: &[HeadedPlace]) -> Result<Vec<usize>, AllocError>
    ensures { IfOk result (λ v. v.items ≡ map (λ n. n.place) sorted.now) }
{
    sorted.iter().map(|at| at.place).collect(alloc)
}

/// Returns the row of a principal, if an ACE names it. It takes a binary search.
pub(crate) fn find_row(
    aces: &[AceRef<'_>],
    rows: &[usize],
    order: &[usize],
    p: Principal<'_>,
) -> Option<usize>
    requires rows { AreRowNumbers (aces_in aces.now) rows.now }
    requires order { IsByPrincipal (aces_in aces.now) order.now }
    ensures found { IfSome result (λ row. IsRowOf row (principal p.entry) (aces_in aces.now)) }
    ensures missing { IfNone result
        (is_principal_of (principal p.entry) (aces_in aces.now) ≡ false) }
{
    match order.binary_search_by(|place| named_at(aces, *place).cmp(&p)) {
        Ok(found) => Some(rows[order[found]]),
        Err(_) => None,
    }
}

// Whom the ACE at a place names, or everyone after the last place, because a search may be given any place.
fn named_at<'a>(aces: &[AceRef<'a>], place: usize) -> Principal<'a>
    ensures { principal result ≡ principal_here (aces_in aces.now) place }
{
    match aces.get(place) {
        Some(ace) => whom(ace),
        None => Principal::Everyone,
    }
}
