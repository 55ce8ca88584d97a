//! The principals that two lists mention, in order and each once. A principal's number is its place among them.
ghost use Rattle.std.specs.Prelude.{◌++◌, ◌<◌, ◌≡◌};
ghost use Rattle.acl_normal.specs.Common.{AreMentioned, AreRowNumbers, AreWhoms, IfOk, OnOk, ace, aces_in, length, option_map, principal, principals, slice_index_or, vec_len, ℕ};
ghost use Rattle.acl_normal.specs.SmallSituations.{longest};
ghost use Rattle.acl_normal.specs.internal.comparison.MentionedRows.{AreByRow, AreMentionedNumbers, AreMentionedRows, AreMentionsOf, mentioned_by, whom_of};
ghost use Rattle.acl_normal.specs.internal.comparison.SamePlaces.{with_copies};
ghost use Rattle.acl_normal.specs.internal.Limits.{slice_limit};

use super::placing::Whom;
use super::same_places::same_places;
use crate::rows::numbers::row_numbers;
use acl_nfs4::AceRef;
use acl_perm::Principal;
use std::alloc::{AllocError, Global};

/// The mentioned principals in order, and by row the number of the principal of the row. A row without a mentioned
/// principal has the number of the next one.
#[derive(Drop)]
struct MentionedNumbers<'a> {
    whole: Vec<Principal<'a>>,
    by_row: Vec<usize>,
}

/// Returns whom two lists mention. If the second list names the same principals as the first near the same places, only
/// the first list is sorted.
pub fn mentioned<'a>(
    alloc: Global,
    list: &[AceRef<'a>],
    other: &[AceRef<'a>],
) -> Result<Mentions<'a>, AllocError>
    ensures { IfOk result (AreMentioned (aces_in list.now) (aces_in other.now)) }
{
    if let Some(places) = same_places(alloc, list, other)? {
        let mut mentions = mentions_of(alloc, list)?;
        add_copies(&mut mentions.whoms, &places)?;
        return Ok(mentions);
    }
    let aces = joined(alloc, list, other)?;
    mentions_of(alloc, &aces)
}

// Whom a list mentions. One sort puts its ACEs in the order of whom they name, so that no principal is looked up.
fn mentions_of<'a>(alloc: Global, aces: &[AceRef<'a>]) -> Result<Mentions<'a>, AllocError>
    ensures { IfOk result (AreMentionsOf (aces_in aces.now)) }
{
    let sorted = row_numbers(alloc, aces)?;
    let table = by_row(alloc, aces, &sorted.rows)?;
    let numbers = numbers_of(alloc, &table)?;
    let whoms = whoms(alloc, aces, &sorted.rows, &numbers)?;
    Ok(Mentions {
        principals: numbers.whole,
        whoms,
    })
}

// Adds, for each place, a copy of what is already at the place.
fn add_copies(whoms: &mut Vec<Whom>, places: &[usize]) -> Result<(), AllocError>
    requires { (i : ℕ) → i < length places.now → slice_index_or places.now i 0 < vec_len whoms.old }
    ensures { OnOk result (whoms.new.items ≡ with_copies whoms.old.items places.now) }
{
    for place in places {
        let whom = whoms[*place];
        whoms.push(whom)?;
    }
    Ok(())
}

// The ACEs of both lists, those of the first list first.
fn joined<'a>(
    alloc: Global,
    list: &[AceRef<'a>],
    other: &[AceRef<'a>],
) -> Result<Vec<AceRef<'a>>, AllocError>
    ensures { IfOk result (λ aces. aces.items ≡ list.now ++ other.now) }
{
    let mut aces = Vec::with_capacity(alloc, list.len() + other.len())?;
    aces.extend_from_slice(list)?;
    aces.extend_from_slice(other)?;
    Ok(aces)
}

// By row, the principal that the ACEs of the row mention, if they mention it.
#[tactic(auto)]
fn by_row<'a>(
    alloc: Global,
    aces: &[AceRef<'a>],
    rows: &[usize],
) -> Result<Vec<Option<Principal<'a>>>, AllocError>
    requires { AreRowNumbers (aces_in aces.now) rows.now }
    ensures { IfOk result (λ table. AreByRow (aces_in aces.now) (length aces.now) table.items) }
{
    let mut table = vec![in alloc; None; aces.len()]?;
    for (place, ace) in aces.iter().enumerate() {
        if let Some(p) = mentioned_by(ace) {
            table[rows[place]] = Some(p);
        }
    }
    Ok(table)
}

// Whom an ACE mentions: its principal, if the ACE takes part and the principal is not everyone.
#[tactic(auto, using(crate::proofs::unique::Names::everyone_test))]
fn mentioned_by<'a>(item: &AceRef<'a>) -> Option<Principal<'a>>
    ensures { option_map principal result ≡ mentioned_by (ace item.now) }
{
    let p = item.principal();
    if item.takes_part() && !p.is_everyone() {
        Some(p)
    } else {
        None
    }
}

// Numbers the principals of a table in the order of the rows.
fn numbers_of<'a>(
    alloc: Global,
    table: &[Option<Principal<'a>>],
) -> Result<MentionedNumbers<'a>, AllocError>
    ensures { IfOk result (λ n. AreMentionedNumbers table.now (length table.now)
        (principals n.whole.items) n.by_row.items) }
{
    let mut whole = Vec::with_capacity(alloc, table.len())?;
    let mut by_row = Vec::with_capacity(alloc, table.len())?;
    for found in table {
        by_row.push(whole.len())?;
        if let Some(p) = *found {
            whole.push(p)?;
        }
    }
    Ok(MentionedNumbers { whole, by_row })
}

#[tactic(auto)]
fn whoms(
    alloc: Global,
    aces: &[AceRef<'_>],
    rows: &[usize],
    numbers: &MentionedNumbers<'_>,
) -> Result<Vec<Whom>, AllocError>
    requires { AreMentionedRows (aces_in aces.now) rows.now
        (principals numbers.now.whole.items) numbers.now.by_row.items }
    ensures { IfOk result (λ whoms. AreWhoms (principals numbers.now.whole.items)
        (aces_in aces.now) whoms.items) }
{
    let mut whoms = Vec::with_capacity(alloc, aces.len())?;
    for (place, ace) in aces.iter().enumerate() {
        let number = numbers.by_row[rows[place]];
        whoms.push(whom(ace, number))?;
    }
    Ok(whoms)
}

/// The principals that two lists mention, in order, and which of them each ACE names: first the ACEs of the first list,
/// and then those of the second.
#[derive(Drop)]
pub struct Mentions<'a> {
    pub principals: Vec<Principal<'a>>,
    pub whoms: Vec<Whom>,
}

// Whom an ACE names, if this is the number of its principal.
#[tactic(auto, using(crate::proofs::unique::Names::everyone_test))]
fn whom(item: &AceRef<'_>, number: usize) -> Whom
    ensures { result ≡ whom_of (ace item.now) number }
{
    if !item.takes_part() {
        Whom::Nobody
    } else if item.principal().is_everyone() {
        Whom::Everyone
    } else {
        Whom::One(number)
    }
}

/// Returns the length of the longest name among the principals, or 0 if none has a name.
#[tactic(auto, using(crate::proofs::comparison::MentionedNames::longest_steps))]
pub(crate) fn longest_of(whole: &[Principal<'_>]) -> usize
    ensures value { result ≡ longest (principals whole.now) }
    ensures small { result < slice_limit }
{
    let mut most = 0;
    for p in whole {
        most = p.name().len().max(most);
    }
    most
}
