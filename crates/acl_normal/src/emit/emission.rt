//! The emission of a normal form: each ACE has the least key that is free on some right, with all rights on which it is
//! free.
ghost use Rattle.std.specs.Prelude.{◌*◌, ◌+◌, ◌<◌, ◌≡◌};
ghost use Rattle.acl_normal.specs.Common.{Ace, AreQueues, IfOk, IsIrreducibleList, IsNormal, List, OnOk, SameGrants, AreInRows, all_rights, bit_count, count_left, emitted_aces, has_bit, is_user, is_users, left, length, nothing_left, plain_key, principal, replicate, true, ℕ};
ghost use Rattle.acl_perm.specs.Order.{kind_rank};
ghost use Rattle.acl_normal.specs.internal.emit.Queues.{BeginsWaiting, IsQueueAt};
ghost use Rattle.acl_normal.specs.internal.emit.Ready.{ChangesMarks, Enters, FitsKeys, Frees, HoldsFree, marks};
ghost use Rattle.acl_normal.specs.internal.Limits.{key_limit, list_limit};

use crate::emit::queues::Queues;
use crate::emit::ready::Ready;
use crate::mask_rights::next_right;
use crate::principal_class::Class;
use crate::rows::remaining::Remaining;
use acl_perm::internal::Bit;
use acl_perm::{Key, Kind, Mask};
use std::alloc::{AllocError, Global};

/// An ACE of a normal form, with the row of its principal.
#[derive(Clone, Copy)]
pub(crate) struct Emitted<'a> {
    pub(crate) key: Key<'a>,
    pub(crate) mask: Mask,
    pub(crate) row: usize,
}

/// Returns the normal form of an irreducible list: the one normal list that grants the same. It emits what is left of
/// the list: at each step the least key that is free on some right, with all rights on which it is free.
pub(crate) fn normalize_left<'a>(
    alloc: Global,
    rows: &mut Remaining<'a>,
) -> Result<Vec<Emitted<'a>>, AllocError>
    requires { IsIrreducibleList (left rows.old) }
    ensures normal { IfOk result (λ v. IsNormal (emitted_aces v.items)) }
    ensures grants { IfOk result (λ v. SameGrants all_rights rows.old (emitted_aces v.items)) }
    ensures only { IfOk result (λ v. (ns : List Ace) → IsNormal ns
        → SameGrants all_rights rows.old ns
        → ns ≡ emitted_aces v.items) }
    ensures rows { IfOk result (λ v. AreInRows rows.old v.items) }
    ensures weight { IfOk result (λ v. count_left bit_count (emitted_aces v.items)
        ≡ count_left bit_count rows.old) }
{
    let mut queues = Queues::of(alloc, rows)?;
    let mut ready = Ready::new(alloc, rows.len())?;
    fill(rows, &queues, &mut ready)?;
    let mut out = Vec::with_capacity(alloc, rows.len())?;
    // The label names the loop for its proof.
    'emitted: while let Some(next) = ready.pop() {
        let key = rows.key_of(next.number);
        // Only rights are ever free, so the bits are a mask.
        let mask = Mask { bits: next.bits };
        let row = next.number / 2;
        out.push(Emitted { key, mask, row })?;
        rows.take_out(row, key.principal, mask);
        move_on(rows, key, mask, &mut queues);
        free_after(rows, &queues, key, mask, &mut ready)?;
    }
    Ok(out)
}

/// Marks all rights that are free before anything was emitted.
fn fill(rows: &Remaining<'_>, queues: &Queues, ready: &mut Ready) -> Result<(), AllocError>
    requires queues { AreQueues rows.now queues.now }
    requires none { ready.old ≡ replicate (2 * length rows.now) 0 }
    ensures keys { OnOk result (FitsKeys (nothing_left rows.now) ready.new) }
    ensures marks { OnOk result (HoldsFree (marks (nothing_left rows.now) ready.new) rows.now) }
{
    for bit in 0..Bit::COUNT {
        let right = Bit { bit };
        enter(rows, queues, Kind::Deny, Class::Others, right, ready)?;
        enter(rows, queues, Kind::Deny, Class::Users, right, ready)?;
        enter(rows, queues, Kind::Allow, Class::Others, right, ready)?;
        enter(rows, queues, Kind::Allow, Class::Users, right, ready)?;
    }
    Ok(())
}

/// Moves the queues of the rights of an emitted key to the first place that still waits, or to their ends.
fn move_on(rows: &Remaining<'_>, at: Key<'_>, mask: Mask, queues: &mut Queues)
    requires { AreQueues rows.now queues.old }
    ensures queues { AreQueues rows.now queues.new }
    ensures first { (b : ℕ) → has_bit mask.bits b ≡ true
        → BeginsWaiting at.entry.kind (is_user (principal at.entry.principal)) rows.now
        queues.new b }
{
    let class = Class::of(at.principal);
    let mut from = 0;
    while let Some(right) = next_right(mask, from) {
        queues.move_on(rows, at.kind, class, right);
        from = right.bit + 1;
    }
}

/// Marks what became free when rights of a key were emitted.
fn free_after<'a>(
    rows: &Remaining<'a>,
    queues: &Queues,
    at: Key<'a>,
    mask: Mask,
    ready: &mut Ready,
) -> Result<(), AllocError>
    requires queues { AreQueues rows.now queues.now }
    requires keys { FitsKeys (nothing_left rows.now) ready.old }
    ensures { OnOk result (ChangesMarks rows.now (Frees (plain_key at.entry) mask.bits rows.now)
        ready.old ready.new) }
{
    let opposite = at.kind.other();
    let mut from = 0;
    while let Some(right) = next_right(mask, from) {
        enter(rows, queues, opposite, Class::Others, right, ready)?;
        if !at.principal.is_user() {
            enter(rows, queues, opposite, Class::Users, right, ready)?;
        }
        from = right.bit + 1;
    }
    Ok(())
}

/// Marks the right of each ACE of a kind and a class that waits with the right and is free on it.
#[inline(always)]
fn enter(
    rows: &Remaining<'_>,
    queues: &Queues,
    kind: Kind,
    class: Class,
    right: Bit,
    ready: &mut Ready,
) -> Result<(), AllocError>
    requires queues { AreQueues rows.now queues.now }
    requires keys { FitsKeys (nothing_left rows.now) ready.old }
    ensures { OnOk result (ChangesMarks rows.now (Enters kind (is_users class) right.bit rows.now)
        ready.old ready.new) }
{
    // Mostly no ACE waits, and then nothing that may block it has to be looked up.
    let first = queues.head(kind, class, right);
    if first == 0 {
        return Ok(());
    }
    walk(rows, queues, first, kind, class, right, ready)
}

/// Marks what is free in the queue that begins with a link: all places before the first place that a conflicting ACE
/// blocks.
fn walk(
    rows: &Remaining<'_>,
    queues: &Queues,
    first: usize,
    kind: Kind,
    class: Class,
    right: Bit,
    ready: &mut Ready,
) -> Result<(), AllocError>
    requires first { IsQueueAt kind (is_users class) right.bit rows.now
        queues.now.links.items first }
    requires queues { AreQueues rows.now queues.now }
    requires keys { FitsKeys (nothing_left rows.now) ready.old }
    ensures { OnOk result (ChangesMarks rows.now (Enters kind (is_users class) right.bit rows.now)
        ready.old ready.new) }
{
    let last = queues.last_clear(rows, kind, class, right);
    let mut at = first;
    while at != 0 {
        let link = queues.links[at];
        if link.place > last {
            return Ok(());
        }
        if rows.has(link.place, right) {
            ready.add(key_number(rows.row_at(link.place), kind), right)?;
        }
        at = link.next;
    }
    Ok(())
}

/// Returns the number of a key. Keys are numbered by row, and then by kind, so that the numbers are in the order of the
/// keys.
pub(crate) fn key_number(row: usize, kind: Kind) -> usize
    requires { row < list_limit }
    ensures value { result ≡ 2 * row + kind_rank kind }
    ensures small { result < key_limit }
{
    match kind {
        Kind::Deny => 2 * row,
        Kind::Allow => 2 * row + 1,
    }
}
