//! Who loses read, write or execute when a POSIX ACL takes the place of an NFSv4 list.
ghost use Rattle.std.specs.Prelude.{◌≡◌, ◌==◌, List, IfErr, IfOk, IfSome, None, OnOk, false};
ghost use Rattle.std.specs.FinMap as set;
ghost use Rattle.acl_posix.specs.Tag.{tag_of};
ghost use Rattle.acl_nfs4.specs.Ace.{Ace};
ghost use Rattle.acl_ids.specs.Ids.{with_ids};
ghost use Rattle.acl_to_posix.specs.LostGrants.{AreAtMost, IsLossFault, IsLossOf, KeepsSingles};
ghost use Rattle.acl_to_posix.specs.internal.LossBody.{AreKept, AreKeptWith, AreKeptWithOne, AreSmall, IsCountFault, IsFoundOr, allowed_tags, are_together, are_two_users, is_first, is_lost, is_passed, is_second, is_user_but, search_of};
ghost use Rattle.acl_to_posix.specs.internal.ShapeBody.{AreColumns};

use crate::list_names::bounded_names;
use crate::posix_shape::ShapeFault;
use crate::tag_column::{TagColumns, TagKey, columns_of};
use acl_eval::internal::{EXECUTE, READ, WRITE};
use acl_ids::first_unknown;
use acl_nfs4::AclView;
use acl_perm::Perm;
use acl_posix::{Id, Names, PosixAcl, Tag};
use std::alloc::{AllocError, Global};

mod chosen;
mod tags;
mod unused;

use chosen::{is_lost, situation_of};
use tags::{JudgedTag, allowed_tags, judged_tag};
use unused::{Unused, unused_ids};

/// A permission that a list grants and a POSIX ACL does not, with an object and a requester for which this is so.
#[derive(Debug, Drop)]
pub struct LostGrant {
    /// The owner of the object.
    pub owner: Id,
    /// The owning group of the object.
    pub group: Id,
    /// The user who requests.
    pub user: Id,
    /// The groups of that user.
    pub groups: Vec<Id>,
    /// Read, write or execute.
    pub perm: Perm,
}

// The keys of the rights of a permission. Read and execute have one right, and then both columns are the same.
#[derive(Clone, Copy)]
struct Wanted<'a> {
    first: &'a [TagKey],
    second: &'a [TagKey],
    perm: Perm,
}

impl<'a> Wanted<'a> {
    fn new(first: &'a [TagKey], second: &'a [TagKey], perm: Perm) -> Self
        ensures first { result.first.now ≡ first.entry.now }
        ensures second { result.second.now ≡ second.entry.now }
        ensures perm { result.perm.bits ≡ perm.bits }
    {
        Wanted {
            first,
            second,
            perm,
        }
    }
}

/// Returns a permission that a list grants in some situation and a POSIX ACL does not, if there is one: read is
/// READ_DATA, write is WRITE_DATA and APPEND_DATA, and execute is EXECUTE. So if the ACL grants no more than the list,
/// both agree in every situation if and only if the answer is `None` (`laws::exact_if_nothing_is_lost`). The requester
/// is in at most three groups. An id that neither names stands for a user or a group that nothing is about. The id of a
/// name is that of the table, and otherwise the number whose decimal digits the name is.
///
/// Fails with `NoId` for the first ACE whose user or group has no id, also if the ACE takes no part, then with
/// `TooManyNames` if the users and groups that the list names and the entries of the ACL are together more than `most`,
/// and with `Memory` if memory runs out. The time is at most proportional to the cube of this number, besides the
/// look-ups of names and the time to read the list. If memory runs out while the names are collected, the list is read
/// once more for each name up to the bound.
///
/// ```rust
/// let list = parse_text(alloc, b"ALLOW GROUP WRITE_DATA 5\nALLOW GROUP APPEND_DATA 7")?;
/// let acl = PosixAcl::of_mode(alloc, Mode { bits: 0 })?;
/// let lost = lost_grant(alloc, &list.view(), &acl, &Names::new(alloc), 256)?;
/// assert!(rt; lost.is_some_and(|lost| lost.perm == Perm::WRITE && lost.groups.len() == 2));
/// ```
#[tactic(auto, using(crate::proofs::losses::LossOfLists::few_entries))]
pub fn lost_grant(
    alloc: Global,
    list: &AclView<'_>,
    acl: &PosixAcl,
    names: &Names,
    most: u16,
) -> Result<Option<LostGrant>, ShapeFault>
    // The list grants the permission, and the ACL does not.
    ensures found { IfOk result (λ lost.
        IfSome lost (IsLossOf (with_ids names.now list.now) acl.now)) }
    // Without an answer, the ACL grants each of the three permissions wherever the list does.
    ensures none { IfOk result (λ lost.
        lost ≡ None → KeepsSingles (with_ids names.now list.now) acl.now) }
    // An answer is given only if the names and the entries are at most `most`.
    ensures few { IfOk result (λ _. AreAtMost most names.now list.now acl.now) }
    ensures fault { IfErr result (IsLossFault names.now list.now acl.now most) }
{
    if let Some(place) = first_unknown(list, names) {
        return Err(ShapeFault::NoId(place));
    }
    check_bound(alloc, list, acl, names, most)?;
    let columns = columns_of(alloc, list, names)?;
    Ok(first_lost(alloc, &columns, acl)?)
}

// Fails with `TooManyNames` if the users and groups that the list names and the entries of the ACL are together more
// than this many, and otherwise with `Memory` if memory runs out.
fn check_bound(
    alloc: Global,
    list: &AclView<'_>,
    acl: &PosixAcl,
    names: &Names,
    most: u16,
) -> Result<(), ShapeFault>
    ensures few { OnOk result (AreAtMost most names.now list.now acl.now) }
    ensures fault { IfErr result (IsCountFault names.now list.now acl.now most) }
{
    let Some(left) = usize::from(most).checked_sub(acl.entries().len()) else {
        return Err(ShapeFault::TooManyNames);
    };
    bounded_names(alloc, list, names, left)?;
    Ok(())
}

/// Returns a loss, if there is one, for the list of which these are the columns. Fails only if memory runs out.
pub(crate) fn first_lost(
    alloc: Global,
    columns: &TagColumns,
    acl: &PosixAcl,
) -> Result<Option<LostGrant>, AllocError>
    requires few { AreSmall columns.now acl.now }
    ensures found { (list : List Ace) → AreColumns list columns.now
        → IfOk result (λ lost. IfSome lost (IsLossOf list acl.now)) }
    ensures none { (list : List Ace) → AreColumns list columns.now
        → IfOk result (λ lost. lost ≡ None → KeepsSingles list acl.now) }
{
    let unused = unused_ids(alloc, columns, acl)?;
    // Called for its clauses: the entries of an ACL are valid.
    acl.entries();
    let read = Wanted::new(&columns.read, &columns.read, READ);
    if let Some(lost) = lost_of(alloc, &read, acl, unused)? {
        return Ok(Some(lost));
    }
    let write = Wanted::new(&columns.write, &columns.append, WRITE);
    if let Some(lost) = lost_of(alloc, &write, acl, unused)? {
        return Ok(Some(lost));
    }
    let execute = Wanted::new(&columns.execute, &columns.execute, EXECUTE);
    lost_of(alloc, &execute, acl, unused)
}

// Returns a loss of the permission, if there is one. If a list grants a permission in some situation in which an ACL
// denies it, then so it is if only three principals match: those of the keys that decide the two rights, and one of
// the entry that denies. With fewer principals, no other key is the first, and no other entry is looked at.
fn lost_of(
    alloc: Global,
    wanted: &Wanted<'_>,
    acl: &PosixAcl,
    unused: Unused,
) -> Result<Option<LostGrant>, AllocError>
    ensures { IfOk result (IsFoundOr (search_of wanted.now acl.now unused)
        (AreKept (search_of wanted.now acl.now unused) (set.entries acl.now))) }
{
    let firsts = allowed_tags(alloc, wanted, acl, wanted.first)?;
    let seconds = allowed_tags(alloc, wanted, acl, wanted.second)?;
    let entries = acl.entries();
    for entry in entries {
        let denied = judged_tag(wanted, acl, entry.tag);
        if denied.lacks {
            if let Some(lost) = lost_with(alloc, wanted, acl, unused, &denied, &firsts, &seconds)? {
                return Ok(Some(lost));
            }
        }
    }
    Ok(None)
}

// Returns a loss in a situation in which the principal of this entry matches, with one of each column.
fn lost_with(
    alloc: Global,
    wanted: &Wanted<'_>,
    acl: &PosixAcl,
    unused: Unused,
    denied: &JudgedTag,
    firsts: &[JudgedTag],
    seconds: &[JudgedTag],
) -> Result<Option<LostGrant>, AllocError>
    ensures { IfOk result (IsFoundOr (search_of wanted.now acl.now unused)
        (AreKeptWith (search_of wanted.now acl.now unused) denied.now firsts.now seconds.now)) }
{
    for one in firsts {
        if is_first(one, denied) {
            if let Some(lost) = lost_with_one(alloc, wanted, acl, unused, denied, one, seconds)? {
                return Ok(Some(lost));
            }
        }
    }
    Ok(None)
}

// Returns a loss in a situation in which these two principals match, with one of the second column.
fn lost_with_one(
    alloc: Global,
    wanted: &Wanted<'_>,
    acl: &PosixAcl,
    unused: Unused,
    denied: &JudgedTag,
    one: &JudgedTag,
    seconds: &[JudgedTag],
) -> Result<Option<LostGrant>, AllocError>
    ensures { IfOk result (IsFoundOr (search_of wanted.now acl.now unused)
        (AreKeptWithOne (search_of wanted.now acl.now unused) denied.now one.now seconds.now)) }
{
    for two in seconds {
        if is_second(two, denied) && are_together(one, two) {
            let chosen = situation_of(alloc, unused, wanted.perm, one.tag, two.tag, denied.tag)?;
            if is_lost(wanted, acl, &chosen) {
                return Ok(Some(chosen));
            }
        }
    }
    Ok(None)
}

// Returns whether the key of the first tag decides the first column, and the entry of the second tag denies, where both
// match.
fn is_first(one: &JudgedTag, denied: &JudgedTag) -> bool
    ensures { result ≡ is_first one.now denied.now }
{
    one.first <= denied.first && is_passed(one, denied) && !are_two_users(one.tag, denied.tag)
}

fn is_second(two: &JudgedTag, denied: &JudgedTag) -> bool
    ensures { result ≡ is_second two.now denied.now }
{
    two.second <= denied.second && is_passed(two, denied) && !are_two_users(two.tag, denied.tag)
}

// Returns whether each of the two tags decides its column where both match.
fn are_together(one: &JudgedTag, two: &JudgedTag) -> bool
    ensures { result ≡ are_together one.now two.now }
{
    one.first <= two.first && two.second <= one.second && !are_two_users(one.tag, two.tag)
}

// Returns whether the check denies by the entry of the second tag, and does not grant by that of the first.
fn is_passed(one: &JudgedTag, denied: &JudgedTag) -> bool
    ensures { result ≡ is_passed one.now denied.now }
{
    one.level < denied.level || (one.level == denied.level && one.lacks)
}

// Returns whether both are users, and not the same one.
fn are_two_users(one: Tag, two: Tag) -> bool
    ensures { result ≡ are_two_users (tag_of one) (tag_of two) }
{
    match one {
        Tag::User(id) => is_user_but(id, two),
        Tag::UserObj | Tag::GroupObj | Tag::Group(_) | Tag::Mask | Tag::Other => false,
    }
}

fn is_user_but(id: Id, tag: Tag) -> bool
    ensures { result ≡ is_user_but id.value (tag_of tag) }
{
    match tag {
        Tag::User(one) => id.value != one.value,
        Tag::UserObj | Tag::GroupObj | Tag::Group(_) | Tag::Mask | Tag::Other => false,
    }
}
