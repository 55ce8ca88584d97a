//! The POSIX ACL that has entries for given users and groups, and grants as much of an NFSv4 list as such an ACL can.
ghost use Rattle.std.specs.Prelude.{◌≡◌, ◌≤◌, ◌<◌, ◌↔◌, List, IfOk, IsTrue, OnOk};
ghost use Rattle.std.specs.FinMap as set;
ghost use Rattle.acl_posix.specs.Check.{ids, is_member};
ghost use Rattle.acl_posix.specs.Tag.{tag_of};
ghost use Rattle.acl_posix.specs.Texts.{IsAcl};
ghost use Rattle.acl_perm.specs.Bits.{has_bit};
ghost use Rattle.acl_nfs4.specs.Ace.{Ace};
ghost use Rattle.acl_eval.specs.Permissions.{execute, read, write};
ghost use Rattle.acl_to_posix.specs.ToPosix.{IsBest, is_in_shape, size_of};
ghost use Rattle.acl_to_posix.specs.internal.ShapeBody.{AreColumns, HasPassAnswers, HasJust, HasThree, IsEntryPut, answer, is_certain, may_match, keys_of, may_be_user, most_names, empty_shape, users_of, entry_shape_of};
ghost use Rattle.acl_to_posix.specs.declared.posix_shape.ShapeFault.TheVariants.{Memory};

use crate::tag_column::{TagColumns, TagKey, is_same};
use acl_perm::{Kind, Mode, Perm};
use acl_posix::{Id, PosixAcl, Tag, laws};
use std::alloc::{AllocError, Global};
use thiserror::Error;

/// Why a list has no POSIX ACL, or why no loss is sought.
#[derive(Clone, Copy, Debug, PartialEq, Eq, Error)]
pub enum ShapeFault {
    /// The ACE at this place, from 0, names a user or a group that has no id.
    #[error("NoId at ACE {0}")]
    NoId(usize),
    /// There are more users and groups than the given bound.
    #[error("TooManyNames")]
    TooManyNames,
    /// Memory ran out.
    #[error("out of memory")]
    Memory,
}

impl From<AllocError> for ShapeFault {
    ghost use Rattle.std.specs.Prelude.{◌≡◌};
    ghost use Rattle.acl_to_posix.specs.declared.posix_shape.ShapeFault.TheVariants.{Memory};

    ghost from_gives = { λ _ fault. fault ≡ Memory };

    fn from(_: AllocError) -> ShapeFault {
        ShapeFault::Memory
    }
}

/// The users and the groups that have an entry in a POSIX ACL, besides USER_OBJ, GROUP_OBJ and OTHER. Neither their
/// order nor a repeated id counts.
#[derive(Clone, Copy)]
pub(crate) struct PosixShape<'a> {
    /// The users with a USER entry.
    pub users: &'a [Id],
    /// The groups with a GROUP entry.
    pub groups: &'a [Id],
}

/// Returns the ACL of a shape for the list of which these are the columns. An entry has a permission if and only if the
/// list grants its rights in every situation in which the access check of acl(5) looks at the entry, whoever owns the
/// file. There is a MASK if and only if the shape has a user or a group, and it takes nothing away. Fails only if
/// memory runs out. The time is at most proportional to the square of the number of entries, times the number of keys.
pub(crate) fn best_of_columns(
    alloc: Global,
    columns: &TagColumns,
    shape: &PosixShape<'_>,
) -> Result<PosixAcl, AllocError>
    requires few { size_of (entry_shape_of shape.now) ≤ most_names }
    ensures { (list : List Ace) → AreColumns list columns.now
        → IfOk result (IsBest list (entry_shape_of shape.now)) }
{
    let acl = three_entries(alloc, columns, shape)?;
    if is_within(shape, 0) {
        return Ok(acl);
    }
    with_named(acl, columns, shape)
}

// Returns whether the shape has at most this many users and groups.
fn is_within(shape: &PosixShape<'_>, most: u16) -> bool
    ensures { IsTrue result ↔ (size_of (entry_shape_of shape.now) ≤ most) }
{
    let most = usize::from(most);
    shape.users.len() <= most && shape.groups.len() <= most - shape.users.len()
}

// Returns the ACL with USER_OBJ, GROUP_OBJ and OTHER.
fn three_entries(
    alloc: Global,
    columns: &TagColumns,
    shape: &PosixShape<'_>,
) -> Result<PosixAcl, AllocError>
    requires few { size_of (entry_shape_of shape.now) ≤ most_names }
    ensures three { (list : List Ace) → AreColumns list columns.now
        → IfOk result (HasThree list (entry_shape_of shape.now)) }
    ensures valid { IfOk result IsAcl }
{
    let owner = entry_perm(columns, shape, Tag::UserObj);
    let group = entry_perm(columns, shape, Tag::GroupObj);
    let others = entry_perm(columns, shape, Tag::Other);
    let acl = PosixAcl::of_mode(alloc, Mode::from_parts(owner, group, others))?;
    // Called for its clauses: the entries of an ACL are valid.
    acl.entries();
    Ok(acl)
}

// Adds MASK and the entries of the users and groups of the shape.
fn with_named(
    acl: PosixAcl,
    columns: &TagColumns,
    shape: &PosixShape<'_>,
) -> Result<PosixAcl, AllocError>
    requires few { size_of (entry_shape_of shape.now) ≤ most_names }
    requires some { 0 < size_of (entry_shape_of shape.now) }
    ensures { (list : List Ace) → AreColumns list columns.now
        → HasThree list (entry_shape_of shape.now) acl
        → IfOk result (IsBest list (entry_shape_of shape.now)) }
{
    let mut acl = acl;
    acl.calc_mask()?;
    add_users(&mut acl, columns, shape)?;
    add_groups(&mut acl, columns, shape)?;
    acl.calc_mask()?;
    // Called for their clauses: MASK takes nothing away, and the entries of an ACL are valid.
    laws::mask_leaves_all();
    laws::mask_stays();
    acl.entries();
    Ok(acl)
}

fn add_users(
    acl: &mut PosixAcl,
    columns: &TagColumns,
    shape: &PosixShape<'_>,
) -> Result<(), AllocError>
    requires few { size_of (entry_shape_of shape.now) ≤ most_names }
    ensures { (list : List Ace) → AreColumns list columns.now
        → IsEntryPut list (entry_shape_of shape.now) empty_shape acl.old
        → OnOk result (IsEntryPut list (entry_shape_of shape.now)
        (users_of (entry_shape_of shape.now)) acl.new) }
{
    for user in shape.users {
        let tag = Tag::User(*user);
        put(acl, tag, entry_perm(columns, shape, tag))?;
    }
    Ok(())
}

// Adds the entries of the groups, after those of the users.
fn add_groups(
    acl: &mut PosixAcl,
    columns: &TagColumns,
    shape: &PosixShape<'_>,
) -> Result<(), AllocError>
    requires few { size_of (entry_shape_of shape.now) ≤ most_names }
    ensures { (list : List Ace) → AreColumns list columns.now
        → IsEntryPut list (entry_shape_of shape.now) (users_of (entry_shape_of shape.now)) acl.old
        → OnOk result
        (IsEntryPut list (entry_shape_of shape.now) (entry_shape_of shape.now) acl.new) }
{
    for group in shape.groups {
        let tag = Tag::Group(*group);
        put(acl, tag, entry_perm(columns, shape, tag))?;
    }
    Ok(())
}

// Sets an entry of an ACL that has a MASK. Fails only if memory runs out.
fn put(acl: &mut PosixAcl, tag: Tag, perm: Perm) -> Result<(), AllocError>
    ensures { OnOk result (acl.new ≡ set.insert acl.old (tag_of tag) perm.bits) }
{
    match acl.set(tag, perm) {
        Ok(()) => Ok(()),
        Err(_) => Err(AllocError),
    }
}

pub(crate) fn entry_perm(columns: &TagColumns, shape: &PosixShape<'_>, entry: Tag) -> Perm
    requires few { size_of (entry_shape_of shape.now) ≤ most_names }
    requires there { IsTrue (is_in_shape (entry_shape_of shape.now) (tag_of entry)) }
    ensures answers { HasPassAnswers columns.now (entry_shape_of shape.now) (tag_of entry)
        result.bits }
    ensures just { (list : List Ace) → AreColumns list columns.now
        → HasJust list (entry_shape_of shape.now) (tag_of entry) result.bits }
{
    let may_read = is_always_allowed(&columns.read, shape, entry);
    let may_write = is_always_allowed(&columns.write, shape, entry);
    let may_append = is_always_allowed(&columns.append, shape, entry);
    let may_execute = is_always_allowed(&columns.execute, shape, entry);
    perm_of(may_read, may_write & may_append, may_execute)
}

fn perm_of(may_read: bool, may_write: bool, may_execute: bool) -> Perm
    ensures read { has_bit result.bits read ≡ may_read }
    ensures write { has_bit result.bits write ≡ may_write }
    ensures execute { has_bit result.bits execute ≡ may_execute }
{
    Perm {
        bits: 4 * u8::from(may_read) + 2 * u8::from(may_write) + u8::from(may_execute),
    }
}

// Returns whether a right is granted in every situation in which the check looks at an entry. A principal that matches
// in all of these situations decides where no other has. A DENY of a principal that matches in some of them denies.
fn is_always_allowed(keys: &[TagKey], shape: &PosixShape<'_>, entry: Tag) -> bool
    ensures { result ≡ answer (entry_shape_of shape.now) (tag_of entry) keys.now }
{
    for key in keys {
        if is_certain(entry, key.whom) {
            return key.kind == Kind::Allow;
        }
        if key.kind == Kind::Deny && may_match(shape, entry, key.whom) {
            return false;
        }
    }
    false
}

/// Returns whether the principal of a tag matches in every situation in which the check looks at the entry.
pub(crate) fn is_certain(entry: Tag, whom: Tag) -> bool
    ensures { result ≡ is_certain (tag_of entry) (tag_of whom) }
{
    is_same(whom, Tag::Other) || is_same(whom, entry)
}

// Returns whether the principal of a tag matches in some situation in which the check looks at the entry, but is not
// the principal of the entry.
fn may_match(shape: &PosixShape<'_>, entry: Tag, whom: Tag) -> bool
    ensures { result ≡ may_match (entry_shape_of shape.now) (tag_of entry) (tag_of whom) }
{
    match whom {
        Tag::User(id) => may_be_user(shape, id, entry),
        Tag::GroupObj => !is_same(entry, Tag::Other),
        Tag::Group(id) => !is_same(entry, Tag::Other) || !is_among(shape.groups, id),
        Tag::UserObj | Tag::Mask | Tag::Other => false,
    }
}

// Returns whether the requester of the entry may be this user, who is not the one of the entry.
fn may_be_user(shape: &PosixShape<'_>, id: Id, entry: Tag) -> bool
    ensures { result ≡ may_be_user (entry_shape_of shape.now) id.value (tag_of entry) }
{
    match entry {
        Tag::UserObj => true,
        Tag::User(_) | Tag::Mask => false,
        Tag::GroupObj | Tag::Group(_) | Tag::Other => !is_among(shape.users, id),
    }
}

pub(crate) fn is_among(among: &[Id], id: Id) -> bool
    ensures { result ≡ is_member id.value (ids among.now) }
{
    for one in among {
        if one.value == id.value {
            return true;
        }
    }
    false
}
