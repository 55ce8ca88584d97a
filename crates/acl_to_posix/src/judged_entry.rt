//! An entry of a shape, and what decides which users and groups can lose their entries without loss.
ghost use Rattle.std.specs.Prelude.{◌≡◌, ◌≤◌, IsTrue};
ghost use Rattle.std.specs.List.{position};
ghost use Rattle.acl_perm.specs.Bits.{has_bit};
ghost use Rattle.acl_posix.specs.Tag.{is_named, tag_of};
ghost use Rattle.acl_eval.specs.Permissions.{execute, read, write};
ghost use Rattle.acl_to_posix.specs.Pruning.{is_shared};
ghost use Rattle.acl_to_posix.specs.ToPosix.{is_in_shape, size_of};
ghost use Rattle.acl_to_posix.specs.internal.PruningBody.{AreDecidedAt, AreDenied, IsJudged, are_before, decided_if, decided_place, denied_place, is_asked_more, is_denial, keeps_without, stands_without};
ghost use Rattle.acl_to_posix.specs.internal.ShapeBody.{is_certain, most_names, entry_shape_of};

use crate::posix_shape::{PosixShape, entry_perm, is_certain};
use crate::tag_column::{TagColumns, TagKey, is_same};
use acl_eval::internal::{EXECUTE, READ, WRITE};
use acl_perm::{Kind, Perm};
use acl_posix::Tag;

/// A place in the column of each right, from 0.
#[derive(Clone, Copy)]
pub(crate) struct Places {
    pub read: usize,
    pub write: usize,
    pub append: usize,
    pub execute: usize,
}

/// An entry of a shape, and what decides which names can go: where each right of its permissions is decided for the
/// entry, and where each right is denied to the principal of the entry. An entry has the same permissions as long as it
/// is there, whatever goes without loss, so both are found once.
#[derive(Clone, Copy)]
pub(crate) struct JudgedEntry {
    pub tag: Tag,
    pub perm: Perm,
    pub decided: Places,
    pub denied: Places,
}

/// Returns the entry of a tag, with what is known of it.
pub(crate) fn judged(columns: &TagColumns, shape: &PosixShape<'_>, tag: Tag) -> JudgedEntry
    requires few { size_of (entry_shape_of shape.now) ≤ most_names }
    requires there { IsTrue (is_in_shape (entry_shape_of shape.now) (tag_of tag)) }
    ensures judged { IsJudged columns.now (entry_shape_of shape.now) result }
    ensures tag { result.tag ≡ tag }
{
    let perm = entry_perm(columns, shape, tag);
    let decided = decided_places(columns, tag, perm);
    let denied = denied_places(columns, tag);
    JudgedEntry {
        tag,
        perm,
        decided,
        denied,
    }
}

// Returns where the rights of the permissions of an entry are decided.
fn decided_places(columns: &TagColumns, entry: Tag, perm: Perm) -> Places
    ensures { AreDecidedAt columns.now (tag_of entry) perm.bits result }
{
    let may_write = perm.contains(WRITE);
    Places {
        read: decided_if(perm.contains(READ), &columns.read, entry),
        write: decided_if(may_write, &columns.write, entry),
        append: decided_if(may_write, &columns.append, entry),
        execute: decided_if(perm.contains(EXECUTE), &columns.execute, entry),
    }
}

// Returns where the rights are denied to the principal of an entry.
fn denied_places(columns: &TagColumns, name: Tag) -> Places
    ensures { AreDenied columns.now (tag_of name) result }
{
    Places {
        read: denied_place(&columns.read, name),
        write: denied_place(&columns.write, name),
        append: denied_place(&columns.append, name),
        execute: denied_place(&columns.execute, name),
    }
}

// Returns where a right is decided for an entry that has it. No DENY takes anything away from an entry without it.
fn decided_if(has: bool, keys: &[TagKey], entry: Tag) -> usize
    ensures { result ≡ decided_if has (tag_of entry) keys.now }
{
    if has { decided_place(keys, entry) } else { 0 }
}

/// Returns the place of the first key that decides whenever the check looks at the entry.
pub(crate) fn decided_place(keys: &[TagKey], entry: Tag) -> usize
    ensures { result ≡ decided_place (tag_of entry) keys.now }
{
    first_certain(keys, entry).unwrap_or(keys.len())
}

fn first_certain(keys: &[TagKey], entry: Tag) -> Option<usize>
    ensures { result ≡ position (λ key. is_certain (tag_of entry) (tag_of key.whom)) keys.now }
{
    keys.iter().position(|key| is_certain(entry, key.whom))
}

// Returns the place of the DENY of a principal.
fn denied_place(keys: &[TagKey], name: Tag) -> usize
    ensures { result ≡ denied_place (tag_of name) keys.now }
{
    first_denied(keys, name).unwrap_or(keys.len())
}

fn first_denied(keys: &[TagKey], name: Tag) -> Option<usize>
    ensures { result ≡ position (is_denial (tag_of name)) keys.now }
{
    keys.iter().position(|key| is_denied(key, name))
}

fn is_denied(key: &TagKey, name: Tag) -> bool
    ensures { result ≡ is_denial (tag_of name) key.now }
{
    is_same(key.whom, name) && key.kind == Kind::Deny
}

/// Returns whether an entry stays as it is when a user or a group has no entry any more, and has what that entry had.
pub(crate) fn stands_without(name: &JudgedEntry, entry: &JudgedEntry) -> bool
    ensures { result ≡ stands_without name.now entry.now }
{
    !is_shared(entry.tag) || is_same(entry.tag, name.tag) || keeps_without(name, entry)
}

fn keeps_without(name: &JudgedEntry, entry: &JudgedEntry) -> bool
    ensures { result ≡ keeps_without name.now entry.now }
{
    entry.perm.contains(name.perm)
        && (!is_asked_more(entry.tag, name.tag) || are_before(&entry.decided, &name.denied))
}

// Returns whether the check looks at the entry in more situations when the name has no entry any more: the requester of
// GROUP_OBJ, GROUP and OTHER may then be the user, and the requester of OTHER may be in the group.
fn is_asked_more(entry: Tag, name: Tag) -> bool
    ensures { result ≡ is_asked_more (tag_of entry) (tag_of name) }
{
    match name {
        Tag::User(_) => true,
        Tag::Group(_) => is_same(entry, Tag::Other),
        Tag::UserObj | Tag::GroupObj | Tag::Mask | Tag::Other => false,
    }
}

// Returns whether each right is decided before it is denied.
fn are_before(decided: &Places, denied: &Places) -> bool
    ensures { result ≡ are_before decided.now denied.now }
{
    decided.read <= denied.read
        && decided.write <= denied.write
        && decided.append <= denied.append
        && decided.execute <= denied.execute
}

// Returns whether the entry is one for requesters without an entry of their own.
fn is_shared(entry: Tag) -> bool
    ensures { result ≡ is_shared (tag_of entry) }
{
    matches!(entry, Tag::GroupObj | Tag::Group(_) | Tag::Other)
}

/// Returns whether the tag is that of a user or a group.
pub(crate) fn is_named(tag: Tag) -> bool
    ensures { result ≡ is_named (tag_of tag) }
{
    matches!(tag, Tag::User(_) | Tag::Group(_))
}
