//! Users and groups are taken out of a shape, one after the other, as long as nothing is lost.
ghost use Rattle.std.specs.Prelude.{◌≡◌, ◌≤◌, List, [], IfOk, OnOk};
ghost use Rattle.std.specs.List.{find, list_all};
ghost use Rattle.std.specs.Option.{option_copied};
ghost use Rattle.acl_nfs4.specs.Ace.{Ace};
ghost use Rattle.acl_posix.specs.Check.{ids};
ghost use Rattle.acl_to_posix.specs.internal.ListNamesBody.{named_shape};
ghost use Rattle.acl_to_posix.specs.Pruning.{PrunesTo};
ghost use Rattle.acl_to_posix.specs.ToPosix.{size_of};
ghost use Rattle.acl_to_posix.specs.internal.PruningBody.{AreAllJudged, AreJudged, AreJudgedFor, AreUsersJudged, can_go, groups_left, shape_left, stands_without, users_left};
ghost use Rattle.acl_to_posix.specs.internal.ShapeBody.{AreColumns, empty_shape, most_names, entry_shape_of};
ghost use Rattle.acl_to_posix.specs.declared.tag_column.TagColumns.{TagColumns as Keys};

use crate::judged_entry::{JudgedEntry, is_named, judged, stands_without};
use crate::list_names::NamedIds;
use crate::posix_shape::PosixShape;
use crate::tag_column::{TagColumns, is_same};
use acl_posix::{Id, Tag};
use std::alloc::{AllocError, Global};

/// Returns the users and the groups of a shape that are left after as many were taken out as can go without loss.
pub(crate) fn pruned(
    alloc: Global,
    columns: &TagColumns,
    shape: &PosixShape<'_>,
) -> Result<NamedIds, AllocError>
    requires few { size_of (entry_shape_of shape.now) ≤ most_names }
    ensures pruned { (list : List Ace) → AreColumns list columns.now
        → IfOk result (λ rest. PrunesTo list (entry_shape_of shape.now) (named_shape rest)) }
    ensures few { IfOk result (λ rest. size_of (named_shape rest) ≤ most_names) }
{
    let mut left = judged_entries(alloc, columns, shape)?;
    prune(&mut left);
    named_in(alloc, &left)
}

// Returns the entries of a shape, without USER_OBJ, from which nothing can be taken.
fn judged_entries(
    alloc: Global,
    columns: &TagColumns,
    shape: &PosixShape<'_>,
) -> Result<Vec<JudgedEntry>, AllocError>
    requires few { size_of (entry_shape_of shape.now) ≤ most_names }
    ensures { IfOk result (λ left.
        AreAllJudged columns.now (entry_shape_of shape.now) left.items) }
{
    let mut left = Vec::new(alloc);
    add_unnamed(&mut left, columns, shape)?;
    add_users(&mut left, columns, shape)?;
    add_groups(&mut left, columns, shape)?;
    Ok(left)
}

// Adds the entries of GROUP_OBJ and OTHER.
fn add_unnamed(
    left: &mut Vec<JudgedEntry>,
    columns: &TagColumns,
    shape: &PosixShape<'_>,
) -> Result<(), AllocError>
    requires few { size_of (entry_shape_of shape.now) ≤ most_names }
    requires none { left.old.items ≡ [] }
    ensures { OnOk result
        (AreJudgedFor columns.now (entry_shape_of shape.now) empty_shape left.new.items) }
{
    left.push(judged(columns, shape, Tag::GroupObj))?;
    left.push(judged(columns, shape, Tag::Other))?;
    Ok(())
}

fn add_users(
    left: &mut Vec<JudgedEntry>,
    columns: &TagColumns,
    shape: &PosixShape<'_>,
) -> Result<(), AllocError>
    requires few { size_of (entry_shape_of shape.now) ≤ most_names }
    ensures { AreJudgedFor columns.now (entry_shape_of shape.now) empty_shape left.old.items
        → OnOk result (AreUsersJudged columns.now (entry_shape_of shape.now) left.new.items) }
{
    for user in shape.users {
        left.push(judged(columns, shape, Tag::User(*user)))?;
    }
    Ok(())
}

// Adds the entries of the groups, after those of the users.
fn add_groups(
    left: &mut Vec<JudgedEntry>,
    columns: &TagColumns,
    shape: &PosixShape<'_>,
) -> Result<(), AllocError>
    requires few { size_of (entry_shape_of shape.now) ≤ most_names }
    ensures { AreUsersJudged columns.now (entry_shape_of shape.now) left.old.items
        → OnOk result (AreAllJudged columns.now (entry_shape_of shape.now) left.new.items) }
{
    for group in shape.groups {
        left.push(judged(columns, shape, Tag::Group(*group)))?;
    }
    Ok(())
}

// Takes out entries of users and groups, each without loss, until none can go.
fn prune(left: &mut Vec<JudgedEntry>)
    ensures pruned { (list : List Ace) (columns : Keys) → AreColumns list columns
        → AreJudged columns left.old.items
        → PrunesTo list (shape_left left.old.items) (shape_left left.new.items) }
    ensures few { size_of (shape_left left.new.items) ≤ size_of (shape_left left.old.items) }
{
    while let Some(name) = first_to_go(left) {
        let tag = name.tag;
        left.retain(|entry| !is_same(entry.tag, tag));
    }
}

// Returns the first entry of a user or a group that can go without loss.
fn first_to_go(left: &[JudgedEntry]) -> Option<&JudgedEntry>
    ensures { option_copied result ≡ find (can_go left.now) left.now }
{
    left.iter().find(|name| can_go(left, name))
}

// Returns whether the entry is one of a user or a group that can go without loss.
fn can_go(left: &[JudgedEntry], name: &JudgedEntry) -> bool
    ensures { result ≡ can_go left.now name.now }
{
    is_named(name.tag) && all_stand_without(left, name)
}

fn all_stand_without(left: &[JudgedEntry], name: &JudgedEntry) -> bool
    ensures { result ≡ list_all (stands_without name.now) left.now }
{
    left.iter().all(|entry| stands_without(name, entry))
}

// Returns the users and the groups of the entries.
fn named_in(alloc: Global, left: &[JudgedEntry]) -> Result<NamedIds, AllocError>
    ensures { IfOk result (λ rest. named_shape rest ≡ shape_left left.now) }
{
    let users = users_in(alloc, left)?;
    let groups = groups_in(alloc, left)?;
    Ok(NamedIds { users, groups })
}

fn users_in(alloc: Global, left: &[JudgedEntry]) -> Result<Vec<Id>, AllocError>
    ensures { IfOk result (λ users. ids users.items ≡ users_left left.now) }
{
    let mut users = Vec::new(alloc);
    for entry in left {
        if let Tag::User(id) = entry.tag {
            users.push(id)?;
        }
    }
    Ok(users)
}

fn groups_in(alloc: Global, left: &[JudgedEntry]) -> Result<Vec<Id>, AllocError>
    ensures { IfOk result (λ groups. ids groups.items ≡ groups_left left.now) }
{
    let mut groups = Vec::new(alloc);
    for entry in left {
        if let Tag::Group(id) = entry.tag {
            groups.push(id)?;
        }
    }
    Ok(groups)
}
