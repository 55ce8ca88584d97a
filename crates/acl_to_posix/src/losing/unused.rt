//! Two ids that neither a list nor an ACL names.
ghost use Rattle.std.specs.Prelude.{◌≡◌, ◌≤◌, ◌+◌, ◌++◌, ◌==◌, IfOk, OnOk, false, length};
ghost use Rattle.std.specs.FinMap as set;
ghost use Rattle.acl_posix.specs.Check.{ids, is_member};
ghost use Rattle.acl_posix.specs.Tag.{qualifier, tag_of};
ghost use Rattle.acl_to_posix.specs.internal.LossBody.{AreSmall, AreUnused, entry_numbers, key_numbers, most_used, used_numbers};
ghost use Rattle.acl_to_posix.specs.internal.ShapeBody.{keys_of};

use crate::tag_column::{TagColumns, TagKey};
use acl_posix::{Id, PosixAcl, Tag};
use std::alloc::{AllocError, Global};

/// Two ids, for users or for groups, that neither the list nor the ACL names.
#[derive(Clone, Copy)]
pub(crate) struct Unused {
    pub(crate) one: Id,
    pub(crate) next: Id,
}

/// Returns two ids that neither the columns nor the entries have. Fails only if memory runs out.
pub(crate) fn unused_ids(
    alloc: Global,
    columns: &TagColumns,
    acl: &PosixAcl,
) -> Result<Unused, AllocError>
    requires { AreSmall columns.now acl.now }
    ensures { IfOk result (AreUnused (used_numbers columns.now acl.now)) }
{
    let mut used = used_ids(alloc, columns, acl)?;
    let one = unused_id(&used);
    used.push(one)?;
    let next = unused_id(&used);
    Ok(Unused { one, next })
}

// The ids of the keys of all columns and of the entries, and 0 for each without an id.
fn used_ids(alloc: Global, columns: &TagColumns, acl: &PosixAcl) -> Result<Vec<Id>, AllocError>
    ensures { IfOk result (λ used. ids used.items ≡ used_numbers columns.now acl.now) }
{
    let mut used = Vec::new(alloc);
    add_keys(&mut used, &columns.read)?;
    add_keys(&mut used, &columns.write)?;
    add_keys(&mut used, &columns.append)?;
    add_keys(&mut used, &columns.execute)?;
    add_entries(&mut used, acl)?;
    Ok(used)
}

// Adds the ids of the keys, and 0 for a key without an id.
fn add_keys(used: &mut Vec<Id>, keys: &[TagKey]) -> Result<(), AllocError>
    ensures { OnOk result
        (ids used.new.items ≡ ids used.old.items ++ key_numbers (keys_of keys.now)) }
{
    for key in keys {
        used.push(id_or_zero(key.whom))?;
    }
    Ok(())
}

// Adds the ids of the entries, and 0 for an entry without an id.
fn add_entries(used: &mut Vec<Id>, acl: &PosixAcl) -> Result<(), AllocError>
    ensures { OnOk result
        (ids used.new.items ≡ ids used.old.items ++ entry_numbers (set.entries acl.now)) }
{
    let entries = acl.entries();
    for entry in entries {
        used.push(id_or_zero(entry.tag))?;
    }
    Ok(())
}

// Returns the id of a tag, or 0 if it has none.
fn id_or_zero(tag: Tag) -> Id
    ensures { result.value ≡ qualifier (tag_of tag) }
{
    match tag {
        Tag::User(id) | Tag::Group(id) => id,
        Tag::UserObj | Tag::GroupObj | Tag::Mask | Tag::Other => Id { value: 0 },
    }
}

// Returns the least id that is not one of these.
fn unused_id(used: &[Id]) -> Id
    requires { length used.now ≤ most_used }
    ensures { is_member result.value (ids used.now) ≡ false }
{
    let mut value = 0;
    while is_used(used, value) {
        value += 1;
    }
    Id { value }
}

fn is_used(used: &[Id], value: u32) -> bool
    ensures { result ≡ is_member value (ids used.now) }
{
    for id in used {
        if id.value == value {
            return true;
        }
    }
    false
}
