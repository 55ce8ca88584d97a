//! The ACEs of a list with tags of a POSIX ACL in place of principals, and the keys of each right of a permission.
ghost use Rattle.std.specs.Prelude.{◌≡◌, ◌≤◌, ℕ, Bool, IfOk, false, length, option_map};
ghost use Rattle.std.specs.Ordering.{eq_by_cmp};
ghost use Rattle.acl_perm.specs.Principal.{principal};
ghost use Rattle.acl_posix.specs.Tag.{Tag as TagValue, tag_cmp, tag_of};
ghost use Rattle.acl_nfs4.specs.Limits.{most_aces};
ghost use Rattle.acl_ids.specs.Ids.{HaveIds, with_ids};
ghost use Rattle.acl_to_posix.specs.internal.ShapeBody.{AreColumns, AreFirst, DecidesColumnAs, HaveFewKeys, column_decided_by, has_tag, keys_of, principal_tag, tagged_column};

use acl_ids::{group_id, user_id};
use acl_nfs4::AclView;
use acl_perm::{Kind, Mask, Principal, Right};
use acl_posix::{Names, Tag};
use std::alloc::{AllocError, Global};

/// An ACE that takes part, and the tag for the principal that it names: USER_OBJ for `OWNER@`, GROUP_OBJ for `GROUP@`,
/// OTHER for `EVERYONE@`, and USER or GROUP with the id of a name.
#[derive(Clone, Copy)]
pub(crate) struct TaggedAce {
    pub whom: Tag,
    pub kind: Kind,
    pub mask: Mask,
}

/// A key of a column: the tag for a principal, and a kind.
#[derive(Clone, Copy)]
pub(crate) struct TagKey {
    pub whom: Tag,
    pub kind: Kind,
}

/// The keys of the four rights of permissions, each tag once: only the first ACE of a principal can decide a right.
#[derive(Drop)]
pub(crate) struct TagColumns {
    pub read: Vec<TagKey>,
    pub write: Vec<TagKey>,
    pub append: Vec<TagKey>,
    pub execute: Vec<TagKey>,
}

/// Returns the columns of a list in which each name has an id. Fails only if memory runs out.
pub(crate) fn columns_of(
    alloc: Global,
    list: &AclView<'_>,
    names: &Names,
) -> Result<TagColumns, AllocError>
    requires { HaveIds names.now list.now }
    ensures columns { IfOk result (AreColumns (with_ids names.now list.now)) }
    ensures few { IfOk result HaveFewKeys }
{
    let aces = tagged_aces(alloc, list, names)?;
    let read = column(alloc, &aces, READ_DATA)?;
    let write = column(alloc, &aces, WRITE_DATA)?;
    let append = column(alloc, &aces, APPEND_DATA)?;
    let execute = column(alloc, &aces, EXECUTE)?;
    Ok(TagColumns {
        read,
        write,
        append,
        execute,
    })
}

const READ_DATA: Right = Right { bit: 0 };

const WRITE_DATA: Right = Right { bit: 1 };

const APPEND_DATA: Right = Right { bit: 2 };

const EXECUTE: Right = Right { bit: 5 };

// Returns the ACEs of the list that take part, with their tags.
fn tagged_aces(
    alloc: Global,
    list: &AclView<'_>,
    names: &Names,
) -> Result<Vec<TaggedAce>, AllocError>
    requires { HaveIds names.now list.now }
    ensures decides { IfOk result (λ aces. (bit : ℕ)
        → DecidesColumnAs (with_ids names.now list.now) bit (tagged_column aces.items bit)) }
    ensures few { IfOk result (λ aces. length aces.items ≤ most_aces) }
{
    let mut aces = Vec::new(alloc);
    for ace in list.aces() {
        if ace.takes_part() {
            if let Some(whom) = tag_of_principal(names, ace.principal()) {
                let (kind, mask) = (ace.kind, ace.mask);
                aces.push(TaggedAce { whom, kind, mask })?;
            }
        }
    }
    Ok(aces)
}

// Returns the tag for a principal, or `None` if its name has no id.
fn tag_of_principal(names: &Names, whom: Principal<'_>) -> Option<Tag>
    ensures { option_map tag_of result ≡ principal_tag names.now (principal whom.entry) }
{
    match whom {
        Principal::Owner => Some(Tag::UserObj),
        Principal::User(name) => user_id(names, name).map(Tag::User),
        Principal::Group => Some(Tag::GroupObj),
        Principal::GroupNamed(name) => group_id(names, name).map(Tag::Group),
        Principal::Everyone => Some(Tag::Other),
    }
}

// Returns the keys of the right, each tag once.
fn column(alloc: Global, aces: &[TaggedAce], right: Right) -> Result<Vec<TagKey>, AllocError>
    ensures decides { IfOk result (λ keys. (test : TagValue → Bool)
        → column_decided_by test (keys_of keys.items) false
        ≡ column_decided_by test (tagged_column aces.now right.bit) false) }
    ensures first { IfOk result (λ keys. AreFirst (keys_of keys.items)) }
    ensures few { IfOk result (λ keys. length keys.items ≤ length aces.now) }
{
    let mut keys = Vec::new(alloc);
    for ace in aces {
        if ace.mask.has(right) && !has_tag(&keys, ace.whom) {
            let (whom, kind) = (ace.whom, ace.kind);
            keys.push(TagKey { whom, kind })?;
        }
    }
    Ok(keys)
}

pub(crate) fn has_tag(keys: &[TagKey], whom: Tag) -> bool
    ensures { result ≡ has_tag (tag_of whom) (keys_of keys.now) }
{
    for key in keys {
        if is_same(whom, key.whom) {
            return true;
        }
    }
    false
}

pub(crate) fn is_same(one: Tag, other: Tag) -> bool
    ensures { result ≡ eq_by_cmp tag_cmp (tag_of one) (tag_of other) }
{
    one.cmp(&other).is_eq()
}
