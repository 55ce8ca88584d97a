//! A situation in which only three principals match, and whether something is lost in it.
ghost use Rattle.std.specs.Prelude.{◌≡◌, ◌≤◌, ◌+◌, ◌++◌, ◌==◌, IfOk, OnOk, false, length};
ghost use Rattle.acl_posix.specs.Check.{ids};
ghost use Rattle.acl_posix.specs.Tag.{tag_of};
ghost use Rattle.acl_to_posix.specs.LostGrants.{lost_object, lost_requester, most_lost_groups};
ghost use Rattle.acl_to_posix.specs.internal.LossBody.{chosen_object, chosen_requester, groups_for, is_lost, is_met, is_owner_tag, user_or};
ghost use Rattle.acl_to_posix.specs.internal.ShapeBody.{column_decided_by, keys_of};

use super::unused::Unused;
use super::{LostGrant, Wanted};
use crate::posix_shape::is_among;
use crate::tag_column::TagKey;
use acl_perm::{Kind, Perm};
use acl_posix::{Id, PosixAcl, Tag};
use std::alloc::{AllocError, Global};

/// Returns the situation in which only the principals of three tags match. Fails only if memory runs out.
pub(crate) fn situation_of(
    alloc: Global,
    unused: Unused,
    perm: Perm,
    one: Tag,
    two: Tag,
    three: Tag,
) -> Result<LostGrant, AllocError>
    ensures object { IfOk result (λ lost. lost_object lost
        ≡ chosen_object unused.one.value unused.next.value
        (tag_of one) (tag_of two) (tag_of three)) }
    ensures requester { IfOk result (λ lost. lost_requester lost
        ≡ chosen_requester unused.one.value (tag_of one) (tag_of two) (tag_of three)) }
    ensures perm { IfOk result (λ lost. lost.perm ≡ perm) }
    ensures few { IfOk result (λ lost. length lost.groups.items ≤ 3) }
{
    let mut groups = Vec::new(alloc);
    add_group(&mut groups, one, unused.one)?;
    add_group(&mut groups, two, unused.one)?;
    add_group(&mut groups, three, unused.one)?;
    let user = user_or(one, user_or(two, user_or(three, unused.one)));
    let owns = is_owner(one) || is_owner(two) || is_owner(three);
    let owner = if owns { user } else { unused.next };
    let group = unused.one;
    Ok(LostGrant {
        owner,
        group,
        user,
        groups,
        perm,
    })
}

// Adds the group of a tag, if it has one. The owning group is this one.
fn add_group(groups: &mut Vec<Id>, tag: Tag, owning_group: Id) -> Result<(), AllocError>
    ensures ids { OnOk result (ids groups.new.items
        ≡ ids groups.old.items ++ groups_for owning_group.value (tag_of tag)) }
    ensures few { OnOk result (length groups.new.items ≤ length groups.old.items + 1) }
{
    match tag {
        Tag::GroupObj => groups.push(owning_group)?,
        Tag::Group(id) => groups.push(id)?,
        Tag::UserObj | Tag::User(_) | Tag::Mask | Tag::Other => {}
    }
    Ok(())
}

// Returns the user of a tag, or the other one if the tag has none.
fn user_or(tag: Tag, rest: Id) -> Id
    ensures { result.value ≡ user_or (tag_of tag) rest.value }
{
    match tag {
        Tag::User(id) => id,
        Tag::UserObj | Tag::GroupObj | Tag::Group(_) | Tag::Mask | Tag::Other => rest,
    }
}

fn is_owner(tag: Tag) -> bool
    ensures { result ≡ is_owner_tag (tag_of tag) }
{
    matches!(tag, Tag::UserObj)
}

/// Returns whether the list grants both rights in the situation, and the ACL does not grant the permission.
pub(crate) fn is_lost(wanted: &Wanted<'_>, acl: &PosixAcl, chosen: &LostGrant) -> bool
    ensures { result ≡ is_lost (keys_of wanted.now.first.now) (keys_of wanted.now.second.now)
        acl.now wanted.now.perm.bits (lost_object chosen.now) (lost_requester chosen.now) }
{
    is_granted(wanted.first, chosen)
        && is_granted(wanted.second, chosen)
        && !acl.check(
            chosen.owner,
            chosen.group,
            chosen.user,
            &chosen.groups,
            wanted.perm,
        )
}

// Returns whether the first key that matches in the situation is an ALLOW.
fn is_granted(keys: &[TagKey], chosen: &LostGrant) -> bool
    ensures { result ≡ column_decided_by (is_met chosen.now) (keys_of keys.now) false }
{
    for key in keys {
        if is_met(chosen, key.whom) {
            return key.kind == Kind::Allow;
        }
    }
    false
}

// Returns whether the principal of a tag matches in the situation.
fn is_met(chosen: &LostGrant, whom: Tag) -> bool
    ensures { result ≡ is_met chosen.now (tag_of whom) }
{
    match whom {
        Tag::UserObj => chosen.user.value == chosen.owner.value,
        Tag::User(id) => chosen.user.value == id.value,
        Tag::GroupObj => is_among(&chosen.groups, chosen.group),
        Tag::Group(id) => is_among(&chosen.groups, id),
        Tag::Mask => false,
        Tag::Other => true,
    }
}
