//! What is known of the tag of a principal when a loss is looked for: which keys decide for it, and what the ACL has.
ghost use Rattle.std.specs.Prelude.{◌≡◌, ◌==◌, IfOk, None, false, is_some, map, option_map};
ghost use Rattle.std.specs.List.{AllByRecursion};
ghost use Rattle.std.specs.FinMap as set;
ghost use Rattle.acl_posix.specs.Check.{entry_contains, is_contained};
ghost use Rattle.acl_posix.specs.Tag.{tag_of};
ghost use Rattle.acl_to_posix.specs.internal.LossBody.{IsJudgedTag, allowed_tags, has_masked, is_allowed_in, is_left_by, lacks, level};
ghost use Rattle.acl_to_posix.specs.internal.ShapeBody.{keys_of};

use super::Wanted;
use crate::judged_entry::decided_place;
use crate::posix_shape::is_certain;
use crate::tag_column::TagKey;
use acl_perm::{Kind, Perm};
use acl_posix::{PosixAcl, Tag};
use std::alloc::{AllocError, Global};

/// A tag, the places of the keys that decide both columns wherever only its principal matches, and what the ACL has for
/// it. With these numbers, three tags are compared without a situation.
#[derive(Clone, Copy)]
pub(crate) struct JudgedTag {
    pub(crate) tag: Tag,
    pub(crate) first: usize,
    pub(crate) second: usize,
    pub(crate) level: u8,
    pub(crate) lacks: bool,
}

/// Returns the tags of those keys that can decide the column, and then allow.
pub(crate) fn allowed_tags(
    alloc: Global,
    wanted: &Wanted<'_>,
    acl: &PosixAcl,
    keys: &[TagKey],
) -> Result<Vec<JudgedTag>, AllocError>
    ensures judged { IfOk result (λ tags.
        AllByRecursion (IsJudgedTag wanted.now acl.now) tags.items) }
    ensures tags { IfOk result (λ tags. map (λ one. tag_of one.tag) tags.items
        ≡ allowed_tags (keys_of keys.now) (keys_of keys.now)) }
{
    let mut tags = Vec::new(alloc);
    for key in keys {
        if is_allowed_in(keys, key.whom) {
            tags.push(judged_tag(wanted, acl, key.whom))?;
        }
    }
    Ok(tags)
}

/// Returns what is known of a tag.
pub(crate) fn judged_tag(wanted: &Wanted<'_>, acl: &PosixAcl, tag: Tag) -> JudgedTag
    ensures judged { IsJudgedTag wanted.now acl.now result }
    ensures tag { result.tag ≡ tag }
{
    let first = decided_place(wanted.first, tag);
    let second = decided_place(wanted.second, tag);
    let level = level(acl, tag);
    let lacks = lacks(acl, wanted.perm, tag);
    JudgedTag {
        tag,
        first,
        second,
        level,
        lacks,
    }
}

// Returns whether the first key that is certain for the tag is an ALLOW.
fn is_allowed_in(keys: &[TagKey], whom: Tag) -> bool
    ensures { result ≡ is_allowed_in (tag_of whom) (keys_of keys.now) }
{
    for key in keys {
        if is_certain(whom, key.whom) {
            return key.kind == Kind::Allow;
        }
    }
    false
}

// Returns how early the check of acl(5) decides by the entry of a tag.
fn level(acl: &PosixAcl, tag: Tag) -> u8
    ensures { result ≡ level acl.now (tag_of tag) }
{
    match tag {
        Tag::UserObj => 3,
        Tag::User(_) => 2 * u8::from(has_entry(acl, tag)),
        Tag::GroupObj => 1,
        Tag::Group(_) => u8::from(has_entry(acl, tag)),
        Tag::Mask | Tag::Other => 0,
    }
}

fn has_entry(acl: &PosixAcl, tag: Tag) -> bool
    ensures { result ≡ is_some (set.get acl.now (tag_of tag)) }
{
    is_there(acl.get(tag))
}

fn is_there(perm: Option<Perm>) -> bool
    ensures { result ≡ is_some (option_map (λ p. p.bits) perm) }
{
    match perm {
        Some(_) => true,
        None => false,
    }
}

// Returns whether the tag has no entry with the permission, or MASK takes it away. MASK itself denies nobody.
fn lacks(acl: &PosixAcl, perm: Perm, tag: Tag) -> bool
    ensures { result ≡ lacks acl.now perm.bits (tag_of tag) }
{
    match tag {
        Tag::UserObj | Tag::Other => !has(acl, perm, tag),
        Tag::User(_) | Tag::GroupObj | Tag::Group(_) => !has_masked(acl, perm, tag),
        Tag::Mask => false,
    }
}

fn has_masked(acl: &PosixAcl, perm: Perm, tag: Tag) -> bool
    ensures { result ≡ has_masked acl.now perm.bits (tag_of tag) }
{
    has(acl, perm, tag) && is_left_by(acl.get(Tag::Mask), perm)
}

fn has(acl: &PosixAcl, perm: Perm, tag: Tag) -> bool
    ensures { result ≡ entry_contains acl.now (tag_of tag) perm.bits }
{
    is_contained(acl.get(tag), perm)
}

fn is_contained(own: Option<Perm>, perm: Perm) -> bool
    ensures { result ≡ is_contained (option_map (λ p. p.bits) own) perm.bits }
{
    match own {
        Some(own) => own.contains(perm),
        None => false,
    }
}

fn is_left_by(mask: Option<Perm>, perm: Perm) -> bool
    ensures { result ≡ is_left_by (option_map (λ p. p.bits) mask) perm.bits }
{
    match mask {
        Some(mask) => mask.contains(perm),
        None => true,
    }
}
