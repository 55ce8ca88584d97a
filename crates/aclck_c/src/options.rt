//! What the bits of `options` mean: `enum aclck_option` of `aclck.h`.
ghost use Rattle.std.specs.Prelude.{◌≡◌, ◌↔◌, ◌+◌};
ghost use Rattle.acl_nfs4.specs.Within.{IsWithin};
ghost use Rattle.aclck_c.specs.Common.{IfSome, IsSome, IsTrue, profile_of, IsCreationOption, IsMode, IsProfileOption, child_kind_from, profile_from};
ghost use Rattle.aclck_c.specs.Options.{IsMaskOption, IsOrderOption, add_mask_option, form_from, has_option, mark_option};
ghost use Rattle.aclck_c.specs.Renaming.{IsRenameOption, may_merge_from};

use acl_eval::ChildKind;
use acl_perm::{Mode, Profile};
use acl_posix::AclTextForm;

/// Only the rights and flags of the narrow profile.
pub(crate) const NARROW: u32 = 0x0100_0000;

/// The new object is a directory.
pub(crate) const DIRECTORY: u32 = 0x0200_0000;

/// The text has comments on entries that the mask limits.
pub(crate) const FORM_SHOWN: u32 = 0x0400_0000;

/// The text has commas between the entries.
pub(crate) const FORM_SHORT: u32 = 0x0800_0000;

/// The groups of each requester are in rising order of their bytes.
pub(crate) const GROUPS_IN_ORDER: u32 = 0x1000_0000;

/// What is inherited gets the flag INHERITED.
pub(crate) const MARK_INHERITED: u32 = 0x2000_0000;

/// Two names may become one.
pub(crate) const MAY_MERGE: u32 = 0x0080_0000;

/// A list of entries with USER or GROUP entries and no MASK gets the MASK that setfacl adds.
pub(crate) const ADD_MASK: u32 = 0x4000_0000;

/// Returns the profile that `options` choose, or `None` if they have another bit.
pub(crate) fn profile_from(options: u32) -> Option<Profile>
    ensures known { IsSome result ↔ IsProfileOption options }
    ensures value { IfSome result (λ profile. profile_of profile ≡ profile_from options) }
{
    if are_allowed(NARROW, options) {
        Some(profile_in(options))
    } else {
        None
    }
}

/// Returns whether `options` have no other bit than the one that says that groups are in order.
pub(crate) fn is_order_option(options: u32) -> bool
    ensures { IsTrue result ↔ IsOrderOption options }
{
    are_allowed(GROUPS_IN_ORDER, options)
}

/// What the options of `aclck_child` choose: a profile, the kind of the new object, and whether what is inherited gets
/// the flag INHERITED.
#[derive(Clone, Copy)]
pub(crate) struct ChildOptions {
    pub profile: Profile,
    pub kind: ChildKind,
    pub is_marked: bool,
}

/// Returns what `options` choose, or `None` if they have another bit, or ask for the flag INHERITED in the narrow
/// profile, which does not have it.
pub(crate) fn child_options_from(options: u32) -> Option<ChildOptions>
    ensures known { IsSome result ↔ IsCreationOption options }
    ensures profile { IfSome result (λ c. profile_of c.profile ≡ profile_from options) }
    ensures kind { IfSome result (λ c. c.kind ≡ child_kind_from options) }
    ensures marked { IfSome result (λ c. c.is_marked ≡ has_option mark_option options) }
{
    if !are_allowed(NARROW | DIRECTORY | MARK_INHERITED, options)
        || has_option(NARROW | MARK_INHERITED, options)
    {
        return None;
    }
    Some(ChildOptions {
        profile: profile_in(options),
        kind: child_kind_in(options),
        is_marked: has_option(MARK_INHERITED, options),
    })
}

fn child_kind_in(options: u32) -> ChildKind
    ensures { result ≡ child_kind_from options }
{
    if has_option(DIRECTORY, options) {
        ChildKind::Directory
    } else {
        ChildKind::File
    }
}

/// What the options of `aclck_renamed` choose: a profile, and whether two names may become one.
#[derive(Clone, Copy)]
pub(crate) struct RenameOptions {
    pub profile: Profile,
    pub may_merge: bool,
}

/// Returns what `options` choose, or `None` if they have another bit.
pub(crate) fn rename_options_from(options: u32) -> Option<RenameOptions>
    ensures known { IsSome result ↔ IsRenameOption options }
    ensures profile { IfSome result (λ c. profile_of c.profile ≡ profile_from options) }
    ensures may_merge { IfSome result (λ c. c.may_merge ≡ may_merge_from options) }
{
    if !are_allowed(NARROW | MAY_MERGE, options) {
        return None;
    }
    Some(RenameOptions {
        profile: profile_in(options),
        may_merge: has_option(MAY_MERGE, options),
    })
}

/// Returns whether a MASK is added, or `None` if `options` have another bit.
pub(crate) fn adds_mask_from(options: u32) -> Option<bool>
    ensures known { IsSome result ↔ IsMaskOption options }
    ensures value { IfSome result (λ adds. adds ≡ has_option add_mask_option options) }
{
    if are_allowed(ADD_MASK, options) {
        Some(has_option(ADD_MASK, options))
    } else {
        None
    }
}

/// Returns the form of a text that `options` choose, or `None` if they choose none.
pub(crate) fn form_from(options: u32) -> Option<AclTextForm>
    ensures { result ≡ form_from options }
{
    match options {
        0 => Some(AclTextForm::Canonical),
        FORM_SHOWN => Some(AclTextForm::Shown),
        FORM_SHORT => Some(AclTextForm::Short),
        _ => None,
    }
}

/// Returns the mode of a number, or `None` if the number is above `0o777`.
pub(crate) fn mode_from(number: u32) -> Option<Mode>
    ensures known { IsSome result ↔ IsMode number }
    ensures value { IfSome result (λ mode. mode.bits ≡ number) }
{
    if number > 0o777 {
        return None;
    }
    Mode::new(number as u16)
}

/// Returns the profile that `options` choose, whatever else they have.
pub(crate) fn profile_in(options: u32) -> Profile
    ensures { profile_of result ≡ profile_from options }
{
    if has_option(NARROW, options) {
        Profile::NARROW
    } else {
        Profile::FULL
    }
}

/// Returns whether `options` are a sum of some of the allowed ones.
pub(crate) fn are_allowed(allowed: u32, options: u32) -> bool
    ensures { IsTrue result ↔ IsWithin allowed options }
{
    options & allowed == options
}

pub(crate) fn has_option(option: u32, options: u32) -> bool
    ensures { result ≡ has_option option options }
{
    options & option == option
}
