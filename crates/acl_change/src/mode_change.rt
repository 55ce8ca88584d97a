//! The list after a change of the mode.
ghost use Rattle.std.specs.Prelude.{◌≡◌, ◌≤◌, ◌↔◌, ◌||◌, IfErr, IfOk, IsTrue, OnOk};
ghost use Rattle.acl_perm.specs.Profile.{full};
ghost use Rattle.acl_perm.specs.Bits.{has_bit};
ghost use Rattle.acl_perm.specs.Principal.{principal};
ghost use Rattle.acl_nfs4.specs.Ace.{ace};
ghost use Rattle.acl_nfs4.specs.Limits.{most_aces, most_weight};
ghost use Rattle.acl_nfs4.specs.Spelling.{IsAccepted};
ghost use Rattle.acl_eval.specs.Inheritance.{directory_inherit, file_inherit};
ghost use Rattle.acl_change.specs.ListChmod.{after_chmod, chmod_list, class_ace, denied_rights, for_new_objects, for_this_object, lost_rights, other_aces, owner_aces, unless_empty};
ghost use Rattle.acl_change.specs.internal.UpToThree.{up_to_one, up_to_three};
ghost use Rattle.acl_eval.specs.ListMode.{mode_of_list};
ghost use Rattle.acl_eval.specs.Unnamed.{is_unnamed};
ghost use Rattle.acl_change.specs.declared.mode_change.ChmodFault.TheVariants.{Limits, Memory};

use crate::up_to_three::UpToThree;
use acl_eval::internal::{WRITE_RIGHTS, image, rest_of};
use acl_nfs4::internal::{EVERYONE_NAME, GROUP_NAME, OWNER_NAME};
use acl_nfs4::{AceRef, Acl, AclView, Flags, Kind, MOST_ACES, MOST_WEIGHT, Mask};
use acl_perm::{Mode, Perm, Principal};
use std::alloc::{AllocError, Global};
use thiserror::Error;

/// Why there is no list for a new mode.
#[derive(Clone, Copy, Debug, PartialEq, Eq, Error)]
pub enum ChmodFault {
    /// The list would have more than 65,536 ACEs, or more than 65,536 mask bits, over all its ACEs.
    #[error("Limits")]
    Limits,
    /// Memory ran out for the list.
    #[error("out of memory")]
    Memory,
}

impl From<AllocError> for ChmodFault {
    ghost use Rattle.acl_change.specs.declared.mode_change.ChmodFault.TheVariants.{Memory};

    ghost from_gives = { λ _ fault. fault ≡ Memory };

    fn from(_: AllocError) -> ChmodFault {
        ChmodFault::Memory
    }
}

/// Returns the list of an object after its mode is set to `mode` (RFC 8881, section 6.4.1.1). The new list has this
/// mode, as `mode_of` reads it.
///
/// - The owner gets of read, write and execute what the bits of the owner say.
/// - An ACE of a user name or a group name grants of them at most what the bits of the group say.
/// - Everybody else gets what the bits of the group or of others say.
///
/// All other rights are granted as before, new objects inherit what they inherited before, and ACEs with INHERIT_ONLY
/// stay as they are. Fails with `Limits` if and only if the new list would be above a limit, which is checked before
/// memory is requested, and with `Memory` only if it would not and memory runs out. Time is linear in the bytes of the
/// list.
///
/// ```rust
/// let list = parse_text(alloc, b"ALLOW - READ_DATA bob\nALLOW - READ_DATA EVERYONE@")?;
/// let mode = Mode::new(0o640).ok_or("no mode")?;
/// let changed = chmod(alloc, &list.view(), mode)?;
/// assert!(rt; mode_of(changed.aces()) == mode);
/// ```
pub fn chmod(alloc: Global, list: &AclView<'_>, mode: Mode) -> Result<Acl, ChmodFault>
    ensures list { IfOk result (λ new. new ≡ chmod_list mode.bits list.now) }
    ensures accepted { OnOk result (IsAccepted full (chmod_list mode.bits list.now)) }
    ensures mode { IfOk result (λ new. mode_of_list new ≡ mode.bits) }
    // A fault is Limits if the list is not accepted, and Memory if it is.
    ensures limits { IfErr result (λ fault. fault ≡ Limits
        → IsAccepted full (chmod_list mode.bits list.now) → ⊥) }
    ensures memory { IfErr result (λ fault. fault ≡ Memory
        → IsAccepted full (chmod_list mode.bits list.now)) }
{
    if !is_accepted(list, mode) {
        return Err(ChmodFault::Limits);
    }
    Ok(with_mode(alloc, list, mode)?)
}

// Returns whether the new list is accepted. Only the limits can refuse it, because each who in it is from the list or a
// special identifier.
fn is_accepted(list: &AclView<'_>, mode: Mode) -> bool
    ensures { IsTrue result ↔ IsAccepted full (chmod_list mode.bits list.now) }
{
    let owner = owner_aces(mode).size();
    let others = other_aces(mode).size();
    let mut count = owner.count + others.count;
    let mut weight = owner.weight + others.weight;
    for ace in list.aces() {
        let size = after_chmod(&ace, mode).size();
        count += size.count;
        weight += size.weight;
        if !is_within(count, weight) {
            return false;
        }
    }
    true
}

// Returns whether a list may have so many ACEs and so many mask bits.
fn is_within(count: u32, weight: u32) -> bool
    ensures { IsTrue result ↔ ((count ≤ most_aces) × (weight ≤ most_weight)) }
{
    count <= MOST_ACES && weight <= MOST_WEIGHT
}

// Returns the new list, which must be accepted. Fails only if memory runs out.
fn with_mode(alloc: Global, list: &AclView<'_>, mode: Mode) -> Result<Acl, AllocError>
    requires { IsAccepted full (chmod_list mode.bits list.now) }
    ensures { IfOk result (λ new. new ≡ chmod_list mode.bits list.now) }
{
    let mut changed = Acl::new(alloc);
    owner_aces(mode).push_to(&mut changed)?;
    for ace in list.aces() {
        after_chmod(&ace, mode).push_to(&mut changed)?;
    }
    other_aces(mode).push_to(&mut changed)?;
    Ok(changed)
}

// Returns what the mode allows and denies the owner.
fn owner_aces(mode: Mode) -> UpToThree<'static>
    ensures { up_to_three result ≡ owner_aces mode.bits }
{
    let perm = mode.owner();
    UpToThree {
        first: class_ace(Kind::Allow, OWNER_NAME, perm),
        second: class_ace(Kind::Deny, OWNER_NAME, rest_of(perm)),
        third: None,
    }
}

// Returns what the mode allows and denies the group, and what it allows others.
fn other_aces(mode: Mode) -> UpToThree<'static>
    ensures { up_to_three result ≡ other_aces mode.bits }
{
    let perm = mode.group();
    UpToThree {
        first: class_ace(Kind::Allow, GROUP_NAME, perm),
        second: class_ace(Kind::Deny, GROUP_NAME, rest_of(perm)),
        third: class_ace(Kind::Allow, EVERYONE_NAME, mode.others()),
    }
}

// Returns an ACE of a special identifier with the rights of these permissions, or none without permissions.
fn class_ace(kind: Kind, who: &'static str, perm: Perm) -> Option<AceRef<'static>>
    ensures { up_to_one result ≡ class_ace kind who.now perm.bits }
{
    unless_empty(AceRef {
        kind,
        flags: Flags::NONE,
        mask: image(perm),
        who: who.as_bytes(),
    })
}

// Returns what the new list has in place of an ACE.
fn after_chmod<'a>(item: &AceRef<'a>, mode: Mode) -> UpToThree<'a>
    ensures { up_to_three result ≡ after_chmod mode.bits (ace item.now) }
{
    let lost = lost_rights(item, mode);
    if !item.takes_part() || lost.bits == 0 {
        return UpToThree {
            first: Some(*item),
            second: None,
            third: None,
        };
    }
    let denied = denied_rights(item, mode);
    let kept = item.mask.difference(lost);
    UpToThree {
        first: for_new_objects(item),
        second: unless_empty(for_this_object(item, Kind::Deny, denied)),
        third: unless_empty(for_this_object(item, item.kind, kept)),
    }
}

// The rights that the bits of a mode are about.
const MODE_RIGHTS: Mask = Mask {
    bits: Mask::READ_DATA.bits | WRITE_RIGHTS.bits | Mask::EXECUTE.bits,
};

fn lost_rights(item: &AceRef<'_>, mode: Mode) -> Mask
    ensures { result.bits ≡ lost_rights mode.bits (ace item.now) }
{
    if is_special(item.principal()) {
        return item.mask & MODE_RIGHTS;
    }
    match item.kind {
        Kind::Allow => item.mask & image(rest_of(mode.group())),
        Kind::Deny => Mask::NONE,
    }
}

// Returns the rights of an ACE that are denied to its name, because others have them and the group does not.
fn denied_rights(item: &AceRef<'_>, mode: Mode) -> Mask
    ensures { result.bits ≡ denied_rights mode.bits (ace item.now) }
{
    if is_special(item.principal()) {
        return Mask::NONE;
    }
    item.mask & image(mode.others().difference(mode.group()))
}

fn is_special(whom: Principal<'_>) -> bool
    ensures { result ≡ is_unnamed (principal whom.entry) }
{
    matches!(
        whom,
        Principal::Owner | Principal::Group | Principal::Everyone
    )
}

// The flags that are not about new objects.
const NOT_PASSED_ON: Flags = Flags {
    bits: Flags::SUCCESSFUL_ACCESS.bits
        | Flags::FAILED_ACCESS.bits
        | Flags::IDENTIFIER_GROUP.bits
        | Flags::INHERITED.bits,
};

// Returns an ACE of the same who for this object alone.
fn for_this_object<'a>(item: &AceRef<'a>, kind: Kind, mask: Mask) -> AceRef<'a>
    ensures { ace result ≡ for_this_object (ace item.now) kind mask.bits }
{
    AceRef {
        kind,
        flags: item.flags & NOT_PASSED_ON,
        mask,
        who: item.who,
    }
}

// Returns the ACE as it is, for new objects alone, if new objects inherit it.
fn for_new_objects<'a>(item: &AceRef<'a>) -> Option<AceRef<'a>>
    ensures { up_to_one result ≡ for_new_objects (ace item.now) }
{
    if !is_inheritable(item.flags) {
        return None;
    }
    Some(AceRef {
        flags: item.flags | Flags::INHERIT_ONLY,
        ..*item
    })
}

#[tactic(auto, using(acl_eval::proofs::Bits::single_bits))]
fn is_inheritable(flags: Flags) -> bool
    ensures { result ≡ (has_bit flags.bits file_inherit || has_bit flags.bits directory_inherit) }
{
    flags.contains(Flags::FILE_INHERIT) || flags.contains(Flags::DIRECTORY_INHERIT)
}

// Returns an ACE, or none if its mask is empty.
fn unless_empty(item: AceRef<'_>) -> Option<AceRef<'_>>
    ensures { up_to_one result ≡ unless_empty (ace item.entry) }
{
    if item.mask.bits == 0 {
        return None;
    }
    Some(item)
}
