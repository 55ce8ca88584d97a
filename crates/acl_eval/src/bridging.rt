//! The NFSv4 list of a POSIX ACL. It is made part by part, after its weight is known.
ghost use Rattle.std.specs.Prelude.{◌≡◌, ◌≤◌, ◌↔◌, ◌==◌, ◌-◌, IsTrue, IfErr, IfOk, OnOk, [], ◌∷◌, ◌++◌, bit_and, if◌then◌else◌};
ghost use Rattle.std.specs.FinMap as set;
ghost use Rattle.acl_perm.specs.Bits.{all_permissions};
ghost use Rattle.acl_perm.specs.Profile.{full};
ghost use Rattle.acl_posix.specs.Tag.{tag_of};
ghost use Rattle.acl_posix.specs.Entries.{pair_of};
ghost use Rattle.acl_nfs4.specs.Spelling.{IsAccepted};
ghost use Rattle.acl_eval.specs.Bridge.{IsBridgeFault, ace_of, allow_of, bridge_list, decide_of, deny_of, bridged_flags, image, is_group_tag, is_other_tag, is_user_tag, bridged_who};
ghost use Rattle.acl_eval.specs.internal.BridgeBody.{cost_of, bridged_part, word_bits};

use crate::permissions::{EXECUTE, READ, WRITE, WRITE_RIGHTS};
use acl_nfs4::internal::{EVERYONE_NAME, GROUP_NAME, OWNER_NAME, is_too_heavy};
use acl_nfs4::{AceRef, Acl, Flags, Kind, Mask};
use acl_perm::Perm;
use acl_posix::{Entry, PosixAcl, Tag};
use itoa::Buffer;
use std::alloc::{AllocError, Global};
use thiserror::Error;

/// Why there is no list for a POSIX ACL.
#[derive(Clone, Copy, Debug, PartialEq, Eq, Error)]
pub enum BridgeFault {
    /// The list would have more than 65,536 ACEs, or more than 65,536 mask bits, over all its ACEs.
    #[error("Limits")]
    Limits,
    /// Memory ran out for the list.
    #[error("out of memory")]
    Memory,
}

impl From<AllocError> for BridgeFault {
    ghost use Rattle.std.specs.Prelude.{◌≡◌};
    ghost use Rattle.acl_eval.specs.declared.bridging.BridgeFault.TheVariants.{Memory};

    ghost from_gives = { λ fault own. own ≡ Memory };

    fn from(_fault: AllocError) -> BridgeFault {
        BridgeFault::Memory
    }
}

/// The parts of the list. Each part is made from all entries.
#[derive(Clone, Copy)]
enum ListPart {
    Users,
    GroupAllows,
    GroupDenies,
    Others,
}

/// Returns the NFSv4 list of a POSIX access ACL (this library's own: neither RFC 8881 nor acl(5) has one), if and only
/// if that list is accepted, unless memory runs out. It has what USER_OBJ and each USER allow and deny, then what
/// GROUP_OBJ and each GROUP allow, then what these deny, then what OTHER allows. Groups deny after all groups have
/// allowed, because acl(5), "ACCESS CHECK ALGORITHM", asks whether the entry of any group grants. Permissions are the
/// effective ones. Read is READ_DATA, write is WRITE_DATA and APPEND_DATA, execute is EXECUTE, and names are decimal
/// ids. Fails with `Limits` if the list would be above a limit, which is checked before memory is requested, and with
/// `Memory` if memory runs out. Time is linear in the number of entries.
///
/// ```rust
/// let file = parse(alloc, b"u::rw-,g::r--,o::---", &Names::new(alloc))?;
/// let list = bridge(alloc, &file.access)?;
/// assert_eq!(rt; mode_of(list.aces()).bits(), 0o640);
/// ```
pub fn bridge(alloc: Global, acl: &PosixAcl) -> Result<Acl, BridgeFault>
    ensures list { IfOk result (λ list. list ≡ bridge_list acl.now) }
    ensures accepted { OnOk result (IsAccepted full (bridge_list acl.now)) }
    // Limits is returned if and only if the list is not accepted. For such a list Memory is never returned.
    ensures fault { IfErr result (IsBridgeFault (bridge_list acl.now)) }
{
    if !is_within(acl) {
        return Err(BridgeFault::Limits);
    }
    Ok(bridged(alloc, acl)?)
}

// Returns the list, which must be accepted. Fails only if memory runs out.
fn bridged(alloc: Global, acl: &PosixAcl) -> Result<Acl, AllocError>
    requires { IsAccepted full (bridge_list acl.now) }
    ensures { IfOk result (λ list. list ≡ bridge_list acl.now) }
{
    let mut list = Acl::new(alloc);
    push_part(&mut list, acl, ListPart::Users)?;
    push_part(&mut list, acl, ListPart::GroupAllows)?;
    push_part(&mut list, acl, ListPart::GroupDenies)?;
    push_part(&mut list, acl, ListPart::Others)?;
    Ok(list)
}

// Returns whether the list is within the limits. Its weight decides this, because no ACE has an empty mask.
fn is_within(acl: &PosixAcl) -> bool
    ensures { IsTrue result ↔ IsAccepted full (bridge_list acl.now) }
{
    let entries = acl.entries();
    let mut weight = 0;
    for entry in entries {
        weight += cost_of(*entry);
        if is_too_heavy(weight) {
            return false;
        }
    }
    true
}

// Returns the number of mask bits of an entry, over all its ACEs.
fn cost_of(entry: Entry) -> u32
    ensures cost { result ≡ cost_of (tag_of entry.tag) entry.perm.bits }
    ensures small { result ≤ word_bits }
{
    match entry.tag {
        Tag::UserObj | Tag::User(_) | Tag::GroupObj | Tag::Group(_) => 4,
        Tag::Mask => 0,
        Tag::Other => image(entry.perm).bits.count_ones(),
    }
}

// Adds one part of the list. It is inlined for each part, so that an entry of another part costs only a test.
#[inline(always)]
fn push_part(list: &mut Acl, acl: &PosixAcl, part: ListPart) -> Result<(), AllocError>
    requires { IsAccepted full (list.old ++ bridged_part acl.now part (set.entries acl.now)) }
    ensures { OnOk result (list.new ≡ list.old ++ bridged_part acl.now part (set.entries acl.now)) }
{
    let entries = acl.entries();
    for entry in entries {
        push_entry(list, acl, *entry, part)?;
    }
    Ok(())
}

// Adds the ACEs that one entry has in a part. In most parts it has none.
#[inline(always)]
fn push_entry(
    list: &mut Acl,
    acl: &PosixAcl,
    entry: Entry,
    part: ListPart,
) -> Result<(), AllocError>
    requires { IsAccepted full (list.old ++ bridged_part acl.now part (pair_of entry ∷ [])) }
    ensures { OnOk result (list.new ≡ list.old ++ bridged_part acl.now part (pair_of entry ∷ [])) }
{
    match part {
        ListPart::Users if is_user_tag(entry.tag) => push_decided(list, acl, entry),
        ListPart::GroupAllows if is_group_tag(entry.tag) => push_allowed(list, acl, entry),
        ListPart::GroupDenies if is_group_tag(entry.tag) => push_denied(list, acl, entry),
        ListPart::Others if is_other_tag(entry.tag) => push_allowed(list, acl, entry),
        _ => Ok(()),
    }
}

fn is_user_tag(tag: Tag) -> bool
    ensures { result ≡ is_user_tag (tag_of tag) }
{
    matches!(tag, Tag::UserObj | Tag::User(_))
}

fn is_group_tag(tag: Tag) -> bool
    ensures { result ≡ is_group_tag (tag_of tag) }
{
    matches!(tag, Tag::GroupObj | Tag::Group(_))
}

fn is_other_tag(tag: Tag) -> bool
    ensures { result ≡ is_other_tag (tag_of tag) }
{
    matches!(tag, Tag::Other)
}

// Adds what an entry allows, and then what it denies. Its name is written once for both.
fn push_decided(list: &mut Acl, acl: &PosixAcl, entry: Entry) -> Result<(), AllocError>
    requires { IsAccepted full (list.old ++ decide_of acl.now (pair_of entry)) }
    ensures { OnOk result (list.new ≡ list.old ++ decide_of acl.now (pair_of entry)) }
{
    let mut digits = Buffer::new();
    let who = who_of(entry.tag, &mut digits);
    let allowed = acl.effective(entry);
    push_ace(list, Kind::Allow, entry.tag, allowed, who)?;
    push_ace(list, Kind::Deny, entry.tag, rest_of(allowed), who)
}

// Adds the ALLOW of an entry, or nothing if the entry allows nothing.
fn push_allowed(list: &mut Acl, acl: &PosixAcl, entry: Entry) -> Result<(), AllocError>
    requires { IsAccepted full (list.old ++ allow_of acl.now (pair_of entry)) }
    ensures { OnOk result (list.new ≡ list.old ++ allow_of acl.now (pair_of entry)) }
{
    let mut digits = Buffer::new();
    let who = who_of(entry.tag, &mut digits);
    push_ace(list, Kind::Allow, entry.tag, acl.effective(entry), who)
}

// Adds the DENY of an entry, or nothing if the entry allows all permissions.
fn push_denied(list: &mut Acl, acl: &PosixAcl, entry: Entry) -> Result<(), AllocError>
    requires { IsAccepted full (list.old ++ deny_of acl.now (pair_of entry)) }
    ensures { OnOk result (list.new ≡ list.old ++ deny_of acl.now (pair_of entry)) }
{
    let mut digits = Buffer::new();
    let who = who_of(entry.tag, &mut digits);
    push_ace(
        list,
        Kind::Deny,
        entry.tag,
        rest_of(acl.effective(entry)),
        who,
    )
}

/// Returns the permissions that are denied if these are allowed.
pub fn rest_of(perm: Perm) -> Perm
    ensures { result.bits ≡ all_permissions - perm.bits }
{
    Perm::ALL.difference(perm)
}

// Adds the ACE of a tag with its name and these permissions. If there are no permissions, it adds no ACE, so no ACE has
// an empty mask.
fn push_ace(list: &mut Acl, kind: Kind, tag: Tag, perm: Perm, who: &[u8]) -> Result<(), AllocError>
    requires named { who.now ≡ bridged_who (tag_of tag) }
    requires accepted { IsAccepted full (list.old ++ ace_of kind (tag_of tag) perm.bits) }
    ensures { OnOk result (list.new ≡ list.old ++ ace_of kind (tag_of tag) perm.bits) }
{
    if perm.bits == 0 {
        return Ok(());
    }
    list.push_accepted(AceRef {
        kind,
        flags: flags_of(tag),
        mask: image(perm),
        who,
    })
}

// Returns the name of the ACEs of a tag. The digits of an id are written into the buffer.
fn who_of<'a>(tag: Tag, digits: &'a mut Buffer) -> &'a [u8]
    ensures { result.now ≡ bridged_who (tag_of tag) }
{
    match tag {
        Tag::UserObj => OWNER_NAME.as_bytes(),
        Tag::User(id) | Tag::Group(id) => digits.format(id.value()).as_bytes(),
        Tag::GroupObj => GROUP_NAME.as_bytes(),
        Tag::Mask => b"",
        Tag::Other => EVERYONE_NAME.as_bytes(),
    }
}

fn flags_of(tag: Tag) -> Flags
    ensures { result.bits ≡ bridged_flags (tag_of tag) }
{
    match tag {
        Tag::Group(_) => Flags::IDENTIFIER_GROUP,
        Tag::UserObj | Tag::User(_) | Tag::GroupObj | Tag::Mask | Tag::Other => Flags::NONE,
    }
}

/// Returns the rights of each permission in the set, together.
pub fn image(perm: Perm) -> Mask
    ensures { result.bits ≡ image perm.bits }
{
    rights_of(perm, READ, Mask::READ_DATA)
        | rights_of(perm, WRITE, WRITE_RIGHTS)
        | rights_of(perm, EXECUTE, Mask::EXECUTE)
}

// Returns the rights of one permission if it is in the set, and otherwise no rights.
fn rights_of(perm: Perm, permission: Perm, rights: Mask) -> Mask
    ensures { result.bits
        ≡ (if bit_and perm.bits permission.bits == permission.bits then rights.bits else 0) }
{
    if perm.contains(permission) {
        rights
    } else {
        Mask::NONE
    }
}
