//! The extended attributes in which Linux keeps POSIX ACLs.
ghost use Rattle.std.specs.Prelude.{◌≡◌, ◌+◌, ◌<◌, ◌≤◌, ◌⊎◌, ◌++◌, ◌∷◌, [], None, drop, length, IfErr, IfOk, MatchResult, OnOk, vec_len};
ghost use Rattle.acl_perm.specs.Bits.{all_permissions};
ghost use Rattle.acl_perm.specs.Counts.{count_limit};
ghost use Rattle.acl_posix.specs.Attribute.{NeverFalls, entry_bytes, entry_size, stored_raw};
ghost use Rattle.acl_posix.specs.Entries.{Entries, as_set, pair_of, pairs};
ghost use Rattle.acl_posix.specs.RawEntries.{last_tag_number, raw_pair};
ghost use Rattle.acl_posix.specs.Tag.{is_named, tag_of};
ghost use Rattle.acl_posix.specs.Valid.{IsValidList};
ghost use Rattle.acl_forms.specs.Attributes.{entry_offset, field_fault, id_reason, next_entry_fault, version_fault, AreBytesOf, IsAttributeFault, IsEntriesFault, SpellsAttribute};
ghost use Rattle.acl_forms.specs.ReadFaults.{no_memory_left, read_fault_at};
ghost use Rattle.acl_forms.specs.internal.AttributeEntries.{earlier_fault};
ghost use Rattle.acl_forms.specs.declared.fault.ReadFault.{ReadFault as FaultValue};

use crate::fault::{ReadFault, ReadReason};
use acl_nfs4::Reason;
use acl_perm::Perm;
use acl_posix::internal::{
    ENTRY_SIZE, UNDEFINED_ID, VERSION, VERSION_SIZE, first_fall, stored_raw,
};
use acl_posix::{AclFault, Entry, PosixAcl, RawEntry, Tag};
use byteorder::{ByteOrder, LittleEndian};
use std::alloc::{AllocError, Global};

/// Returns the ACL that all of the bytes spell: the value of `system.posix_acl_access` or `system.posix_acl_default`,
/// which has the ids of users and of groups in any order. The kernel also takes an id twice, and any id in an entry
/// that has no qualifier; such bytes are refused here. It takes time in n log n, and linear time if the ids rise.
///
/// The faults are judged in this order. At byte 0, Truncated: the version is cut short; Version: it is not 2. For each
/// entry, Truncated at its first byte: it is cut short; Tag at its first byte, Permission at its third byte, Id or
/// Qualifier at its fifth byte. Then, at the first byte of the first such entry, Order: its tag type comes before that
/// of the entry before it in canonical order; Multi or Duplicate: an earlier entry has its tag and qualifier. At the
/// end of the bytes, Miss of the first absent of USER_OBJ, GROUP_OBJ, OTHER, and of MASK if there is a USER or GROUP
/// entry. If memory runs out, the reason is Memory.
///
/// ```rust
/// let bytes = b"\x02\0\0\0\x01\0\x06\0\xff\xff\xff\xff\x04\0\x04\0\xff\xff\xff\xff\x20\0\0\0\xff\xff\xff\xff";
/// let acl = read_attribute(alloc, bytes)?;
/// assert!(rt; acl.mode().bits == 0o640);
/// ```
pub fn read_attribute(alloc: Global, bytes: &[u8]) -> Result<PosixAcl, ReadFault>
    ensures found { IfOk result (λ acl. SpellsAttribute acl bytes.now) }
    // If the bytes spell an ACL, that ACL is returned.
    ensures only { (acl : Entries) → SpellsAttribute acl bytes.now
        → MatchResult result (λ read. read ≡ acl) (λ fault. fault ≡ no_memory_left) }
    ensures fault { IfErr result (λ fault. (fault ≡ no_memory_left)
        ⊎ IsAttributeFault bytes.now fault) }
    // Bytes with a fault are refused with that fault.
    ensures refused { (wrong : FaultValue) → IsAttributeFault bytes.now wrong
        → MatchResult result (λ _. ⊥) (λ fault. (fault ≡ no_memory_left) ⊎ (fault ≡ wrong)) }
{
    read_acl(alloc, bytes)
}

fn read_acl(alloc: Global, bytes: &[u8]) -> Result<PosixAcl, ReadFault>
    ensures found { IfOk result (λ acl. SpellsAttribute acl bytes.now) }
    ensures fault { IfErr result (λ fault. (fault ≡ no_memory_left)
        ⊎ IsAttributeFault bytes.now fault) }
{
    if let Some(fault) = version_fault(bytes) {
        return Err(fault);
    }
    let entries = read_entries(alloc.clone()?, bytes)?;
    acl_of(alloc, entries, bytes.len())
}

// Returns the entries after the version, or the first fault of their fields.
fn read_entries(alloc: Global, bytes: &[u8]) -> Result<Vec<Entry>, ReadFault>
    requires { version_fault bytes.now ≡ None }
    ensures entries { IfOk result (λ entries. AreBytesOf (pairs entries.items) bytes.now) }
    ensures fault { IfErr result (λ fault. (fault ≡ no_memory_left)
        ⊎ IsAttributeFault bytes.now fault) }
{
    let mut entries = Vec::new(alloc);
    let mut rest = &bytes[VERSION_SIZE..];
    while !rest.is_empty() {
        let at = (bytes.len() - rest.len()) as u64;
        push(&mut entries, next_entry(rest, at)?)?;
        rest = &rest[ENTRY_SIZE..];
    }
    Ok(entries)
}

fn push(entries: &mut Vec<Entry>, entry: Entry) -> Result<(), AllocError>
    ensures { OnOk result (entries.new.items ≡ entries.old.items ++ entry ∷ []) }
{
    entries.push(entry)?;
    Ok(())
}

// Returns the ACL of the entries in this number of bytes, or what is wrong with their list.
fn acl_of(alloc: Global, entries: Vec<Entry>, len: usize) -> Result<PosixAcl, ReadFault>
    requires { entry_offset (vec_len entries) ≤ len }
    ensures set { IfOk result (λ acl. acl ≡ as_set (pairs entries.items)) }
    ensures order { OnOk result (NeverFalls (pairs entries.items)) }
    ensures valid { OnOk result (IsValidList (pairs entries.items)) }
    ensures fault { IfErr result (λ fault. (fault ≡ no_memory_left)
        ⊎ IsEntriesFault (pairs entries.items) len fault) }
{
    let fall = first_fall(&entries);
    match PosixAcl::from_entries(alloc, entries) {
        Ok(acl) => match fall {
            None => Ok(acl),
            Some(place) => Err(at_entry(place, ReadReason::Order)),
        },
        Err(AclFault::Multi(place)) => Err(earlier(fall, place, ReadReason::Multi)),
        Err(AclFault::Duplicate(place)) => Err(earlier(fall, place, ReadReason::Duplicate)),
        Err(AclFault::Miss(tag)) => match fall {
            None => Err(ReadFault::new(len, ReadReason::Miss(tag))),
            Some(place) => Err(at_entry(place, ReadReason::Order)),
        },
        Err(AclFault::Memory) => Err(ReadFault::new(0, ReadReason::List(Reason::Memory))),
    }
}

// Returns the fault of the entry at a place, or the fall of the tag types if they fall at an earlier place.
fn earlier(fall: Option<usize>, place: usize, reason: ReadReason) -> ReadFault
    requires { entry_offset place < count_limit }
    ensures { result ≡ earlier_fault fall place reason }
{
    match fall {
        Some(fall) if fall <= place => at_entry(fall, ReadReason::Order),
        _ => at_entry(place, reason),
    }
}

fn at_entry(place: usize, reason: ReadReason) -> ReadFault
    requires { entry_offset place < count_limit }
    ensures { result ≡ read_fault_at (entry_offset place) reason }
{
    ReadFault::new(VERSION_SIZE + ENTRY_SIZE * place, reason)
}

// Returns why the version is refused.
fn version_fault(bytes: &[u8]) -> Option<ReadFault>
    ensures { result ≡ version_fault bytes.now }
{
    if bytes.len() < VERSION_SIZE {
        return Some(ReadFault {
            offset: 0,
            reason: ReadReason::List(Reason::Truncated),
        });
    }
    if LittleEndian::read_u32(bytes) != VERSION {
        return Some(ReadFault {
            offset: 0,
            reason: ReadReason::Version,
        });
    }
    None
}

// ---- the fields of an entry

// Reads the entry with which the text at a place begins.
fn next_entry(text: &[u8], at: u64) -> Result<Entry, ReadFault>
    requires { at + length text.now < count_limit }
    ensures entry { IfOk result
        (λ entry. text.now ≡ entry_bytes (pair_of entry) ++ drop entry_size text.now) }
    ensures whole { OnOk result (entry_size ≤ length text.now) }
    ensures fault { IfErr result (λ fault. next_entry_fault at text.now ≡ Some fault) }
{
    if text.len() < ENTRY_SIZE {
        return Err(ReadFault {
            offset: at,
            reason: ReadReason::List(Reason::Truncated),
        });
    }
    entry_of(stored_raw(text), at)
}

// Returns the entry of these numbers, which lie at a place.
#[tactic(auto, unfolding(crate::specs::Attributes::field_fault))]
fn entry_of(raw: RawEntry, at: u64) -> Result<Entry, ReadFault>
    requires room { at + entry_size < count_limit }
    requires known { raw.tag ≤ last_tag_number }
    ensures entry { IfOk result (λ entry. pair_of entry ≡ raw_pair raw) }
    ensures right { OnOk result (field_fault at raw ≡ None) }
    ensures fault { IfErr result (λ fault. field_fault at raw ≡ Some fault) }
{
    if raw.tag == 0 {
        return Err(ReadFault {
            offset: at,
            reason: ReadReason::Tag,
        });
    }
    if raw.perm > Perm::ALL.bits as u32 {
        return Err(ReadFault {
            offset: at + 2,
            reason: ReadReason::Permission,
        });
    }
    match identified(raw) {
        Ok(entry) => Ok(entry),
        Err(reason) => Err(ReadFault {
            offset: at + 4,
            reason,
        }),
    }
}

fn identified(raw: RawEntry) -> Result<Entry, ReadReason>
    requires some { 0 < raw.tag }
    requires known { raw.tag ≤ last_tag_number }
    requires perm { raw.perm ≤ all_permissions }
    ensures entry { IfOk result (λ entry. pair_of entry ≡ raw_pair raw) }
    ensures right { OnOk result (id_reason raw ≡ None) }
    ensures fault { IfErr result (λ reason. id_reason raw ≡ Some reason) }
{
    match raw.entry() {
        Err(_) => Err(ReadReason::Id),
        Ok(entry) => {
            if raw.id != UNDEFINED_ID && !is_named(entry.tag) {
                return Err(ReadReason::Qualifier);
            }
            Ok(entry)
        }
    }
}

fn is_named(tag: Tag) -> bool
    ensures { result ≡ is_named (tag_of tag) }
{
    matches!(tag, Tag::User(_) | Tag::Group(_))
}
