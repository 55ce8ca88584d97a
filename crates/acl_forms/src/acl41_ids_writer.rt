//! Writes lists whose users and groups are ids, as Samba keeps them.
ghost use Rattle.std.specs.Prelude.{◌++◌, ◌≡◌, ◌≤◌, ℕ, None, OnErr, OnOk, Some, length, option_map};
ghost use Rattle.std.specs.Fmt.{decimal};
ghost use Rattle.std.specs.List.{flat_map};
ghost use Rattle.std.specs.Str.{bytes_eq};
ghost use Rattle.acl_perm.specs.Devices.{one_more};
ghost use Rattle.acl_perm.specs.Pieces.{WritesFrom};
ghost use Rattle.acl_posix.specs.Id.{IsId};
ghost use Rattle.acl_nfs4.specs.Ace.{ace};
ghost use Rattle.acl_nfs4.specs.Limits.{most_aces};
ghost use Rattle.acl_nfs4.specs.Spelling.{word};
ghost use Rattle.acl_forms.specs.Acl41Ids.{acl41_ids_bytes, acl41_ids_fault, id_of_digits, id_piece, whom_words};
ghost use Rattle.acl_forms.specs.FormWrites.{WritesIfHeld};
ghost use Rattle.acl_forms.specs.Words.{head_size};

use crate::acl_flags::AclFlags;
use crate::fault::{FormFault, FormReason};
use crate::form_write::FormWriteFault;
use acl_nfs4::internal::{EVERYONE_NAME, GROUP_NAME, OWNER_NAME};
use acl_nfs4::{AceRef, Aces, AclView, Sink, WriteFault};
use acl_perm::internal::put_next;
use acl_posix::Id;
use byteorder::{BigEndian, ByteOrder};
use itoa::Buffer;

/// Writes the bytes of flags and a list, if `acl41_ids_fault` returns `None`: nfsacl41i, without memory. It ends at the
/// first write that fails: then `written` bytes went out. It tries nothing again. Time linear in the bytes.
///
/// ```rust
/// let list = parse_text(alloc, b"ALLOW - READ_DATA 1001")?;
/// let mut room = [0u8; 28];
/// write_acl41_ids(AclFlags::NONE, &list.view(), &mut Counted::new(room.as_mut_slice()))?;
/// assert!(rt; room == *b"\0\0\0\0\0\0\0\x01\0\0\0\0\0\0\0\0\0\0\0\0\0\0\0\x01\0\0\x03\xe9");
/// ```
pub fn write_acl41_ids<K: Sink>(
    flags: AclFlags,
    list: &AclView<'_>,
    sink: &mut K,
) -> Result<(), FormWriteFault>
    ensures { WritesIfHeld K.contents K.failure_count sink.old sink.new (acl41_ids_fault list.now)
        (acl41_ids_bytes flags.bits list.now) result }
{
    if let Some(fault) = acl41_ids_fault(list) {
        return Err(FormWriteFault::Form(fault));
    }
    put_ids(flags, list, sink)?;
    Ok(())
}

/// Returns why the form does not hold the list: NoId, with the number of the first ACE whose who is no special
/// identifier and not the decimal digits of an id. Returns `None` if the form holds it. Time linear in the bytes.
///
/// ```rust
/// let list = parse_text(alloc, b"ALLOW - READ_DATA 1001\nALLOW - READ_DATA alice")?;
/// let fault = acl41_ids_fault(&list.view());
/// assert!(rt; fault == Some(FormFault { place: 1, reason: FormReason::NoId }));
/// ```
pub fn acl41_ids_fault(list: &AclView<'_>) -> Option<FormFault>
    ensures { result ≡ acl41_ids_fault list.now }
{
    first_fault(list.aces())
}

#[tactic(auto, using(crate::proofs::FormLemmas::fault_from_start))]
fn first_fault(aces: Aces<'_>) -> Option<FormFault>
    requires { length aces ≤ most_aces }
    ensures { result ≡ acl41_ids_fault aces.entry }
{
    let mut place = 0;
    for ace in aces {
        if who_words(ace.who).is_none() {
            return Some(FormFault {
                place,
                reason: FormReason::NoId,
            });
        }
        place += 1;
    }
    None
}

// Writes the bytes of a list that the form holds, and returns how many they are.
fn put_ids<K: Sink>(flags: AclFlags, list: &AclView<'_>, sink: &mut K) -> Result<u64, WriteFault>
    requires { acl41_ids_fault list.now ≡ None }
    ensures written { WritesFrom (K.contents sink.old) (K.contents sink.new) 0
        (acl41_ids_bytes flags.bits list.now) result }
    ensures none_failed { OnOk result (K.failure_count sink.new ≡ K.failure_count sink.old) }
    ensures failed { OnErr result (K.failure_count sink.new ≡ one_more (K.failure_count sink.old)) }
{
    let aces = list.aces();
    let done = put_next(sink, 0, &head_of(flags, list.len() as u32))?;
    put_entries(sink, done, aces)
}

// Returns the words before the ACEs.
fn head_of(flags: AclFlags, count: u32) -> [u8; 8]
    ensures { result ≡ word flags.bits ++ word count }
{
    let mut bytes = [0u8; 8];
    BigEndian::write_u32(&mut bytes, flags.bits());
    BigEndian::write_u32(&mut bytes[4..], count);
    bytes
}

// Writes the ACEs after the words before them, and returns how many bytes are out then.
fn put_entries<K: Sink>(sink: &mut K, start: u64, aces: Aces<'_>) -> Result<u64, WriteFault>
    requires ids { acl41_ids_fault aces ≡ None }
    requires few { length aces ≤ most_aces }
    requires first { start ≤ head_size }
    ensures written { WritesFrom (K.contents sink.old) (K.contents sink.new) start
        (flat_map id_piece aces.entry) result }
    ensures none_failed { OnOk result (K.failure_count sink.new ≡ K.failure_count sink.old) }
    ensures failed { OnErr result (K.failure_count sink.new ≡ one_more (K.failure_count sink.old)) }
{
    let mut done = start;
    for ace in aces {
        done = put_next(sink, done, &entry_of(ace))?;
    }
    Ok(done)
}

// Returns the bytes of an ACE. Without an id it has the words 0 and 0.
fn entry_of(item: AceRef<'_>) -> [u8; 20]
    ensures { result ≡ id_piece (ace item.entry) }
{
    let (special, number) = who_words(item.who).unwrap_or((0, 0));
    let mut bytes = [0u8; 20];
    BigEndian::write_u32(&mut bytes, item.kind.number());
    BigEndian::write_u32(&mut bytes[4..], u32::from(item.flags.bits()));
    BigEndian::write_u32(&mut bytes[8..], special);
    BigEndian::write_u32(&mut bytes[12..], item.mask.bits());
    BigEndian::write_u32(&mut bytes[16..], number);
    bytes
}

// Returns the two words of a who: 1 and the number of a special identifier, or 0 and an id.
#[tactic(auto, unfolding(crate::specs::Acl41Ids::whom_words))]
fn who_words(who: &[u8]) -> Option<(u32, u32)>
    ensures { result ≡ whom_words who.now }
{
    if who == OWNER_NAME.as_bytes() {
        Some((1, 1))
    } else if who == GROUP_NAME.as_bytes() {
        Some((1, 2))
    } else if who == EVERYONE_NAME.as_bytes() {
        Some((1, 3))
    } else {
        id_in_digits(who).map(|id| (0, id.value()))
    }
}

/// Returns the id whose decimal digits the who is.
pub(crate) fn id_in_digits(who: &[u8]) -> Option<Id>
    ensures { option_map (λ id. id.value) result ≡ id_of_digits who.now }
{
    match parsed_id(who) {
        None => None,
        Some(id) => {
            if is_digits_of(who, id) {
                Some(id)
            } else {
                None
            }
        }
    }
}

// Returns whether the who is the decimal digits of the id. A who with a sign or with zeros before its digits is not.
fn is_digits_of(who: &[u8], id: Id) -> bool
    ensures { result ≡ bytes_eq who.now (decimal id.value) }
{
    let mut digits = Buffer::new();
    who == digits.format(id.value()).as_bytes()
}

// Returns the id that the who spells, perhaps with a sign or with zeros before its digits.
fn parsed_id(who: &[u8]) -> Option<Id>
    ensures { (n : ℕ) → IsId n → who.now ≡ decimal n
        → option_map (λ id. id.value) result ≡ Some n }
{
    match str::from_utf8(who) {
        Ok(text) => id_of_text(text),
        Err(_) => None,
    }
}

fn id_of_text(text: &str) -> Option<Id>
    ensures { (n : ℕ) → IsId n → text.now ≡ decimal n
        → option_map (λ id. id.value) result ≡ Some n }
{
    match text.parse::<u32>() {
        Ok(number) => Id::new(number),
        Err(_) => None,
    }
}
