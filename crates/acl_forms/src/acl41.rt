//! Lists with flags, as the attribute dacl has them.
ghost use Rattle.std.specs.Prelude.{◌≡◌, ◌+◌, ◌⊎◌, ℕ, Err, IfErr, IfOk, IsOkAnd, List, length};
ghost use Rattle.acl_perm.specs.Pieces.{Writes};
ghost use Rattle.acl_perm.specs.Profile.{full};
ghost use Rattle.acl_nfs4.specs.Ace.{Ace};
ghost use Rattle.acl_nfs4.specs.Fault.{IsWholeFault};
ghost use Rattle.acl_nfs4.specs.Spelling.{Xdr, word, word_size};
ghost use Rattle.acl_nfs4.specs.declared.xdr.fault.Reason.{Reason};
ghost use Rattle.acl_forms.specs.Acl41.{IsAcl41, IsAcl41Fault, acl41_bytes};
ghost use Rattle.acl_forms.specs.ReadFaults.{no_memory_left};
ghost use Rattle.acl_forms.specs.Words.{IfForm, ReadsForm, RefusesForm};
ghost use Rattle.acl_forms.specs.declared.fault.ReadFault.{ReadFault};
ghost use Rattle.acl_forms.specs.declared.fault.ReadReason.TheVariants as reason;

use crate::acl_flags::AclFlags;
use crate::fault::{ReadFault, ReadReason};
use crate::words::{acl_flags, start};
use acl_nfs4::{Acl, AclView, Sink, WriteFault};
use acl_perm::put_all;
use byteorder::{BigEndian, ByteOrder};
use std::alloc::Global;

/// Returns the flags and the list that all of the bytes spell: nfsacl41, the value of the attribute dacl (RFC 8881,
/// section 6.2.2), which Linux clients show as `system.nfs4_dacl`. Fails with the fault of the first field that is
/// refused, at its first byte: AclFlagBits for the flags, and otherwise as `AclView::parse_whole` does, with offsets
/// that are 4 higher; and with Memory if memory runs out. Time linear in the bytes, and one allocation.
///
/// ```rust
/// let bytes = b"\0\0\0\x02\0\0\0\x01\0\0\0\0\0\0\0\0\0\0\0\x01\0\0\0\x06OWNER@\0\0";
/// let (flags, list) = read_acl41(alloc, bytes)?;
/// assert!(rt; flags == AclFlags::PROTECTED);
/// assert!(rt; list.len() == 1);
/// ```
pub fn read_acl41(alloc: Global, bytes: &[u8]) -> Result<(AclFlags, Acl), ReadFault>
    ensures found { IfForm result (λ flags list. IsAcl41 flags list bytes.now) }
    // If the bytes spell flags and a list, these are returned.
    ensures only { (flags : ℕ) (list : List Ace) → IsAcl41 flags list bytes.now
        → ReadsForm result flags list }
    ensures fault { IfErr result (λ fault. (fault ≡ no_memory_left)
        ⊎ IsAcl41Fault bytes.now fault) }
    // Bytes with a fault are refused with that fault.
    ensures refused { (wrong : ReadFault) → IsAcl41Fault bytes.now wrong
        → RefusesForm result wrong }
{
    let mut cursor = start(bytes);
    let flags = acl_flags(&mut cursor)?;
    let view = list_after_flags(cursor.rest)?;
    let list = Acl::from_view(alloc, &view)?;
    Ok((flags, list))
}

// Returns the list of the bytes after the flags. The offset of a fault counts from the flags.
fn list_after_flags(text: &[u8]) -> Result<AclView<'_>, ReadFault>
    ensures found { IfOk result (λ list. Xdr full list text.now) }
    ensures only { (list : List Ace) → Xdr full list text.now → IsOkAnd result (λ x. x ≡ list) }
    ensures fault { IfErr result (λ fault. (offset : ℕ) × (r : Reason)
        × IsWholeFault full text.now offset r
        × (fault ≡ record { offset = word_size + offset; reason = reason.List r })) }
    ensures refused { (offset : ℕ) (r : Reason) → IsWholeFault full text.now offset r
        → result ≡ Err (record { offset = word_size + offset; reason = reason.List r }) }
{
    match AclView::parse_whole(text) {
        Ok(view) => Ok(view),
        Err(fault) => Err(ReadFault {
            offset: 4 + fault.offset,
            reason: ReadReason::List(fault.reason),
        }),
    }
}

/// Writes the bytes of flags and a list: nfsacl41 (RFC 8881, section 6.2.2), without memory. It ends at the first write
/// that fails: then `written` bytes went out. It tries nothing again. Time linear in the bytes.
///
/// ```rust
/// let list = parse_text(alloc, b"ALLOW - READ_DATA OWNER@")?;
/// let mut room = [0u8; 32];
/// write_acl41(AclFlags::PROTECTED, &list.view(), &mut Counted::new(room.as_mut_slice()))?;
/// assert!(rt; read_acl41(alloc, &room)? == (AclFlags::PROTECTED, list));
/// ```
pub fn write_acl41<K: Sink>(
    flags: AclFlags,
    list: &AclView<'_>,
    sink: &mut K,
) -> Result<(), WriteFault>
    ensures { Writes K.contents K.failure_count sink.old sink.new
        (acl41_bytes flags.bits list.now) result }
{
    put_all(sink, &flags_word(flags))?;
    match list.encode(sink) {
        Ok(()) => Ok(()),
        Err(fault) => Err(WriteFault {
            written: 4 + fault.written,
        }),
    }
}

pub(crate) fn flags_word(flags: AclFlags) -> [u8; 4]
    ensures { result ≡ word flags.bits }
{
    let mut bytes = [0u8; 4];
    BigEndian::write_u32(&mut bytes, flags.bits());
    bytes
}
