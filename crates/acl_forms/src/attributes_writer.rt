//! Writes POSIX ACLs as the extended attributes in which Linux keeps them.
ghost use Rattle.std.specs.Prelude.{◌+◌, ◌++◌, ◌<◌, ◌≡◌, OnErr, OnOk, length};
ghost use Rattle.std.specs.List.{flat_map};
ghost use Rattle.acl_perm.specs.Counts.{count_limit};
ghost use Rattle.acl_perm.specs.Devices.{one_more};
ghost use Rattle.acl_perm.specs.Pieces.{Writes, WritesFrom};
ghost use Rattle.acl_posix.specs.Attribute.{attribute_bytes, entry_bytes};
ghost use Rattle.acl_posix.specs.Entries.{pairs};

use acl_nfs4::{Sink, WriteFault};
use acl_perm::internal::put_next;
use acl_posix::internal::{entry_bytes, version_bytes};
use acl_posix::{Entry, PosixAcl};

/// Writes the value of `system.posix_acl_access` or `system.posix_acl_default` that holds this ACL, as libacl writes
/// it, without memory. It ends at the first write that fails: then `written` bytes went out. It tries nothing again.
/// Linear time. The kernel takes at most 65,536 bytes, which 8,191 entries fill.
///
/// ```rust
/// let acl = PosixAcl::of_mode(alloc, Mode { bits: 0o640 })?;
/// let mut room = [0u8; 28];
/// write_attribute(&acl, &mut Counted::new(room.as_mut_slice()))?;
/// assert!(rt; read_attribute(alloc, &room)? == acl);
/// ```
pub fn write_attribute<K: Sink>(acl: &PosixAcl, sink: &mut K) -> Result<(), WriteFault>
    ensures { Writes K.contents K.failure_count sink.old sink.new (attribute_bytes acl.now) result }
{
    put_attribute(acl, sink)?;
    Ok(())
}

// Writes the bytes of an ACL, and returns how many they are.
fn put_attribute<K: Sink>(acl: &PosixAcl, sink: &mut K) -> Result<u64, WriteFault>
    ensures written { WritesFrom (K.contents sink.old) (K.contents sink.new) 0
        (attribute_bytes acl.now) result }
    ensures none_failed { OnOk result (K.failure_count sink.new ≡ K.failure_count sink.old) }
    ensures failed { OnErr result (K.failure_count sink.new ≡ one_more (K.failure_count sink.old)) }
{
    let entries = acl.entries();
    let done = put_next(sink, 0, &version_bytes())?;
    put_entries(sink, done, entries)
}

// Writes the entries after the first bytes, and returns how many bytes are out then.
fn put_entries<K: Sink>(sink: &mut K, start: u64, entries: &[Entry]) -> Result<u64, WriteFault>
    requires { start + length (flat_map entry_bytes (pairs entries.now)) < count_limit }
    ensures written { WritesFrom (K.contents sink.old) (K.contents sink.new) start
        (flat_map entry_bytes (pairs entries.now)) result }
    ensures none_failed { OnOk result (K.failure_count sink.new ≡ K.failure_count sink.old) }
    ensures failed { OnErr result (K.failure_count sink.new ≡ one_more (K.failure_count sink.old)) }
{
    let mut done = start;
    for entry in entries {
        done = put_next(sink, done, &entry_bytes(*entry))?;
    }
    Ok(done)
}
