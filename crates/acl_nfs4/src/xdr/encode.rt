//! Writes the bytes of a list to a sink or into memory.
ghost use Rattle.std.specs.Prelude.{◌≡◌, ◌<◌, IfOk, length};
ghost use Rattle.acl_perm.specs.Pieces.{Writes};
ghost use Rattle.acl_perm.specs.Profile.{full};
ghost use Rattle.acl_nfs4.specs.Limits.{spelling_limit};
ghost use Rattle.acl_nfs4.specs.Programs.{WritesAsRead};
ghost use Rattle.acl_nfs4.specs.Spelling.{Xdr, spelling, word};

use crate::list::acl::Acl;
use crate::xdr::view::AclView;
use acl_perm::{Sink, WriteFault, put_all};
use byteorder::{BigEndian, ByteOrder};
use std::alloc::{AllocError, Global};

impl Acl {
    /// Returns the number of bytes that spell the list, which `encode` writes, in constant time.
    pub fn encoded_len(&self) -> u64
        ensures value { result ≡ length (spelling self.now) }
        ensures small { result < spelling_limit }
    {
        self.view().encoded_len()
    }

    /// Returns the bytes that spell the list, which `encode` writes, in time linear in their number and with one
    /// allocation. Fails only if memory runs out.
    pub fn to_bytes(&self, alloc: Global) -> Result<Vec<u8>, AllocError>
        ensures { IfOk result (λ bytes. bytes.items ≡ spelling self.now) }
    {
        self.view().to_bytes(alloc)
    }

    /// Writes the bytes that spell the list, the same from which a list was read (RFC 4506 over RFC 8881, section
    /// 6.2.1), without memory. It ends at the first write that fails: then `written` bytes went out. It tries nothing
    /// again.
    ///
    /// ```rust
    /// let list = parse_text(alloc, b"ALLOW - READ_DATA OWNER@")?;
    /// let mut room = [0u8; 28];
    /// list.encode(&mut Counted::new(room.as_mut_slice()))?;
    /// assert!(rt; AclView::parse_whole(&room)?.len() == 1);
    /// ```
    pub fn encode<K: Sink>(&self, sink: &mut K) -> Result<(), WriteFault>
        ensures written { Writes K.contents K.failure_count sink.old sink.new
            (spelling self.now) result }
        // If the list was read from bytes, the same bytes are written.
        ensures read { WritesAsRead (K.contents sink.old) (K.contents sink.new) self.now result }
        // The bytes that are written spell the list, and are read again as this list.
        ensures again { Xdr full self.now (spelling self.now) }
    {
        self.view().encode(sink)
    }
}

impl<'a> AclView<'a> {
    /// Returns the number of bytes that spell the list, which `encode` writes, in constant time.
    #[tactic(auto, using(crate::proofs::xdr::Lengths::list_len, crate::proofs::xdr::Lengths::list_short))]
    pub fn encoded_len(&self) -> u64
        ensures value { result ≡ length (spelling self.now) }
        ensures small { result < spelling_limit }
    {
        4 + self.body.len() as u64
    }

    /// Returns the bytes that spell the list, which `encode` writes, in time linear in their number and with one
    /// allocation. Fails only if memory runs out.
    pub fn to_bytes(&self, alloc: Global) -> Result<Vec<u8>, AllocError>
        ensures { IfOk result (λ bytes. bytes.items ≡ spelling self.now) }
    {
        let mut bytes = Vec::with_capacity(alloc, self.encoded_len() as usize)?;
        bytes.extend_from_slice(&count_word(self.count))?;
        bytes.extend_from_slice(self.body)?;
        Ok(bytes)
    }

    /// Writes the bytes that spell the list, the same from which a list was read (RFC 4506 over RFC 8881, section
    /// 6.2.1), without memory. It ends at the first write that fails: then `written` bytes went out. It tries nothing
    /// again.
    pub fn encode<K: Sink>(&self, sink: &mut K) -> Result<(), WriteFault>
        ensures written { Writes K.contents K.failure_count sink.old sink.new
            (spelling self.now) result }
        ensures read { WritesAsRead (K.contents sink.old) (K.contents sink.new) self.now result }
        ensures again { Xdr full self.now (spelling self.now) }
    {
        put_all(sink, &count_word(self.count))?;
        match put_all(sink, self.body) {
            Ok(()) => Ok(()),
            Err(fault) => Err(WriteFault {
                written: 4 + fault.written,
            }),
        }
    }
}

/// Returns the word with which a list begins.
pub(crate) fn count_word(count: u32) -> [u8; 4]
    ensures { result ≡ word count }
{
    let mut bytes = [0u8; 4];
    BigEndian::write_u32(&mut bytes, count);
    bytes
}
