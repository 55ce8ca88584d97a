//! Reads and writes of whole texts.
ghost use Rattle.std.specs.Prelude.{◌≡◌, ◌<◌, ◌≤◌, IfNone, IfOk, IfSome, OnOk, OnSome, length, take};
ghost use Rattle.std.specs.Io.KnownBytes.{Appends, IsAtEnd, Keeps};
ghost use Rattle.acl_perm.specs.Devices.{one_more};
ghost use Rattle.acl_perm.specs.Pieces.{Writes};
ghost use Rattle.acl_perm.specs.declared.whole.InputFault.{InputFault};

use crate::devices::{Sink, Source};
use std::alloc::{AllocError, Global};
use thiserror::Error;

/// A write failed after `written` bytes. These are the first bytes of the text that the call was to write.
#[derive(Clone, Copy, Debug, PartialEq, Eq, Error)]
#[error("write failed after {written} bytes")]
pub struct WriteFault {
    pub written: u64,
}

/// Why an input could not be read to its end.
#[derive(Clone, Copy, Debug, PartialEq, Eq, Error)]
pub enum InputFault {
    /// A pull failed.
    #[error("read failed")]
    Read,
    /// Memory ran out for the bytes that were read.
    #[error("out of memory")]
    Memory,
}

impl From<AllocError> for InputFault {
    ghost from_gives = { λ _ fault. fault ≡ InputFault.Memory };

    fn from(_error: AllocError) -> InputFault {
        InputFault::Memory
    }
}

/// Writes all of `bytes`, or fails with the number of the first bytes that went out, which are not all. It ends at the
/// first put that fails or takes no byte, and tries nothing again.
pub fn put_all<S: Sink>(sink: &mut S, bytes: &[u8]) -> Result<(), WriteFault>
    ensures { Writes S.contents S.failure_count sink.old sink.new bytes.now result }
{
    let mut written = 0usize;
    while written < bytes.len() {
        let (_, rest) = bytes.split_at(written);
        match put_piece(sink, rest) {
            Some(count) => written += count,
            None => {
                return Err(WriteFault {
                    written: written as u64,
                });
            }
        }
    }
    Ok(())
}

// Puts some bytes once, and returns how many went out, or `None` if the put failed.
fn put_piece<S: Sink>(sink: &mut S, bytes: &[u8]) -> Option<usize>
    requires { 0 < length bytes.now }
    ensures some { IfSome result (λ count. (0 < count) × (count ≤ length bytes.now)) }
    ensures written { IfSome result (λ count. Appends (S.contents sink.old) (S.contents sink.new)
        (take count bytes.now)) }
    ensures none_failed { OnSome result (S.failure_count sink.new ≡ S.failure_count sink.old) }
    ensures none { IfNone result (Keeps (S.contents sink.old) (S.contents sink.new)) }
    ensures failed { IfNone result
        (S.failure_count sink.new ≡ one_more (S.failure_count sink.old)) }
{
    match sink.put(bytes) {
        Ok(0) => None,
        Ok(count) => Some(count),
        Err(_) => None,
    }
}

// The number of bytes that a pull asks for. With it a large input takes few pulls, and the buffer is small for a stack.
const PIECE: usize = 16384;

/// Returns the whole input, or fails with `Read` if and only if a pull failed. It ends at the first pull that fails,
/// and tries nothing again. For a source that never ends it returns `Memory` when the buffer cannot grow further.
pub fn read_all<S: Source>(alloc: Global, source: &mut S) -> Result<Vec<u8>, InputFault>
    ensures ok { IfOk result (λ bytes.
        IfSome (S.remaining source.old) (λ input. bytes.items ≡ input)) }
    ensures end { OnOk result (IsAtEnd (S.remaining source.new)) }
    ensures none_failed { OnOk result (S.failure_count source.new ≡ S.failure_count source.old) }

    ensures read { result ≡ Err InputFault.Read
        → S.failure_count source.new ≡ one_more (S.failure_count source.old) }
    ensures memory { result ≡ Err InputFault.Memory
        → S.failure_count source.new ≡ S.failure_count source.old }
{
    let mut whole = Vec::new(alloc);
    let mut piece = [0u8; PIECE];
    loop {
        match source.pull(&mut piece) {
            Ok(0) => return Ok(whole),
            Ok(count) => {
                whole.extend_from_slice(&piece[..count])?;
            }
            Err(_) => return Err(InputFault::Read),
        }
    }
}
