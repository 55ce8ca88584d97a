//! Texts that are written in several pieces.
ghost use Rattle.std.specs.Prelude.{◌+◌, ◌<◌, length};
ghost use Rattle.acl_perm.specs.Counts.{count_limit};
ghost use Rattle.acl_perm.specs.Pieces.{WritesOn};

use crate::devices::Sink;
use crate::whole::{WriteFault, put_all};

/// Writes the next piece of a text, after the first `done` bytes of the text, and returns how many bytes of the text
/// are written then.
pub fn put_next<S: Sink>(sink: &mut S, done: u64, piece: &[u8]) -> Result<u64, WriteFault>
    requires { done + length piece.now < count_limit }
    ensures { WritesOn S.contents S.failure_count sink.old sink.new done piece.now result }
{
    match put_all(sink, piece) {
        Ok(()) => Ok(done + piece.len() as u64),
        Err(fault) => Err(WriteFault {
            written: done + fault.written,
        }),
    }
}
