//! The bytes of a stream so far.
ghost use Rattle.std.specs.Prelude.{◌≡◌, ◌+◌, ◌≤◌, [], length, take};
ghost use Rattle.acl_nfs4.specs.internal.Appending.{Extended};
ghost use Rattle.acl_nfs4.specs.Spelling.{word_size};
ghost use Rattle.acl_nfs4.specs.internal.Progress.{after_word};

use std::alloc::{AllocError, Global};
use std::marker::Model;

/// The bytes of a stream so far. The first word needs no memory, and the bytes after it are in a vector.
#[derive(Drop)]
pub(crate) struct StreamBytes {
    pub head: [u8; 4],
    pub filled: usize,
    pub body: Vec<u8>,
}

impl Model for StreamBytes {
    ghost use Rattle.std.specs.Prelude.{List, ℕ, take, ◌++◌};
    ghost use Rattle.acl_nfs4.specs.internal.Progress.{IsText};

    ghost Value = { List ℕ };

    ghost view = { λ s. take s.filled s.head ++ s.body.items };

    ghost invariant = { λ s. IsText s.head s.filled s.body.items };
}

impl StreamBytes {
    pub(crate) fn new(alloc: Global) -> StreamBytes
        ensures { result ≡ [] }
    {
        StreamBytes {
            head: [0; 4],
            filled: 0,
            body: Vec::new(alloc),
        }
    }

    pub(crate) fn len(&self) -> usize
        ensures { result ≡ length self.now }
    {
        self.filled + self.body.len()
    }

    /// Appends one more piece. Fails if memory runs out, and then leaves the bytes as they were.
    pub(crate) fn extend(&mut self, piece: &[u8]) -> Result<(), AllocError>
        ensures { Extended self.old self.new piece.now result }
    {
        let (front, rest) = piece.split_at(piece.len().min(4 - self.filled));
        self.body.extend_from_slice(rest)?;
        let end = self.filled + front.len();
        self.head[self.filled..end].copy_from_slice(front);
        self.filled = end;
        Ok(())
    }

    /// Keeps this number of bytes after the first word.
    pub(crate) fn cut(&mut self, used: usize)
        requires { word_size + used ≤ length self.old }
        ensures { after_word self.new ≡ take used (after_word self.old) }
    {
        self.body.truncate(used);
    }

    /// Returns the bytes after the first word alone.
    pub(crate) fn into_body(self) -> Vec<u8>
        ensures { result.items ≡ after_word self }
    {
        self.body
    }
}
