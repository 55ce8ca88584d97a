//! Sources and sinks of bytes, which count their failures.
ghost use Rattle.std.specs.Prelude.{◌≡◌, ℕ, List, Option};
ghost use Rattle.std.specs.Io.{ReadsAtMost, WritesAtMost};
ghost use Rattle.std.specs.Io.KnownBytes.{ReadConsumes, WriteAppends};
ghost use Rattle.acl_perm.specs.Devices.{failures_after, pull_failed, put_failed};

use std::io;

/// A source of bytes, which reads some of them at each pull.
pub trait Source {
    // The bytes that later pulls will read, if they are known.
    ghost remaining: { Self → Option (List ℕ) };

    // The number of pulls that failed so far.
    ghost failure_count: { Self → ℕ };

    /// Reads some bytes into `buf` and returns how many; an error takes no byte. `Ok(0)` means the end of the input,
    /// unless `buf` is empty.
    fn pull(&mut self, buf: &mut [u8]) -> io::Result<usize>
        ensures bound { ReadsAtMost result buf.new }
        ensures bytes { ReadConsumes (remaining self.old) (remaining self.new) result buf.new }
        ensures count { failure_count self.new
            ≡ failures_after (failure_count self.old) (pull_failed result) };

    /// Returns the number of pulls that failed so far, which stops at `u64::MAX`.
    fn failures(&self) -> u64
        ensures { result ≡ failure_count self.now };
}

/// A sink of bytes, which writes some of them at each put.
pub trait Sink {
    // The bytes that the sink holds, if they are known.
    ghost contents: { Self → Option (List ℕ) };

    // The number of puts that failed so far.
    ghost failure_count: { Self → ℕ };

    /// Writes the first bytes of `bytes` and returns how many it wrote; an error writes no byte.
    fn put(&mut self, bytes: &[u8]) -> io::Result<usize>
        ensures bound { WritesAtMost result bytes.now }
        ensures written { WriteAppends (contents self.old) (contents self.new) result bytes.now }
        ensures count { failure_count self.new
            ≡ failures_after (failure_count self.old) (put_failed result bytes.now) };

    /// Returns the number of puts that failed so far, which stops at `u64::MAX`.
    fn failures(&self) -> u64
        ensures { result ≡ failure_count self.now };
}
