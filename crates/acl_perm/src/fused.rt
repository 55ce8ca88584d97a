//! A device for tests that fails after some calls.
ghost use Rattle.std.specs.Prelude.{◌≡◌, IfOk, min};
ghost use Rattle.std.specs.Io.{ReadsAtMost, WritesAtMost};
ghost use Rattle.std.specs.Io.KnownBytes.{Keeps, ReadConsumes, WriteAppends};
ghost use Rattle.acl_perm.specs.Devices.{GivesOn, fused_remaining};

use std::io;
use std::io::{Read, Write};

/// A reader or writer that passes some calls, each of a few bytes, and then is spent: every later call fails. It passes
/// flushes and does not count them.
#[derive(Drop)]
pub struct Fused<T> {
    inner: T,
    calls: u64,
    step: usize,
}

impl<T> Fused<T> {
    ghost use Rattle.acl_perm.specs.Fused.{fused_calls, fused_inner, fused_step, TakesCall};

    /// Wraps a reader or writer: the first `calls` calls pass, each with at most `step` bytes.
    pub fn new(inner: T, calls: u64, step: usize) -> Fused<T>
        ensures inner { fused_inner result ≡ inner }
        ensures calls { fused_calls result ≡ calls }
        ensures step { fused_step result ≡ step }
    {
        Fused { inner, calls, step }
    }

    /// Returns the wrapped reader or writer, whose calls have no limit.
    pub fn into_inner(self) -> T
        ensures { result ≡ fused_inner self }
    {
        let Fused {
            inner,
            calls: _,
            step: _,
        } = self;
        inner
    }

    /// Takes a call of `len` bytes, and returns how many of them it may pass.
    fn take_call(&mut self, len: usize) -> io::Result<usize>
        ensures room { IfOk result (λ room. room ≡ min (fused_step self.old) len) }
        ensures inner { fused_inner self.new ≡ fused_inner self.old }
        ensures call { TakesCall self.old self.new result }
    {
        if self.calls == 0 {
            return Err(io::Error::other("the device is spent"));
        }
        self.calls -= 1;
        Ok(self.step.min(len))
    }
}

impl<R: Read> Read for Fused<R> {
    ghost use Rattle.acl_perm.specs.Fused.{fused_inner, left_through, TakesCall};

    ghost remaining = { λ f. fused_remaining f.step (R.remaining f.inner) };

    /// Reads at most `step` bytes, which may be 0, and takes no others; uses up a call, and fails if none is left.
    fn read(&mut self, buf: &mut [u8]) -> io::Result<usize>
        ensures bound { ReadsAtMost result buf.new }
        ensures bytes { ReadConsumes (left_through R.remaining self.old)
            (left_through R.remaining self.new) result buf.new }
        ensures passed { GivesOn (R.remaining (fused_inner self.old))
            (R.remaining (fused_inner self.new)) result buf.new }
        ensures call { TakesCall self.old self.new result }
    {
        let room = self.take_call(buf.len())?;
        self.inner.read(&mut buf[..room])
    }
}

impl<W: Write> Write for Fused<W> {
    ghost use Rattle.acl_perm.specs.Fused.{fused_calls, fused_inner, fused_step, TakesCall};

    ghost contents = { λ f. W.contents f.inner };

    /// Writes at most `step` bytes, exactly those that the writer takes; uses up a call, and fails if none is left.
    fn write(&mut self, bytes: &[u8]) -> io::Result<usize>
        ensures bound { WritesAtMost result bytes.now }
        ensures bytes { WriteAppends (W.contents (fused_inner self.old))
            (W.contents (fused_inner self.new)) result bytes.now }
        ensures call { TakesCall self.old self.new result }
    {
        let room = self.take_call(bytes.len())?;
        self.inner.write(&bytes[..room])
    }

    /// Flushes the writer, and keeps what it holds, the calls and the step.
    fn flush(&mut self) -> io::Result<()>
        ensures bytes { Keeps (W.contents (fused_inner self.old))
            (W.contents (fused_inner self.new)) }
        ensures calls { fused_calls self.new ≡ fused_calls self.old }
        ensures step { fused_step self.new ≡ fused_step self.old }
    {
        self.inner.flush()
    }
}
