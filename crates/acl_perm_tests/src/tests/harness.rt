//! What the tests of this crate share, without expected values: how a value is shown, and a device that fails one call.
ghost use Rattle.std.specs.Prelude.{◌≡◌, IfOk};

use std::alloc::Global;
use std::fmt::Display;
use std::io;
use std::io::{Read, Write};

/// Returns whether a value is shown as this text. It also returns `true` if memory runs out.
pub fn is_shown<T: Display>(alloc: Global, value: &T, text: &str) -> bool {
    match value.to_string(alloc) {
        Ok(shown) => shown.as_str() == text,
        Err(_) => true,
    }
}

/// The answer of a device to the one call that fails.
#[derive(Clone, Copy)]
pub enum Slip {
    Error,
    Nothing,
}

impl Slip {
    fn answer(self) -> io::Result<usize>
        ensures { IfOk result (λ n. n ≡ 0) }
    {
        match self {
            Slip::Error => Err(io::Error::other("failed once")),
            Slip::Nothing => Ok(0),
        }
    }
}

/// A device with one call that fails. Every other call takes or gives two bytes. It counts its calls.
#[derive(Drop)]
pub struct FailsOnce<T> {
    inner: T,
    failing: u64,
    slip: Slip,
    pub calls: u64,
}

impl<T> FailsOnce<T> {
    pub fn new(inner: T, failing: u64, slip: Slip) -> FailsOnce<T> {
        FailsOnce {
            inner,
            failing,
            slip,
            calls: 0,
        }
    }
}

impl<R: Read> Read for FailsOnce<R> {
    fn read(&mut self, buf: &mut [u8]) -> io::Result<usize> {
        self.calls = self.calls.saturating_add(1);
        if self.calls == self.failing {
            return self.slip.answer();
        }
        let room = buf.len().min(2);
        self.inner.read(&mut buf[..room])
    }
}

impl<W: Write> Write for FailsOnce<W> {
    fn write(&mut self, bytes: &[u8]) -> io::Result<usize> {
        self.calls = self.calls.saturating_add(1);
        if self.calls == self.failing {
            return self.slip.answer();
        }
        let room = bytes.len().min(2);
        self.inner.write(&bytes[..room])
    }

    fn flush(&mut self) -> io::Result<()> {
        self.inner.flush()
    }
}
