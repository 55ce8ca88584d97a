//! Devices over memory, some of whose calls fail, without expected values.

use std::io;
use std::io::{Read, Write};

/// The calls of a device that fail: those from number `first` to number `last`, counted from 1. Each other call takes a
/// few bytes.
#[derive(Clone, Copy)]
pub struct Calls {
    pub first: u64,
    pub last: u64,
    pub step: usize,
}

/// No call fails, and each takes as much as it can.
pub const ALL_PASS: Calls = Calls {
    first: 1,
    last: 0,
    step: usize::MAX,
};

impl Calls {
    /// One call fails, and those after it work.
    pub fn one(failing: u64, step: usize) -> Calls {
        Calls {
            first: failing,
            last: failing,
            step,
        }
    }

    /// Each call from this one on fails.
    pub fn since(failing: u64, step: usize) -> Calls {
        Calls {
            first: failing,
            last: u64::MAX,
            step,
        }
    }
}

/// A device over memory, which counts its calls.
#[derive(Drop)]
pub struct Device<T> {
    pub inner: T,
    failing: Calls,
    pub calls: u64,
}

impl<T> Device<T> {
    pub fn new(inner: T, failing: Calls) -> Device<T> {
        Device {
            inner,
            failing,
            calls: 0,
        }
    }

    fn begin(&mut self) -> io::Result<()> {
        self.calls = self.calls.saturating_add(1);
        if self.failing.first <= self.calls && self.calls <= self.failing.last {
            return Err(io::Error::other("the device fails"));
        }
        Ok(())
    }
}

impl<R: Read> Read for Device<R> {
    fn read(&mut self, buf: &mut [u8]) -> io::Result<usize> {
        self.begin()?;
        let room = self.failing.step.min(buf.len());
        self.inner.read(&mut buf[..room])
    }
}

impl<W: Write> Write for Device<W> {
    fn write(&mut self, bytes: &[u8]) -> io::Result<usize> {
        self.begin()?;
        let room = self.failing.step.min(bytes.len());
        self.inner.write(&bytes[..room])
    }

    fn flush(&mut self) -> io::Result<()> {
        self.inner.flush()
    }
}

/// The calls that fail, for each of the three devices of a run.
#[derive(Clone, Copy)]
pub struct Devices {
    pub source: Calls,
    pub out: Calls,
    pub err: Calls,
}

/// No call fails.
pub const FINE: Devices = Devices {
    source: ALL_PASS,
    out: ALL_PASS,
    err: ALL_PASS,
};
