//! A reader or a writer with a count of its failures.
ghost use Rattle.std.specs.Prelude.{◌≡◌};
ghost use Rattle.acl_perm.specs.Devices.{failures_after};

use crate::devices::{Sink, Source};
use std::io;
use std::io::{Read, Write};

/// A source over any reader, and a sink over any writer.
#[derive(Drop)]
pub struct Counted<T> {
    inner: T,
    failures: u64,
}

impl<T> Counted<T> {
    ghost use Rattle.acl_perm.specs.Counted.{counted_failures, counted_inner};

    /// Wraps a reader or a writer, with no failed call so far.
    pub fn new(inner: T) -> Counted<T>
        ensures inner { counted_inner result ≡ inner }
        ensures failures { counted_failures result ≡ 0 }
    {
        Counted { inner, failures: 0 }
    }

    /// Returns the wrapped reader or writer as it is now. The count of its failures is lost.
    pub fn into_inner(self) -> T
        ensures { result ≡ counted_inner self }
    {
        let Counted { inner, failures: _ } = self;
        inner
    }

    /// Returns the number of calls that failed so far, which stops at `u64::MAX`.
    pub fn failures(&self) -> u64
        ensures { result ≡ counted_failures self.now }
    {
        self.failures
    }

    // The count stops at the greatest number.
    fn count(&mut self, has_failed: bool)
        ensures inner { counted_inner self.new ≡ counted_inner self.old }
        ensures failures { counted_failures self.new
            ≡ failures_after (counted_failures self.old) has_failed }
    {
        if has_failed {
            self.failures = self.failures.saturating_add(1);
        }
    }
}

impl<R: Read> Source for Counted<R> {
    ghost remaining = { λ c. R.remaining c.inner };

    ghost failure_count = { λ c. c.failures };

    fn pull(&mut self, buf: &mut [u8]) -> io::Result<usize> {
        let answer = self.inner.read(buf);
        self.count(answer.is_err());
        answer
    }

    fn failures(&self) -> u64 {
        Counted::failures(self)
    }
}

impl<W: Write> Sink for Counted<W> {
    ghost contents = { λ c. W.contents c.inner };

    ghost failure_count = { λ c. c.failures };

    fn put(&mut self, bytes: &[u8]) -> io::Result<usize> {
        let answer = self.inner.write(bytes);
        self.count(match &answer {
            Ok(n) => *n == 0 && !bytes.is_empty(),
            Err(_) => true,
        });
        answer
    }

    fn failures(&self) -> u64 {
        Counted::failures(self)
    }
}
