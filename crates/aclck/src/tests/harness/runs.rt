//! Runs of a command, and what they answer. The exit statuses are those of aclck(1), "EXIT STATUS".

use super::devices::{Device, Devices};
use super::trial::Answer;
use crate::command::command;
use acl_perm::Counted;
use std::alloc::{AllocError, Global};

// Room for what a run writes, and for what it reports.
const ROOM: usize = 256;

// How many bytes the name of the program and a colon take at the beginning of a line that reports a fault.
const NAME_LEN: usize = 7;

/// What a command answered, what it wrote and reported, and the calls of its devices.
#[derive(Clone, Copy)]
pub struct Ran {
    pub status: u8,
    out: [u8; ROOM],
    written: usize,
    err: [u8; ROOM],
    reported: usize,
    pub reads: u64,
    pub failed_reads: u64,
    pub writes: u64,
    pub failed_writes: u64,
    pub reports: u64,
}

impl Ran {
    /// Returns whether the answer has this status, this text and this fault; the empty fault is none.
    pub fn is(&self, status: u8, out: &[u8], fault: &str) -> bool {
        self.status == status && self.wrote(out) && self.reports_fault(fault)
    }

    /// Returns whether the run gave this answer, with its status and its text or fault.
    pub fn gives(&self, answer: Answer<'_>) -> bool {
        match answer {
            Answer::Text(status, text) => self.is(status, text, ""),
            Answer::Fault(fault) => self.is(2, b"", fault),
            Answer::Usage => self.is(3, b"", "usage"),
        }
    }

    /// Returns whether this was written, and nothing more.
    pub fn wrote(&self, text: &[u8]) -> bool {
        self.written == text.len() && self.out.starts_with(text)
    }

    /// Returns whether both runs wrote the same to `err`.
    pub fn reports_as(&self, other: &Ran) -> bool {
        self.err == other.err
    }

    /// Returns whether it is done, or reports a fault of its input and writes nothing.
    pub fn is_judged(&self) -> bool {
        match self.status {
            0 => self.reported == 0,
            2 => self.written == 0 && self.err.starts_with(b"aclck: "),
            _ => false,
        }
    }

    // Returns whether one line reports this fault, or nothing is reported if the fault is empty.
    fn reports_fault(&self, fault: &str) -> bool {
        if fault.is_empty() {
            return self.reported == 0;
        }
        let (name, line) = self.err.split_at(NAME_LEN);
        let len = fault.len();
        name.starts_with(b"aclck: ")
            && line.starts_with(fault.as_bytes())
            && line.get(len) == Some(&b'\n')
            && self.reported == len.saturating_add(NAME_LEN + 1)
    }

    /// Returns whether a read failed, and nothing was read after it, and nothing was written.
    pub fn is_failed_read(&self, failing: u64) -> bool {
        self.is(4, b"", "read failed") && self.failed_reads == 1 && self.reads == failing
    }

    /// Returns whether a write failed after this was written, and nothing was written after it.
    pub fn is_failed_write(&self, failing: u64, gone: &[u8]) -> bool {
        self.is(4, gone, "write failed") && self.failed_writes == 1 && self.writes == failing
    }
}

/// Runs a command over devices some of whose calls fail.
pub fn run(alloc: Global, words: &[&str], input: &[u8], devices: Devices) -> Ran {
    let mut out_room = [0u8; ROOM];
    let mut err_room = [0u8; ROOM];
    let mut source = Counted::new(Device::new(input, devices.source));
    let mut out = Counted::new(Device::new(out_room.as_mut_slice(), devices.out));
    let mut err = Counted::new(Device::new(err_room.as_mut_slice(), devices.err));
    let status = command(alloc, words, &mut source, &mut out, &mut err);
    let failed_reads = source.failures();
    let failed_writes = out.failures();
    let reads = source.into_inner().calls;
    let out = out.into_inner();
    let err = err.into_inner();
    let (writes, written) = (out.calls, ROOM.saturating_sub(out.inner.len()));
    let (reports, reported) = (err.calls, ROOM.saturating_sub(err.inner.len()));
    Ran {
        status,
        out: out_room,
        written,
        err: err_room,
        reported,
        reads,
        failed_reads,
        writes,
        failed_writes,
        reports,
    }
}

/// Returns the words of a line, cut at each space, if there is enough memory.
pub fn words_of<'a>(alloc: Global, line: &'a str) -> Result<Vec<&'a str>, AllocError> {
    line.split(' ').collect::<Vec<&str>>(alloc)
}
