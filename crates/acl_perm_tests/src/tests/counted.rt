//! Sources and sinks over devices: they give and take the same bytes as the device, make each call once, and count the
//! calls that fail. The same device without the count gives the expected bytes of a source. Other numbers are counted
//! by hand from the calls that the device allows and the bytes that each call takes.
ghost use Rattle.std.specs.Prelude.{◌≤◌, IfSome, length};

use super::harness::{FailsOnce, Slip};
use acl_perm::*;
use std::alloc::Global;
use std::io;
use std::io::Read;
use std::process::Abort;

// Returns whether the next call of a reader fails. The source must give the same.
fn fails<R: Read, S: Source>(rt: &impl Abort, plain: &mut R, counted: &mut S, calls: u64) -> bool {
    let mut first = [0u8; 4];
    let mut second = [0u8; 4];
    let read = plain.read(&mut first).ok();
    let pulled = counted.pull(&mut second).ok();
    assert!(rt; pulled == read && first == second, "after {calls} calls");
    read.is_none()
}

// A source gives what its reader gives, call by call, and counts only the calls that fail.
#[test]
fn a_counted_reader_gives_what_the_reader_gives(rt: HostRuntime) {
    for calls in [0u64, 1, 5] {
        let mut plain = Fused::new(b"granted".as_slice(), calls, 3);
        let mut counted = Counted::new(Fused::new(b"granted".as_slice(), calls, 3));
        let mut failed = 0u64;
        assert!(rt; counted.failures() == 0);
        for _ in 0..7 {
            if fails(&rt, &mut plain, &mut counted, calls) {
                failed = failed.saturating_add(1);
            }
            assert!(rt; counted.failures() == failed);
        }
        assert!(rt; failed == 7u64.saturating_sub(calls));
    }
}

// Returns whether a sink takes a piece, or `None` if memory runs out.
fn takes<S: Sink>(sink: &mut S) -> Option<bool> {
    match sink.put(b"abc") {
        Ok(count) => Some(count > 0),
        Err(e) => (e.kind() != io::ErrorKind::OutOfMemory).then_some(false),
    }
}

// Returns how many of four pieces a sink takes, or `None` if memory runs out.
fn pieces_taken<S: Sink>(sink: &mut S) -> Option<u64> {
    let mut taken = 0u64;
    for _ in 0..4 {
        taken = taken.saturating_add(u64::from(takes(sink)?));
    }
    Some(taken)
}

// Calls of a sink: their number, and how many of them take a piece.
fn puts(rt: &impl Abort, alloc: Global, calls: u64, step: usize, pieces: u64) {
    let mut counted = Counted::new(Fused::new(Vec::new(alloc), calls, step));
    let Some(taken) = pieces_taken(&mut counted) else {
        return;
    };
    assert!(rt; taken == pieces);
    assert!(rt; counted.failures() == 4u64.saturating_sub(pieces));
    assert!(rt; counted.put(b"").is_ok() == (calls > 4));
    assert!(rt; counted.into_inner().into_inner().len() as u64 == pieces.saturating_mul(2));
}

// A sink takes what its writer takes. An end of input is not a failure; a put of some bytes that takes none is one.
#[test]
fn a_counted_writer_takes_what_the_writer_takes(rt: HostRuntime) {
    for (calls, step, pieces) in [(0u64, 2usize, 0u64), (1, 2, 1), (2, 2, 2), (3, 0, 0)] {
        puts(&rt, rt.alloc(), calls, step, pieces);
    }
    let mut ended = Counted::new(b"".as_slice());
    assert!(rt; ended.pull(&mut [0u8; 4]).ok() == Some(0));
    assert!(rt; ended.failures() == 0);
}

// The number of a call of a device, and the number of the call that fails.
#[derive(Clone, Copy)]
struct Call {
    number: u64,
    failing: u64,
}

impl Call {
    // The answer: the number of bytes that were taken.
    fn answer(self, bytes: &[u8]) -> Option<usize>
        ensures { IfSome result (λ n. (n ≤ 2) × (n ≤ length bytes.now)) }
    {
        if self.number == self.failing {
            None
        } else {
            Some(bytes.len().min(2))
        }
    }

    // The number of failures after the call.
    fn failures(self) -> u64 {
        u64::from(self.number >= self.failing)
    }
}

// A pull, and the bytes that are left after it.
fn pull<'a, S: Source>(rt: &impl Abort, source: &mut S, bytes: &'a [u8], call: Call) -> &'a [u8] {
    let answer = call.answer(bytes);
    let mut buf = [0u8; 4];
    let pulled = source.pull(&mut buf).ok();
    let is_counted = source.failures() == call.failures();
    let (taken, rest) = bytes.split_at(answer.unwrap_or(0));
    assert!(rt;
        pulled == answer && is_counted && buf.starts_with(taken),
        "call {}",
        call.number
    );
    rest
}

// A put, and the bytes that are left after it.
fn put<'a, S: Sink>(rt: &impl Abort, sink: &mut S, bytes: &'a [u8], call: Call) -> &'a [u8] {
    let answer = call.answer(bytes);
    let put = sink.put(bytes).ok();
    let is_counted = sink.failures() == call.failures();
    assert!(rt; put == answer && is_counted, "call {}", call.number);
    bytes.split_at(answer.unwrap_or(0)).1
}

fn pulls_but_one(rt: &impl Abort, failing: u64) {
    let device = FailsOnce::new(b"granted".as_slice(), failing, Slip::Error);
    let mut source = Counted::new(Fused::new(device, 9, 4));
    let mut bytes = b"granted".as_slice();
    for number in 1..6u64 {
        bytes = pull(rt, &mut source, bytes, Call { number, failing });
    }
    assert!(rt; source.into_inner().into_inner().calls == 5);
}

fn puts_but_one(rt: &impl Abort, failing: u64) {
    let mut room = [0u8; 7];
    let device = FailsOnce::new(room.as_mut_slice(), failing, Slip::Error);
    let mut sink = Counted::new(Fused::new(device, 9, 4));
    let mut bytes = b"granted".as_slice();
    for number in 1..6u64 {
        bytes = put(rt, &mut sink, bytes, Call { number, failing });
    }
    assert!(rt; sink.into_inner().into_inner().calls == 5);
    assert!(rt; room == *b"granted");
}

// Each pull and each put is one call of the device, also if the call fails, and only the call that fails is counted.
#[test]
fn a_failed_call_is_not_made_again(rt: HostRuntime) {
    for failing in 1..5u64 {
        pulls_but_one(&rt, failing);
        puts_but_one(&rt, failing);
    }
}
