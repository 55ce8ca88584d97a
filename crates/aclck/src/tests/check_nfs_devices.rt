//! `check-nfs` over devices that fail once and then work, or that fail at every later call: each failure is reported at
//! once. `normalize` over sources that give a fault and then fail. What the list grants is by RFC 8881, section 6.2.1,
//! the faults are those of docs/reference/formats.md, "XDR", and the statuses those of aclck(1), "EXIT STATUS". The
//! answers over devices that work are in `check_nfs`.

use crate::answer::{Outcome, RunFault};
use crate::task::check_nfs::run_check_nfs;
use crate::task::normalize::run_normalize;
use crate::tests::check_nfs::changed;
use crate::tests::harness::{Calls, Devices, FINE, fails_at_read, fails_at_write, run};
use crate::tests::lists::READ_OF_ALL;
use acl_eval::{Object, Requester};
use acl_nfs4::{Fault, Reason};
use acl_perm::{Counted, Fused, Mask, Profile, Source};
use std::alloc::Global;

// The words of a check; the last one names the rights.
fn asking(mask: &'static str) -> [&'static str; 9] {
    [
        "check-nfs",
        "--owner",
        "alice",
        "--group",
        "staff",
        "--user",
        "bob",
        "--mask",
        mask,
    ]
}

// The rights that are requested, the write that fails, and what was written before.
const WRITES: [(&str, u64, &[u8]); 6] = [
    ("READ_DATA", 1, b""),
    ("READ_DATA", 2, b"gra"),
    ("READ_DATA", 3, b"grante"),
    ("WRITE_DATA", 1, b""),
    ("WRITE_DATA", 2, b"den"),
    ("WRITE_DATA", 3, b"denied"),
];

// The rights that are requested, the byte at place 3 of a list, the read that fails, the status, and what is written.
const STATUSES: [(&str, u8, u64, u8, &[u8]); 5] = [
    ("READ_DATA", 1, 10, 0, b"granted\n"),
    ("WRITE_DATA", 1, 10, 1, b"denied\n"),
    ("READ_DATA", 2, 10, 2, b""),
    ("NOTHING", 1, 10, 3, b""),
    ("READ_DATA", 1, 9, 4, b""),
];

// The first and the last call of `err` that fails, and how many bytes the other calls take.
const ERRS: [(u64, u64, usize); 5] = [
    (1, 1, 4),
    (2, 2, 4),
    (1, 1, 64),
    (2, 2, 64),
    (1, u64::MAX, 1),
];

// Returns whether a status stays the same over such an `err`, and nothing is reported again.
fn keeps_status(
    alloc: Global,
    mask: &'static str,
    (byte, reads): (u8, u64),
    (status, line): (u8, &[u8]),
    err: Calls,
) -> bool {
    let source = Calls::since(reads, 4);
    let input = changed(3, byte);
    let ran = run(
        alloc,
        &asking(mask),
        &input,
        Devices {
            source,
            err,
            ..FINE
        },
    );
    let most = if status < 2 { 0 } else { err.first };
    ran.status == status && ran.wrote(line) && ran.reports <= most
}

const AUDIT: RunFault = RunFault::Nfs(Fault {
    offset: 4,
    reason: Reason::AuditOrAlarm,
});

const TOO_MANY: RunFault = RunFault::Nfs(Fault {
    offset: 0,
    reason: Reason::TooManyAces,
});

const TRAILING: RunFault = RunFault::Nfs(Fault {
    offset: 4,
    reason: Reason::TrailingBytes,
});

// An input, how many reads work, how many bytes each gives, the fault that is reported, and how many reads fail.
const FAULTS: [(&[u8], u64, usize, RunFault, u64); 6] = [
    (b"\0\0\0\x01\0\0\0\x02", 1, 64, AUDIT, 0),
    (b"\0\0\0\x01\0\0\0\x02", 2, 4, AUDIT, 0),
    (b"\0\x01\0\x01\0", 1, 4, TOO_MANY, 0),
    (b"\0\0\0\0\0", 1, 64, TRAILING, 0),
    (b"\0\0\0\0\0\0", 2, 4, TRAILING, 0),
    (b"\0\0\0\x01\0\0", 2, 4, RunFault::Read, 1),
];

// A check of no rights for bob, on an object that alice owns.
fn run_check<S: Source>(alloc: Global, source: &mut S) -> Option<Result<Outcome, RunFault>> {
    let object = Object::new(b"alice", b"staff")?;
    let requester = Requester::new(b"bob", &[])?;
    let mut room = [0u8; 16];
    let mut out = Counted::new(room.as_mut_slice());
    let answer = run_check_nfs(
        alloc,
        source,
        &mut out,
        &object,
        &requester,
        Mask::NONE,
        Profile::FULL,
    );
    Some(answer)
}

// The normal form of a list that should be refused, so there is no room for it.
fn run_form<S: Source>(alloc: Global, source: &mut S) -> Result<Outcome, RunFault> {
    let mut room = [0u8; 0];
    let mut out = Counted::new(room.as_mut_slice());
    run_normalize(alloc, source, &mut out, Profile::FULL)
}

// What is answered if there is enough memory.
mod ample {
    use super::*;

    #[test]
    fn check_nfs_reports_a_read_that_fails_and_reads_no_more(rt: HostRuntime) {
        for failing in 1..10u64 {
            for source in [Calls::one(failing, 4), Calls::since(failing, 4)] {
                assert!(rt;
                    fails_at_read(rt.alloc(), &asking("READ_DATA"), READ_OF_ALL, source),
                    "read {failing}"
                );
            }
        }
    }

    // The sink works again after the failure, or it takes no byte at all.
    #[test]
    fn check_nfs_reports_a_write_that_fails_and_writes_no_more(rt: HostRuntime) {
        for (mask, failing, gone) in &WRITES {
            assert!(rt;
                fails_at_write(
                    rt.alloc(),
                    &asking(mask),
                    READ_OF_ALL,
                    Calls::one(*failing, 3),
                    gone
                ),
                "{mask}, write {failing}"
            );
        }
        let none = Calls {
            first: 1,
            last: 0,
            step: 0,
        };
        assert!(rt; fails_at_write(rt.alloc(), &asking("READ_DATA"), READ_OF_ALL, none, b""));
    }

    // `err` fails at each call, or at one call and then works.
    #[test]
    fn the_status_stays_and_nothing_is_reported_twice_if_err_fails(rt: HostRuntime) {
        for (mask, byte, reads, status, line) in &STATUSES {
            for (first, last, step) in &ERRS {
                let err = Calls {
                    first: *first,
                    last: *last,
                    step: *step,
                };
                assert!(rt;
                    keeps_status(rt.alloc(), mask, (*byte, *reads), (*status, line), err),
                    "{mask}, failing from {first} to {last}"
                );
            }
        }
    }

    // An input that is cut short gives a failed read.
    #[test]
    fn a_refusal_is_reported_before_a_read_that_would_fail(rt: HostRuntime) {
        for (input, reads, step, fault, failures) in &FAULTS {
            let mut source = Counted::new(Fused::new(*input, *reads, *step));
            let answer = run_check(rt.alloc(), &mut source);
            assert!(rt;
                answer == Some(Err(*fault)) && source.failures() == *failures,
                "check-nfs: {input:?}"
            );
            let mut source = Counted::new(Fused::new(*input, *reads, *step));
            let answer = run_form(rt.alloc(), &mut source);
            assert!(rt;
                answer == Err(*fault) && source.failures() == *failures,
                "normalize: {input:?}"
            );
        }
    }
}
