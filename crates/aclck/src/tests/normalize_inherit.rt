//! `normalize --inherit` over lists of one ACE, by its flags (the rules of creation in docs/reference/lists.md).

use crate::answer::Outcome;
use crate::task::normalize::run_normalize_inherit;
use crate::tests::harness::{Answer, Table, Trial};
use crate::tests::lists::READ_OF_ALICE;
use acl_perm::{Counted, Profile};
use std::alloc::Global;
use std::process::Abort;

// Room for the five forms.
const ROOM: usize = 192;

// ---- lists

// ALLOW INHERITED READ_DATA alice.
const INHERITED: &[u8] = b"\0\0\0\x01\0\0\0\0\0\0\0\x80\0\0\0\x01\0\0\0\x05alice\0\0\0";

// The list of one ACE which says that alice may read, with these flags.
fn inherited(flags: u8) -> [u8; 28] {
    let mut bytes = *READ_OF_ALICE;
    bytes[11] = flags;
    bytes
}

// Flags of that ACE, and which of the five forms have it; each other form is empty.
static FORMS: [(u8, &[u8; 5]); 8] = [
    (0x06, b"x.x.."),
    (0x01, b"xx.x."),
    (0x03, b"xxxxx"),
    (0x0b, b".xxxx"),
    (0x05, b"xx..."),
    (0x02, b"x.x.x"),
    (0x00, b"x...."),
    (0x80, b"x...."),
];

// The bytes of at most five forms, and how many they are.
#[derive(Clone, Copy)]
struct FormBytes {
    room: [u8; ROOM],
    len: usize,
}

impl FormBytes {
    fn add(&mut self, bytes: &[u8]) {
        for byte in bytes {
            if let Some(at) = self.room.get_mut(self.len) {
                *at = *byte;
                self.len += 1;
            }
        }
    }

    fn bytes(&self) -> &[u8] {
        self.room.get(..self.len).unwrap_or(&[])
    }
}

// Returns the bytes of five forms: those that `present` marks have the ACE, and the others are empty.
fn text_of(present: &[u8; 5]) -> FormBytes {
    let mut text = FormBytes {
        room: [0; ROOM],
        len: 0,
    };
    for form in present {
        if *form == b'x' {
            text.add(READ_OF_ALICE);
        } else {
            text.add(&[0; 4]);
        }
    }
    text
}

// ---- rows

const LINES: [&str; 4] = [
    "normalize --inherit",
    "normalize --inherit --profile full",
    "normalize --profile narrow --inherit",
    "normalize --profile=narrow --inherit --",
];

// The narrow profile lacks INHERITED.
fn is_outside(line: &str, flags: u8) -> bool {
    flags == 0x80 && line.contains("narrow")
}

// A line whose input is refused, and lines that ask for nothing: no other command takes the flag.
static TABLE: Table = Table {
    answers: &[],
    asked: &[],
    refusals: &[(
        "normalize --inherit --profile narrow",
        &[(INHERITED, "FlagBits at byte 8")],
    )],
    usage: &[
        "normalize --inherit --inherit",
        "normalize --inherit=yes",
        "normalize --inherit yes",
        "normalize -inherit",
        "normalize --inherit --profile wide",
        "table --inherit --bit READ_DATA",
        "compare --inherit",
        "child --inherit --kind dir",
        "mode --inherit",
        "show-nfs --inherit",
        "encode --inherit",
        "bridge --inherit",
        "show-posix --inherit",
        "calc-mask --inherit",
        "check-nfs --owner=o --group=g --user=u --mask=none --inherit",
    ],
    unread: INHERITED,
};

fn gives_forms(trial: Trial, line: &str, flags: u8, present: &[u8; 5]) -> bool {
    let answer = text_of(present);
    trial.passes(line, &inherited(flags), Answer::Text(0, answer.bytes()))
}

/// Tests that each list has the five forms of its row, and that each other line is refused.
pub fn holds<A: Abort>(rt: &A, trial: Trial) {
    for line in LINES {
        for (flags, present) in &FORMS {
            assert!(rt;
                is_outside(line, *flags) || gives_forms(trial, line, *flags, present),
                "{line}: {flags}"
            );
        }
    }
    TABLE.holds(rt, trial);
}

// Tests that the engine writes the five forms of each list under a profile.
fn engine_writes_forms<A: Abort>(rt: &A, alloc: Global, profile: Profile) {
    for (flags, present) in FORMS.iter().take(7) {
        let mut out = [0u8; ROOM];
        let input = inherited(*flags);
        let mut sink = Counted::new(out.as_mut_slice());
        let mut source = Counted::new(input.as_slice());
        let answer = run_normalize_inherit(alloc, &mut source, &mut sink, profile);
        let written = ROOM.saturating_sub(sink.into_inner().len());
        assert!(rt; matches!(answer, Ok(Outcome::Yes)), "{flags}");
        assert!(rt;
            out.get(..written) == Some(text_of(present).bytes()),
            "{flags}"
        );
    }
}

// What is answered if there is enough memory.
mod ample {
    use super::*;

    #[test]
    fn normalize_writes_five_forms_under_both_profiles(rt: HostRuntime) {
        engine_writes_forms(&rt, rt.alloc(), Profile::FULL);
        engine_writes_forms(&rt, rt.alloc(), Profile::NARROW);
    }
}
