//! `normalize` over lists in bytes, some of which are cut short or damaged. Each normal form follows from the rules of
//! docs/reference/lists.md, and the faults are those of docs/reference/formats.md, "XDR".

use crate::tests::harness::{Answer, FINE, Table, Trial, Way, repeated_ace, run};
use crate::tests::lists::{
    AMY_AND_ALL, AMY_INHERITED, BEHIND_ALICE, BOB_AND_OWNER, EMPTY, GROUP_FLAGGED, NO_RIGHTS,
    OPS_FIRST, OPS_LAST, OWNER_BOB_OWNER, READ_OF_ALICE, READ_OF_ALL, READ_OF_THE_GROUP,
    READ_OF_THE_OWNER, RETENTION_OF_BOB, WITHOUT_BOB,
};
use std::process::Abort;
use std::test::Fail;

// ---- lists

// DENY - READ_DATA bob, ALLOW - READ_DATA EVERYONE@.
const ALL_BUT_BOB: &[u8] = b"\0\0\0\x02\
    \0\0\0\x01\0\0\0\0\0\0\0\x01\0\0\0\x03bob\0\
    \0\0\0\0\0\0\0\0\0\0\0\x01\0\0\0\x09EVERYONE@\0\0\0";

// ALLOW - READ_DATA OWNER@, DENY - READ_DATA|WRITE_DATA OWNER@.
const OWNER_TWICE: &[u8] = b"\0\0\0\x02\
    \0\0\0\0\0\0\0\0\0\0\0\x01\0\0\0\x06OWNER@\0\0\
    \0\0\0\x01\0\0\0\0\0\0\0\x03\0\0\0\x06OWNER@\0\0";

// ALLOW - READ_DATA ops.
const READ_OF_OPS: &[u8] = b"\0\0\0\x01\0\0\0\0\0\0\0\0\0\0\0\x01\0\0\0\x03ops\0";

// ALLOW - READ_DATA alice, ALLOW - WRITE_DATA alice.
const ALICE_TWICE: &[u8] = b"\0\0\0\x02\
    \0\0\0\0\0\0\0\0\0\0\0\x01\0\0\0\x05alice\0\0\0\
    \0\0\0\0\0\0\0\0\0\0\0\x02\0\0\0\x05alice\0\0\0";

// ALLOW - READ_DATA|WRITE_DATA alice.
const ALICE_ONCE: &[u8] = b"\0\0\0\x01\0\0\0\0\0\0\0\0\0\0\0\x03\0\0\0\x05alice\0\0\0";

// DENY GROUP READ_DATA staff, ALLOW - READ_DATA amy, ALLOW - EXECUTE EVERYONE@.
const AMY_READS: &[u8] = b"\0\0\0\x03\
    \0\0\0\x01\0\0\0@\0\0\0\x01\0\0\0\x05staff\0\0\0\
    \0\0\0\0\0\0\0\0\0\0\0\x01\0\0\0\x03amy\0\
    \0\0\0\0\0\0\0\0\0\0\0\x20\0\0\0\x09EVERYONE@\0\0\0";

// ALLOW - READ_DATA zoe, ALLOW - READ_DATA amy, DENY - READ_DATA EVERYONE@.
const ZOE_FIRST: &[u8] = b"\0\0\0\x03\
    \0\0\0\0\0\0\0\0\0\0\0\x01\0\0\0\x03zoe\0\
    \0\0\0\0\0\0\0\0\0\0\0\x01\0\0\0\x03amy\0\
    \0\0\0\x01\0\0\0\0\0\0\0\x01\0\0\0\x09EVERYONE@\0\0\0";

// ALLOW - READ_DATA amy, ALLOW - READ_DATA zoe.
const AMY_FIRST: &[u8] = b"\0\0\0\x02\
    \0\0\0\0\0\0\0\0\0\0\0\x01\0\0\0\x03amy\0\
    \0\0\0\0\0\0\0\0\0\0\0\x01\0\0\0\x03zoe\0";

// ALLOW - READ_DATA frontend2, and the same for amy, frontend1 and fronte: three names that begin with the same six
// bytes.
const FRONTEND_FIRST: &[u8] = b"\0\0\0\x04\
    \0\0\0\0\0\0\0\0\0\0\0\x01\0\0\0\x09frontend2\0\0\0\
    \0\0\0\0\0\0\0\0\0\0\0\x01\0\0\0\x03amy\0\
    \0\0\0\0\0\0\0\0\0\0\0\x01\0\0\0\x09frontend1\0\0\0\
    \0\0\0\0\0\0\0\0\0\0\0\x01\0\0\0\x06fronte\0\0";

// The same in the order of the names.
const FRONTEND_LAST: &[u8] = b"\0\0\0\x04\
    \0\0\0\0\0\0\0\0\0\0\0\x01\0\0\0\x03amy\0\
    \0\0\0\0\0\0\0\0\0\0\0\x01\0\0\0\x06fronte\0\0\
    \0\0\0\0\0\0\0\0\0\0\0\x01\0\0\0\x09frontend1\0\0\0\
    \0\0\0\0\0\0\0\0\0\0\0\x01\0\0\0\x09frontend2\0\0\0";

// ALLOW - READ_DATA amy.
const READ_OF_AMY: &[u8] = b"\0\0\0\x01\0\0\0\0\0\0\0\0\0\0\0\x01\0\0\0\x03amy\0";

// ALLOW - all rights EVERYONE@.
const ALL_OF_ALL: &[u8] = b"\0\0\0\x01\0\0\0\0\0\0\0\0\0\x1f\x07\xff\0\0\0\x09EVERYONE@\0\0\0";

// ---- rows

/// Lists with their normal forms; lines whose input is refused; and lines that ask for nothing.
pub static TABLE: Table = Table {
    answers: &[
        (
            "normalize",
            0,
            &[
                (EMPTY, EMPTY),
                (READ_OF_ALL, READ_OF_ALL),
                (WITHOUT_BOB, READ_OF_ALICE),
                (BEHIND_ALICE, READ_OF_ALICE),
                (ALL_BUT_BOB, ALL_BUT_BOB),
                (OWNER_TWICE, READ_OF_THE_OWNER),
                (GROUP_FLAGGED, READ_OF_THE_GROUP),
                (OPS_FIRST, READ_OF_OPS),
                (OPS_LAST, OPS_LAST),
                (AMY_AND_ALL, AMY_READS),
                (ZOE_FIRST, AMY_FIRST),
                (FRONTEND_FIRST, FRONTEND_LAST),
                (AMY_INHERITED, READ_OF_AMY),
            ],
        ),
        (
            "normalize --profile narrow",
            0,
            &[(BOB_AND_OWNER, OWNER_BOB_OWNER)],
        ),
        ("normalize --profile=full", 0, &[(ALICE_TWICE, ALICE_ONCE)]),
        ("normalize --", 0, &[(NO_RIGHTS, EMPTY)]),
    ],
    asked: &[],
    refusals: &[
        (
            "normalize --profile narrow",
            &[(RETENTION_OF_BOB, "MaskBits at byte 12")],
        ),
        ("normalize", &[(b"\0\0\0\0\0", "TrailingBytes at byte 4")]),
    ],
    usage: &["normalize x", "normalize --profile wide"],
    unread: EMPTY,
};

// Each normal form that a line writes is its own normal form.
fn forms_stay<A: Abort>(rt: &A, trial: Trial, line: &str, rows: &[(&[u8], &[u8])]) {
    for (_, form) in rows {
        let is_left = trial.passes(line, form, Answer::Text(0, form));
        assert!(rt; is_left, "{line}: {form:?}");
    }
}

// The list that lets everyone read, with each bit of one word set.
fn damaged(place: usize) -> [u8; 32] {
    let mut bytes = *READ_OF_ALL;
    for byte in bytes.iter_mut().skip(place).take(4) {
        *byte = 0xff;
    }
    bytes
}

// What is answered if there is enough memory.
mod ample {
    use super::*;

    #[test]
    fn normalize_leaves_a_normal_form_as_it_is(rt: HostRuntime) {
        let trial = Trial::new(rt.alloc(), Way::Ample);
        for (line, _, rows) in TABLE.answers {
            forms_stay(&rt, trial, line, rows);
        }
    }

    // The heaviest list that repeats one ACE has that ACE as its normal form; a heavier list is refused.
    #[test]
    fn normalize_merges_one_ace_many_times(rt: HostRuntime) -> Result<(), Fail> {
        let trial = Trial::new(rt.alloc(), Way::Ample);
        let (_, ace) = ALL_OF_ALL.split_at(4);
        for (count, answer) in [
            (4096u32, Answer::Text(0, ALL_OF_ALL)),
            (4097, Answer::Fault("TooHeavy at byte 114700")),
        ] {
            let list = repeated_ace(rt.alloc(), count, ace)?;
            assert!(rt; trial.passes("normalize", &list, answer), "{count}");
        }
        Ok(())
    }

    // With inheritance and without.
    #[test]
    fn normalize_refuses_a_word_of_ones_at_its_place(rt: HostRuntime) {
        for (place, fault) in [
            (0usize, "TooManyAces at byte 0"),
            (4, "AceType at byte 4"),
            (8, "FlagBits at byte 8"),
            (12, "MaskBits at byte 12"),
            (16, "WhoLength at byte 16"),
        ] {
            let input = damaged(place);
            let one = run(rt.alloc(), &["normalize"], &input, FINE);
            assert!(rt; one.is(2, b"", fault), "{place}");
            let five = run(rt.alloc(), &["normalize", "--inherit"], &input, FINE);
            assert!(rt; five.is(2, b"", fault), "{place}");
        }
    }

    // With inheritance and without.
    #[test]
    fn normalize_refuses_each_beginning_of_a_list(rt: HostRuntime) {
        for len in 0..32usize {
            let (front, _) = READ_OF_ALL.split_at(len.min(32));
            let one = run(rt.alloc(), &["normalize"], front, FINE);
            assert!(rt; one.is_judged() && one.status == 2, "{len}");
            let five = run(rt.alloc(), &["normalize", "--inherit"], front, FINE);
            assert!(rt; five.reports_as(&one) && five.is_judged(), "{len}");
        }
    }
}
