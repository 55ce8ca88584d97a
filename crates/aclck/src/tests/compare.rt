//! `compare` over two lists in bytes, one after the other. Each row follows from what RFC 8881, section 6.2.1, grants,
//! and from the order of situations in docs/reference/lists.md.

use crate::tests::harness::{Answer, Trial};
use crate::tests::lists::{
    AMY_AND_ALL, AMY_INHERITED, BEHIND_ALICE, EMPTY, OPS_FIRST, OPS_LAST, READ_OF_ALICE,
    READ_OF_ALL, READ_OF_THE_GROUP, READ_OF_THE_OWNER, RETENTION_OF_BOB, WITH_A_BYTE, WITHOUT_BOB,
};
use std::process::Abort;

// ---- lists

// DENY GROUP READ_DATA staff, ALLOW - READ_DATA GROUP@.
const STAFF_DENIED: &[u8] = b"\0\0\0\x02\
    \0\0\0\x01\0\0\0@\0\0\0\x01\0\0\0\x05staff\0\0\0\
    \0\0\0\0\0\0\0\0\0\0\0\x01\0\0\0\x06GROUP@\0\0";

// ALLOW - WRITE_DATA EVERYONE@.
const WRITE_OF_ALL: &[u8] = b"\0\0\0\x01\0\0\0\0\0\0\0\0\0\0\0\x02\0\0\0\x09EVERYONE@\0\0\0";

// ALLOW - READ_DATA|EXECUTE OWNER@.
const OWNER_RUNS: &[u8] = b"\0\0\0\x01\0\0\0\0\0\0\0\0\0\0\0!\0\0\0\x06OWNER@\0\0";

// ALLOW - READ_DATA bob, DENY - READ_DATA OWNER@.
const BOB_FIRST: &[u8] = b"\0\0\0\x02\
    \0\0\0\0\0\0\0\0\0\0\0\x01\0\0\0\x03bob\0\
    \0\0\0\x01\0\0\0\0\0\0\0\x01\0\0\0\x06OWNER@\0\0";

// DENY - READ_DATA OWNER@, ALLOW - READ_DATA bob.
const BOB_LAST: &[u8] = b"\0\0\0\x02\
    \0\0\0\x01\0\0\0\0\0\0\0\x01\0\0\0\x06OWNER@\0\0\
    \0\0\0\0\0\0\0\0\0\0\0\x01\0\0\0\x03bob\0";

// DENY GROUP READ_DATA eng, ALLOW GROUP READ_DATA staff, and the other way round.
const ENG_FIRST: &[u8] = b"\0\0\0\x02\
    \0\0\0\x01\0\0\0@\0\0\0\x01\0\0\0\x03eng\0\
    \0\0\0\0\0\0\0@\0\0\0\x01\0\0\0\x05staff\0\0\0";

const ENG_LAST: &[u8] = b"\0\0\0\x02\
    \0\0\0\0\0\0\0@\0\0\0\x01\0\0\0\x05staff\0\0\0\
    \0\0\0\x01\0\0\0@\0\0\0\x01\0\0\0\x03eng\0";

// DENY - EXECUTE OWNER@, ALLOW - EXECUTE GROUP@, and the other way round.
const OWNER_FIRST: &[u8] = b"\0\0\0\x02\
    \0\0\0\x01\0\0\0\0\0\0\0\x20\0\0\0\x06OWNER@\0\0\
    \0\0\0\0\0\0\0\0\0\0\0\x20\0\0\0\x06GROUP@\0\0";

const OWNER_LAST: &[u8] = b"\0\0\0\x02\
    \0\0\0\0\0\0\0\0\0\0\0\x20\0\0\0\x06GROUP@\0\0\
    \0\0\0\x01\0\0\0\0\0\0\0\x20\0\0\0\x06OWNER@\0\0";

// The first ten bytes of a list.
const BEGUN: &[u8] = b"\0\0\0\x01\0\0\0\0\0\0";

// ---- rows

// Two lists, with the status and what `compare` writes about them.
type Pair = (&'static [u8], &'static [u8], u8, &'static [u8]);

// A line of words and two lists, with the fault of the input.
type RefusedPair = (&'static str, &'static [u8], &'static [u8], &'static str);

// Lists that grant the same, and lists with the first situation in which they differ.
static COMPARISONS: [Pair; 11] = [
    (WITHOUT_BOB, BEHIND_ALICE, 0, b"same\n"),
    (
        OPS_FIRST,
        OPS_LAST,
        1,
        b"differ\nowner oooo\ngroup gggg\nuser ops\nmember ops\nmask READ_DATA\nfirst granted\nsecond denied\n",
    ),
    (
        STAFF_DENIED,
        READ_OF_THE_GROUP,
        1,
        b"differ\nowner oooooo\ngroup staff\nuser uuuuuu\nmember staff\nmask READ_DATA\nfirst denied\n\
        second granted\n",
    ),
    (
        EMPTY,
        WRITE_OF_ALL,
        1,
        b"differ\nowner o\ngroup g\nuser u\nmask WRITE_DATA\nfirst denied\nsecond granted\n",
    ),
    (
        OWNER_RUNS,
        READ_OF_THE_OWNER,
        1,
        b"differ\nowner u\ngroup g\nuser u\nmask EXECUTE\nfirst granted\nsecond denied\n",
    ),
    (
        BOB_FIRST,
        BOB_LAST,
        1,
        b"differ\nowner bob\ngroup gggg\nuser bob\nmask READ_DATA\nfirst granted\nsecond denied\n",
    ),
    // Strange names are one byte longer than the longest name that the lists mention.
    (
        READ_OF_ALICE,
        EMPTY,
        1,
        b"differ\nowner oooooo\ngroup gggggg\nuser alice\nmask READ_DATA\nfirst granted\n\
        second denied\n",
    ),
    // If the lists mention no name, strange names have one byte. The strange group is that of the object and of the
    // user.
    (
        READ_OF_THE_GROUP,
        EMPTY,
        1,
        b"differ\nowner o\ngroup g\nuser u\nmember g\nmask READ_DATA\nfirst granted\nsecond denied\n",
    ),
    // The owner of an object, who is in its group.
    (
        OWNER_FIRST,
        OWNER_LAST,
        1,
        b"differ\nowner u\ngroup g\nuser u\nmember g\nmask EXECUTE\nfirst denied\nsecond granted\n",
    ),
    // A user in two groups, neither of which is the group of the object.
    (
        ENG_FIRST,
        ENG_LAST,
        1,
        b"differ\nowner oooooo\ngroup gggggg\nuser uuuuuu\nmember eng\nmember staff\nmask READ_DATA\n\
        first denied\nsecond granted\n",
    ),
    // The lists differ on READ_DATA for a user amy in the group staff, but the situation with no mentioned name comes
    // first.
    (
        AMY_INHERITED,
        AMY_AND_ALL,
        1,
        b"differ\nowner oooooo\ngroup gggggg\nuser uuuuuu\nmask EXECUTE\nfirst denied\nsecond granted\n",
    ),
];

// Pairs of lists whose second list is refused.
static REFUSALS: [RefusedPair; 4] = [
    ("compare", READ_OF_ALL, BEGUN, "Truncated at byte 40"),
    (
        "compare",
        READ_OF_ALL,
        WITH_A_BYTE,
        "TrailingBytes at byte 64",
    ),
    (
        "compare --profile narrow",
        EMPTY,
        RETENTION_OF_BOB,
        "MaskBits at byte 16",
    ),
    ("compare", EMPTY, b"", "Truncated at byte 4"),
];

/// Tests that each pair of lists is answered or refused as its row says.
pub fn holds<A: Abort>(rt: &A, trial: Trial) {
    for (first, second, status, text) in &COMPARISONS {
        let answer = Answer::Text(*status, text);
        assert!(rt;
            trial.passes_joined("compare", first, second, answer),
            "{text:?}"
        );
    }
    for (line, first, second, fault) in &REFUSALS {
        let answer = Answer::Fault(fault);
        assert!(rt; trial.passes_joined(line, first, second, answer), "{fault}");
    }
}
