//! `child` over lists in bytes (the rules of creation in docs/reference/lists.md).

use crate::tests::harness::Table;
use crate::tests::lists::{EMPTY, READ_OF_ALICE, READ_OF_THE_GROUP};

// ---- lists

// ALLOW FILE READ_DATA alice.
const FOR_FILES: &[u8] = b"\0\0\0\x01\0\0\0\0\0\0\0\x01\0\0\0\x01\0\0\0\x05alice\0\0\0";

// ALLOW FILE|INHERITONLY READ_DATA alice.
const WAITING: &[u8] = b"\0\0\0\x01\0\0\0\0\0\0\0\x09\0\0\0\x01\0\0\0\x05alice\0\0\0";

// ALLOW FILE|NOPROP READ_DATA alice.
const FOR_FILES_ONCE: &[u8] = b"\0\0\0\x01\0\0\0\0\0\0\0\x05\0\0\0\x01\0\0\0\x05alice\0\0\0";

// ALLOW DIR|NOPROP|INHERITONLY READ_DATA alice.
const FOR_DIRECTORIES_ONCE: &[u8] = b"\0\0\0\x01\0\0\0\0\0\0\0\x0e\0\0\0\x01\0\0\0\x05alice\0\0\0";

// ALLOW FILE|DIR|INHERITONLY|INHERITED READ_DATA GROUP@.
const OF_THE_GROUP: &[u8] = b"\0\0\0\x01\0\0\0\0\0\0\0\x8b\0\0\0\x01\0\0\0\x06GROUP@\0\0";

// ALLOW FILE|DIR READ_DATA GROUP@.
const GROUP_IN_A_DIRECTORY: &[u8] = b"\0\0\0\x01\0\0\0\0\0\0\0\x03\0\0\0\x01\0\0\0\x06GROUP@\0\0";

// DENY DIR|SUCCESS|GROUP WRITE_DATA staff.
const OF_STAFF: &[u8] = b"\0\0\0\x01\0\0\0\x01\0\0\0\x52\0\0\0\x02\0\0\0\x05staff\0\0\0";

// ---- rows

/// Lists with the list that a child gets; lines whose input is refused; and lines that ask for nothing.
pub static TABLE: Table = Table {
    answers: &[
        (
            "child --kind dir",
            0,
            &[(FOR_FILES, WAITING), (FOR_FILES_ONCE, EMPTY)],
        ),
        (
            "child --kind file",
            0,
            &[
                (WAITING, READ_OF_ALICE),
                (OF_THE_GROUP, READ_OF_THE_GROUP),
                (OF_STAFF, EMPTY),
                (EMPTY, EMPTY),
            ],
        ),
        (
            "child --kind=dir",
            0,
            &[(FOR_DIRECTORIES_ONCE, READ_OF_ALICE)],
        ),
        (
            "child --kind dir --profile=full",
            0,
            &[(OF_THE_GROUP, GROUP_IN_A_DIRECTORY)],
        ),
        (
            "child --profile narrow --kind dir",
            0,
            &[(OF_STAFF, OF_STAFF)],
        ),
    ],
    asked: &[],
    refusals: &[
        (
            "child --kind file --profile narrow",
            &[(OF_THE_GROUP, "FlagBits at byte 8")],
        ),
        (
            "child --kind file",
            &[(b"\0\0\0\x01\0\0\0\x02", "AuditOrAlarm at byte 4")],
        ),
    ],
    usage: &[
        "child",
        "child --kind link",
        "child --kind=",
        "child --kind file x",
        "child --kind file --kind dir",
    ],
    unread: EMPTY,
};
