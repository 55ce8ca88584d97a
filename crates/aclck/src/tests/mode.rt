//! `mode` over lists in bytes (RFC 8881, section 6.3.2).

use crate::tests::harness::Table;
use crate::tests::lists::{EMPTY, RETENTION_OF_BOB};

// ---- lists

// DENY - WRITE_DATA OWNER@, ALLOW - READ_DATA|WRITE_DATA|APPEND_DATA EVERYONE@.
const WITHOUT_THE_OWNER: &[u8] = b"\0\0\0\x02\
    \0\0\0\x01\0\0\0\0\0\0\0\x02\0\0\0\x06OWNER@\0\0\
    \0\0\0\0\0\0\0\0\0\0\0\x07\0\0\0\x09EVERYONE@\0\0\0";

// ALLOW - READ_DATA OWNER@, DENY - READ_DATA EVERYONE@, ALLOW INHERITONLY WRITE_DATA|APPEND_DATA GROUP@,
// ALLOW - EXECUTE EVERYONE@.
const OF_ALL: &[u8] = b"\0\0\0\x04\
    \0\0\0\0\0\0\0\0\0\0\0\x01\0\0\0\x06OWNER@\0\0\
    \0\0\0\x01\0\0\0\0\0\0\0\x01\0\0\0\x09EVERYONE@\0\0\0\
    \0\0\0\0\0\0\0\x08\0\0\0\x06\0\0\0\x06GROUP@\0\0\
    \0\0\0\0\0\0\0\0\0\0\0\x20\0\0\0\x09EVERYONE@\0\0\0";

// ---- rows

/// Lists with their modes; lines whose input is refused; and lines that ask for nothing.
pub static TABLE: Table = Table {
    answers: &[
        (
            "mode",
            0,
            &[(WITHOUT_THE_OWNER, b"466\n"), (EMPTY, b"000\n")],
        ),
        ("mode --profile narrow", 0, &[(WITHOUT_THE_OWNER, b"466\n")]),
        ("mode --", 0, &[(OF_ALL, b"511\n")]),
        ("mode --profile full", 0, &[(RETENTION_OF_BOB, b"000\n")]),
    ],
    asked: &[],
    refusals: &[
        (
            "mode --profile=narrow",
            &[(RETENTION_OF_BOB, "MaskBits at byte 12")],
        ),
        (
            "mode",
            &[
                (b"\0\0\0\0\0", "TrailingBytes at byte 4"),
                (b"\0\0\0", "Truncated at byte 0"),
            ],
        ),
    ],
    usage: &["mode x", "mode --profile wide", "mode --kind file"],
    unread: EMPTY,
};
