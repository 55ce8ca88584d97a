//! `show-nfs` over lists in bytes (the format in docs/reference/formats.md; the bytes are those of RFC 8881, section
//! 6.2.1).

use crate::tests::harness::Table;
use crate::tests::lists::{BLANKS, EMPTY, GROUP_FLAGGED, INHERITED_OF_BOB, NO_RIGHTS, WITH_A_BYTE};

/// Lists with their texts; lines whose input is refused; and lines that ask for nothing.
pub static TABLE: Table = Table {
    answers: &[
        (
            "show-nfs",
            0,
            &[
                (b"\0\0\0\0", b""),
                (GROUP_FLAGGED, b"ALLOW GROUP READ_DATA GROUP@\n"),
                (
                    BLANKS,
                    b"ALLOW DIR|GROUP READ_DATA|WRITE_DATA  two words \n",
                ),
                (NO_RIGHTS, b"DENY - - OWNER@\n"),
            ],
        ),
        (
            "show-nfs --profile=full",
            0,
            &[(INHERITED_OF_BOB, b"ALLOW INHERITED READ_DATA bob\n")],
        ),
    ],
    asked: &[],
    refusals: &[
        (
            "show-nfs --profile narrow",
            &[(INHERITED_OF_BOB, "FlagBits at byte 8")],
        ),
        (
            "show-nfs",
            &[
                (WITH_A_BYTE, "TrailingBytes at byte 32"),
                (b"\0\0\0\x01\0\0\0\x02", "AuditOrAlarm at byte 4"),
            ],
        ),
    ],
    usage: &["show-nfs bob"],
    unread: EMPTY,
};
