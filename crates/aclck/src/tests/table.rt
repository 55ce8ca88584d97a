//! `table` over lists in bytes (the format in docs/reference/formats.md).

use crate::tests::harness::{Asked, Table};
use crate::tests::lists::{
    AMY_AND_ALL, AMY_INHERITED, BOB_AND_OWNER, EMPTY, GROUP_FLAGGED, RETENTION_OF_BOB,
};

// Lists, with their rows for a right.
const ROWS: &[Asked] = &[
    (
        BOB_AND_OWNER,
        &[
            (
                "table --bit WRITE_DATA",
                0,
                b"0 DENY - bob\n1 ALLOW - OWNER@\n",
            ),
            ("table --bit=READ_DATA", 0, b"1 ALLOW - OWNER@\n"),
            ("table --bit DELETE", 0, b""),
        ],
    ),
    (
        AMY_AND_ALL,
        &[
            ("table --bit EXECUTE", 0, b"2 ALLOW - EVERYONE@\n"),
            (
                "table --bit LIST_DIRECTORY",
                0,
                b"0 DENY GROUP staff\n1 ALLOW - amy\n",
            ),
        ],
    ),
    (
        AMY_INHERITED,
        &[(
            "table --profile narrow --bit READ_DATA",
            0,
            b"1 ALLOW - amy\n",
        )],
    ),
    (
        GROUP_FLAGGED,
        &[("table --bit READ_DATA", 0, b"0 ALLOW - GROUP@\n")],
    ),
    (
        RETENTION_OF_BOB,
        &[("table --bit WRITE_RETENTION", 0, b"0 ALLOW - bob\n")],
    ),
];

/// Lines whose input is refused, and lines that ask for nothing.
pub static TABLE: Table = Table {
    answers: &[],
    asked: ROWS,
    refusals: &[
        (
            "table --bit READ_DATA --profile=narrow",
            &[(RETENTION_OF_BOB, "MaskBits at byte 12")],
        ),
        (
            "table --bit READ_DATA",
            &[(b"\0\0\0", "Truncated at byte 0")],
        ),
    ],
    usage: &[
        "table",
        "table --bit none",
        "table --bit -",
        "table --bit=-",
        "table --bit READ_DATA|READ_DATA",
        "table --bit WRITE_RETENTION --profile narrow",
    ],
    unread: EMPTY,
};
