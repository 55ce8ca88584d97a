//! `encode` over texts of lists (the format in docs/reference/formats.md). The bytes are those of RFC 8881, section
//! 6.2.1, as XDR (RFC 4506).

use crate::tests::harness::Table;
use crate::tests::lists::{BLANKS, GROUP_FLAGGED, INHERITED_OF_BOB, NO_RIGHTS};

/// Texts with their lists; lines whose input is refused; and lines that ask for nothing.
pub static TABLE: Table = Table {
    answers: &[
        (
            "encode",
            0,
            &[
                (b"", b"\0\0\0\0"),
                (b"ALLOW GROUP READ_DATA GROUP@\n", GROUP_FLAGGED),
                (
                    b"ALLOW GROUP|DIR|GROUP ADD_FILE|LIST_DIRECTORY  two words ",
                    BLANKS,
                ),
                (b"# x\nDENY - - OWNER@", NO_RIGHTS),
            ],
        ),
        (
            "encode --profile full",
            0,
            &[(b"ALLOW INHERITED READ_DATA bob", INHERITED_OF_BOB)],
        ),
    ],
    asked: &[],
    refusals: &[
        (
            "encode",
            &[
                (b"ALLOW FILE|| READ_DATA bob", "Flag at line 1 column 7"),
                (b"ALLOW  READ_DATA bob", "Flag at line 1 column 7"),
                (b"ALLOW - READ_DATA|AUDIT bob", "Mask at line 1 column 9"),
                (b"ALLOW - READ_DATA bob\r", "WhoControl at line 1 column 19"),
                (b" # x", "Fields at line 1 column 1"),
                (b"ALLOW - READ_DATA ", "WhoLength at line 1 column 19"),
                (b"\nAUDIT - READ_DATA bob", "AceType at line 2 column 1"),
                (b"ALLOW READ_DATA bob", "Fields at line 1 column 1"),
            ],
        ),
        (
            "encode --profile narrow",
            &[
                (b"ALLOW INHERITED READ_DATA bob", "Flag at line 1 column 7"),
                (b"ALLOW - WRITE_RETENTION bob", "Mask at line 1 column 9"),
            ],
        ),
    ],
    usage: &["encode --profile wide"],
    unread: b"",
};
