//! `check-posix` over texts of POSIX ACLs (acl(5), "ACCESS CHECK ALGORITHM").

use crate::tests::harness::{Asked, Table};
use crate::tests::texts::{GROUPS, PLAIN};

// A text, and what `check-posix` answers about it.
const CHECKS: &[Asked] = &[(
    GROUPS,
    &[
        (
            "check-posix --owner 1 --group 2 --user 3 --groups 50,60 --want rw",
            1,
            b"denied\n",
        ),
        (
            "check-posix --owner 1 --group 2 --user 3 --groups 50,060 --want r",
            0,
            b"granted\n",
        ),
        (
            "check-posix --owner 1 --group 2 --user 003 --groups 60 --want w",
            0,
            b"granted\n",
        ),
        (
            "check-posix --owner 1 --group 2 --user 3 --want none",
            0,
            b"granted\n",
        ),
        (
            "check-posix --owner 1 --group 2 --user 1 --want xwr",
            0,
            b"granted\n",
        ),
    ],
)];

/// A text with an invalid default ACL, and words that ask for nothing.
pub static TABLE: Table = Table {
    answers: &[],
    asked: CHECKS,
    refusals: &[(
        "check-posix --owner 1 --group 2 --user 3 --want r",
        &[(b"u::r,g::r,o::r,d:u::r", "Invalid default: Miss GROUP_OBJ")],
    )],
    usage: &[
        "check-posix --owner 1 --group 2 --user 3 --groups 50,,60 --want r",
        "check-posix --owner +1 --group 2 --user 3 --want r",
        "check-posix --owner 4294967295 --group 2 --user 3 --want r",
        "check-posix --owner 1 --group 2 --user 3 --want rr",
    ],
    unread: PLAIN,
};
