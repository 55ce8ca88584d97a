//! `calc-mask` over texts of POSIX ACLs (POSIX.1e draft 17, section 23.4; acl(5), "LONG TEXT FORM").

use crate::tests::harness::Table;
use crate::tests::texts::{MASKED, PLAIN};

/// A text with a mask and one without.
pub static TABLE: Table = Table {
    answers: &[(
        "calc-mask",
        0,
        &[
            (
                MASKED,
                b"user::rw-\nuser:1001:rw-\ngroup::r--\ngroup:50:rw-\nmask::rw-\nother::r--\n",
            ),
            (PLAIN, b"user::rwx\ngroup::r-x\nmask::r-x\nother::---\n"),
        ],
    )],
    asked: &[],
    refusals: &[],
    usage: &[],
    unread: PLAIN,
};
