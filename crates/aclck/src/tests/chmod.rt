//! `chmod` over texts of POSIX ACLs (acl(5), "CORRESPONDENCE BETWEEN ACL ENTRIES AND FILE PERMISSION BITS").

use crate::tests::harness::Table;
use crate::tests::texts::{MASKED, PLAIN};

/// A text in which the mode sets the mask, and a line whose mode has one digit too many.
pub static TABLE: Table = Table {
    answers: &[(
        "chmod --mode 660",
        0,
        &[(
            MASKED,
            b"user::rw-\nuser:1001:rw-\ngroup::r--\ngroup:50:rw-\nmask::rw-\nother::---\n",
        )],
    )],
    asked: &[],
    refusals: &[],
    usage: &["chmod --mode 00660"],
    unread: PLAIN,
};
