//! The mode of a list, by RFC 8881, section 6.3.2.

use acl_eval::*;
use acl_lists_for_tests::{ALLOW, AceRow, DENY, built, passes};
use acl_nfs4::{AclView, PushFault};
use std::alloc::Global;
use std::process::Abort;
use std::test::Fail;

// DENY WRITE_DATA OWNER@, ALLOW READ_DATA, WRITE_DATA and APPEND_DATA EVERYONE@.
const NO_WRITE: &[u8; 56] = b"\0\0\0\x02\
    \0\0\0\x01\0\0\0\0\0\0\0\x02\0\0\0\x06OWNER@\0\0\
    \0\0\0\0\0\0\0\0\0\0\0\x07\0\0\0\x09EVERYONE@\0\0\0";

// A list, and its mode.
static MODES: [(&[AceRow], u16); 14] = [
    (
        &[(DENY, 0, 2, b"OWNER@"), (ALLOW, 0, 7, b"EVERYONE@")],
        0o466,
    ),
    (
        &[
            (ALLOW, 0, 1, b"OWNER@"),
            (DENY, 0, 1, b"EVERYONE@"),
            (ALLOW, 0x08, 6, b"GROUP@"),
            (ALLOW, 0, 0x20, b"EVERYONE@"),
        ],
        0o511,
    ),
    (&[], 0),
    (&[(ALLOW, 0, 0x27, b"OWNER@")], 0o700),
    (&[(ALLOW, 0, 0x27, b"GROUP@")], 0o070),
    (&[(ALLOW, 0, 0x27, b"EVERYONE@")], 0o777),
    (&[(ALLOW, 0, 0x27, b"bob")], 0),
    (&[(ALLOW, 0x40, 0x27, b"staff")], 0),
    (&[(ALLOW, 0x40, 0x27, b"GROUP@")], 0o070),
    (&[(ALLOW, 0, 0x01, b"EVERYONE@")], 0o444),
    (&[(ALLOW, 0, 0x02, b"EVERYONE@")], 0),
    (&[(ALLOW, 0, 0x04, b"EVERYONE@")], 0),
    (&[(ALLOW, 0, 0x06, b"EVERYONE@")], 0o222),
    (&[(ALLOW, 0, 0x20, b"EVERYONE@")], 0o111),
];

#[test]
fn a_view_has_the_mode_of_its_aces(rt: HostRuntime) -> Result<(), Fail> {
    let list = AclView::parse_whole(NO_WRITE)?;
    assert_eq!(rt; mode_of(list.aces()).bits(), 0o466);
    Ok(())
}

/// Checks that each list has the mode of its row.
pub fn check_modes(rt: &impl Abort, alloc: Global) -> Result<(), PushFault> {
    for (rows, mode) in MODES {
        let list = built(alloc, rows)?;
        assert!(rt; mode_of(list.aces()).bits() == mode);
    }
    Ok(())
}

#[test]
fn each_list_has_the_mode_of_its_row(rt: HostRuntime) {
    assert!(rt; passes(check_modes(&rt, rt.alloc())));
}
