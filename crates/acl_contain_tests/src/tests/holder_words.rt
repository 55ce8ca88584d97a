//! Who has a right, in words. The rows are worked by hand from docs/reference/lists.md ("The normal form"), and the
//! words are those of docs/reference/lists.md ("Who has a right").

use super::lists::{
    AMY, EVERYONE, EXECUTE, GROUP, NO_STAFF, NO_WRITE, OWNER, READ_DATA, STAFF, WRITE_DATA,
};
use acl_contain::holders;
use acl_lists_for_tests::{ALLOW, AceRow, DENY, built, kept, passes};
use acl_nfs4::{Acl, PushFault};
use acl_perm::Mask;
use std::alloc::{AllocError, Global};
use std::process::Abort;

// All but zoe and the group staff may read, and bob may in any case.
const BOB_FIRST: [AceRow; 4] = [
    (ALLOW, 0, READ_DATA, b"bob"),
    (DENY, 0, READ_DATA, b"zoe"),
    NO_STAFF,
    EVERYONE,
];

// All but carl may read, and amy and bob may even if they are in the group staff, which may not.
const TWO_FIRST: [AceRow; 5] = [
    (ALLOW, 0, READ_DATA, b"bob"),
    AMY,
    NO_STAFF,
    (DENY, 0, READ_DATA, b"carl"),
    EVERYONE,
];

// Some may read, and nobody is denied.
const FOUR: [AceRow; 4] = [
    OWNER,
    AMY,
    (ALLOW, 0, READ_DATA, b"GROUP@"),
    (ALLOW, GROUP, READ_DATA, b"the owner"),
];

static TEXTS: [(&[AceRow], u32, &[u8]); 10] = [
    (&[], READ_DATA, b"nobody\n"),
    (&[EVERYONE], READ_DATA, b"everybody\n"),
    (&[EVERYONE], 0, b"nobody\n"),
    (&[NO_STAFF], READ_DATA, b"nobody\n"),
    (&NO_WRITE, WRITE_DATA, b"the owner\nbut not user bob\n"),
    (&STAFF, READ_DATA, b"user amy\nbut not group staff\n"),
    (&STAFF, EXECUTE, b"everybody\n"),
    (
        &FOUR,
        READ_DATA,
        b"group the owner\nand the owning group\nand user amy\nand the owner\n",
    ),
    (
        &BOB_FIRST,
        READ_DATA,
        b"everybody\nbut not group staff\nand not user zoe\nbut user bob\n",
    ),
    (
        &TWO_FIRST,
        READ_DATA,
        b"everybody\nbut not group staff\nand not user carl\nbut user bob\nand user amy\n",
    ),
];

fn has_text(alloc: Global, list: &Acl, right: Mask, text: &[u8]) -> Result<bool, AllocError> {
    Ok(holders(alloc, list, right)?.as_slice() == text)
}

/// The text has one line for each row.
pub fn holder_words(rt: &impl Abort, alloc: Global) -> Result<(), PushFault> {
    for (rows, bits, text) in &TEXTS {
        let list = built(alloc, rows)?;
        if let Some(right) = Mask::new(*bits) {
            assert!(rt; kept(has_text(alloc, &list, right, text))?);
        }
    }
    Ok(())
}

#[test]
fn holders_says_in_words_who_has_a_right(rt: HostRuntime) {
    assert!(rt; passes(holder_words(&rt, rt.alloc())));
}
