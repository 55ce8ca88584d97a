//! Whether two worked lists grant the same, by the first match (RFC 8881, section 6.2.1).

use acl_contain::same_views;
use acl_lists_for_tests::{kept, passes};
use acl_nfs4::{PushFault, parse_text};
use std::alloc::Global;
use std::process::Abort;

// The texts of two lists, and whether the lists grant the same.
static PAIRS: [(&[u8], &[u8], bool); 15] = [
    (
        b"DENY - READ_DATA bob\nALLOW - READ_DATA alice\n",
        b"ALLOW - READ_DATA alice\nDENY - READ_DATA bob\n",
        true,
    ),
    // A user and a group of one name.
    (
        b"ALLOW - READ_DATA ops\nDENY GROUP READ_DATA ops\n",
        b"DENY GROUP READ_DATA ops\nALLOW - READ_DATA ops\n",
        false,
    ),
    // A member of the owning group, which is named too.
    (
        b"DENY GROUP READ_DATA staff\nALLOW - READ_DATA GROUP@\n",
        b"ALLOW - READ_DATA GROUP@\n",
        false,
    ),
    (b"", b"ALLOW - WRITE_DATA EVERYONE@\n", false),
    (
        b"ALLOW - READ_DATA|EXECUTE OWNER@\n",
        b"ALLOW - READ_DATA OWNER@\n",
        false,
    ),
    // A user who is the owner.
    (
        b"ALLOW - READ_DATA bob\nDENY - READ_DATA OWNER@\n",
        b"DENY - READ_DATA OWNER@\nALLOW - READ_DATA bob\n",
        false,
    ),
    (b"ALLOW - EXECUTE|WRITE_DATA EVERYONE@\n", b"", false),
    (b"ALLOW - READ_DATA GROUP@\n", b"", false),
    // An ACE without rights, and an ACE that is only inherited.
    (
        b"DENY - - alice\nALLOW INHERITONLY READ_DATA robert\n",
        b"ALLOW - READ_DATA EVERYONE@\n",
        false,
    ),
    // One principal before two.
    (
        b"ALLOW - READ_DATA amy\nDENY GROUP READ_DATA ops\nALLOW - WRITE_DATA bob\n",
        b"DENY GROUP READ_DATA ops\nALLOW - READ_DATA amy\n",
        false,
    ),
    // Two groups, of which a requester may be in both.
    (
        b"DENY GROUP READ_DATA b\nALLOW GROUP READ_DATA a\n",
        b"ALLOW GROUP READ_DATA a\nDENY GROUP READ_DATA b\n",
        false,
    ),
    // One more ACE at the front, which denies a right that nobody is allowed.
    (
        b"ALLOW - READ_DATA bob\nALLOW - WRITE_DATA amy\n",
        b"DENY - EXECUTE carl\nALLOW - READ_DATA bob\nALLOW - WRITE_DATA amy\n",
        true,
    ),
    // One more ACE, which takes no part.
    (
        b"DENY GROUP READ_DATA ops\nALLOW - READ_DATA bob\n",
        b"ALLOW INHERITONLY READ_DATA|WRITE_DATA ops\nDENY GROUP READ_DATA ops\nALLOW - READ_DATA bob\n",
        true,
    ),
    // Two ACEs in the opposite order, on one right of two.
    (
        b"ALLOW - READ_DATA amy\nDENY GROUP WRITE_DATA ops\nALLOW - WRITE_DATA bob\n",
        b"ALLOW - READ_DATA amy\nALLOW - WRITE_DATA bob\nDENY GROUP WRITE_DATA ops\n",
        false,
    ),
    (b"", b"", true),
];

/// `same_views` says of each pair whether both lists grant the same.
pub fn equal_lists(rt: &impl Abort, alloc: Global) -> Result<(), PushFault> {
    for (text, other, expected) in &PAIRS {
        let first = kept(parse_text(alloc, text))?;
        let second = kept(parse_text(alloc, other))?;
        let answer = kept(same_views(alloc, &first.view(), &second.view()))?;
        assert!(rt; answer == *expected);
    }
    Ok(())
}

#[test]
fn same_says_whether_two_lists_grant_the_same(rt: HostRuntime) {
    assert!(rt; passes(equal_lists(&rt, rt.alloc())));
}
