//! One ACE at its offset. The offsets are those of the layout of RFC 4506, over RFC 8881, section 6.2.1.

use acl_nfs4::*;
use std::test::Fail;

// DENY READ_DATA to the group staff, at 4, and ALLOW WRITE_DATA to OWNER@, at 28.
static LIST: &[u8; 52] = b"\0\0\0\x02\
    \0\0\0\x01\0\0\0\x40\0\0\0\x01\0\0\0\x05staff\0\0\0\
    \0\0\0\0\0\0\0\0\0\0\0\x02\0\0\0\x06OWNER@\0\0\
    ";

// The offsets of two words that are no types, of two bytes before the end, and of a byte that is not there.
static ELSEWHERE: [(usize, Reason); 4] = [
    (20, Reason::AceType),
    (48, Reason::AceType),
    (50, Reason::Truncated),
    (53, Reason::Truncated),
];

#[test]
fn aces_follow_one_another(rt: HostRuntime) -> Result<(), Fail> {
    let rows: [(usize, usize, &[u8]); 3] = [
        (0, 28, b"staff"),
        (4, 28, b"staff"),
        (28, 52, b"OWNER@"),
    ];
    for (offset, end, who) in rows {
        let next = ace_at(LIST, offset, Profile::FULL)?.ok_or("an ACE is there")?;
        assert!(rt; next.ace.who == who && next.end == end, "{offset}");
    }
    assert!(rt; ace_at(LIST, 52, Profile::FULL)?.is_none());
    assert!(rt; ace_at(&[0; 4], 0, Profile::FULL)?.is_none());
    Ok(())
}

#[test]
fn other_offsets_give_faults(rt: HostRuntime) -> Result<(), Fail> {
    for (offset, reason) in ELSEWHERE {
        let fault = ace_at(LIST, offset, Profile::FULL).err();
        let expected = Fault {
            offset: offset as u64,
            reason,
        };
        assert!(rt; fault == Some(expected), "{offset}");
    }
    Ok(())
}
