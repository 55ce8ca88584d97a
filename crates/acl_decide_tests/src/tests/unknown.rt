//! What a list answers where nobody knows whom a special identifier matches. For each row, RFC 8881, section 6.2.1, is
//! asked once for each assignment of matches to the names; READ_DATA is 0x1, WRITE_DATA is 0x2, APPEND_DATA is 0x4.

use acl_decide::*;
use acl_eval::{Object, Requester};
use acl_nfs4::AccessPart;
use acl_perm::Mask;
use std::alloc::Global;
use std::test::Fail;

// An ACE as its type, flags, mask and who.
type Row = (u32, u32, u32, &'static str);

const ALLOW: u32 = 0;

const DENY: u32 = 1;

const AUDIT: u32 = 2;

// Returns a length as a word.
fn length_word(len: usize) -> Result<[u8; 4], Fail> {
    let number = u32::try_from(len).ok().ok_or("too long")?;
    Ok(number.to_be_bytes())
}

// Returns the bytes of the list of these rows, in the layout of RFC 4506.
fn spelled(alloc: Global, rows: &[Row]) -> Result<Vec<u8>, Fail> {
    let mut bytes = Vec::new(alloc);
    bytes.extend_from_slice(&length_word(rows.len())?)?;
    for (number, flags, mask, who) in rows {
        for word in [*number, *flags, *mask] {
            bytes.extend_from_slice(&word.to_be_bytes())?;
        }
        bytes.extend_from_slice(&length_word(who.len())?)?;
        bytes.extend_from_slice(who.as_bytes())?;
        for _ in 0..(4 - who.len() % 4) % 4 {
            bytes.push(0)?;
        }
    }
    Ok(bytes)
}

// Rights 1, 2 and 4 for bob: allowed, denied, undecided and unknown; and the answer for each request.
static ROWS: [(&[Row], [u32; 4], RequestAnswer); 9] = [
    (&[(ALLOW, 0, 3, "bob")], [3, 0, 4, 0], RequestAnswer::Never),
    (
        &[(ALLOW, 0, 7, "EVERYONE@")],
        [7, 0, 0, 0],
        RequestAnswer::Always,
    ),
    (
        &[(DENY, 0, 1, "X@"), (ALLOW, 0, 7, "EVERYONE@")],
        [6, 0, 0, 1],
        RequestAnswer::Depends,
    ),
    // An audit denies nothing.
    (
        &[(AUDIT, 0, 1, "X@"), (ALLOW, 0, 7, "EVERYONE@")],
        [7, 0, 0, 0],
        RequestAnswer::Always,
    ),
    // A later ACE of the same name decides nothing.
    (
        &[
            (ALLOW, 0, 1, "X@"),
            (DENY, 0, 1, "X@"),
            (ALLOW, 0, 7, "EVERYONE@"),
        ],
        [7, 0, 0, 0],
        RequestAnswer::Always,
    ),
    // Each right may be granted, and both never.
    (
        &[
            (ALLOW, 0, 1, "X@"),
            (DENY, 0, 2, "X@"),
            (ALLOW, 0, 6, "EVERYONE@"),
        ],
        [4, 0, 0, 3],
        RequestAnswer::Never,
    ),
    // The same with two names.
    (
        &[
            (ALLOW, 0, 1, "X@"),
            (DENY, 0, 2, "Y@"),
            (ALLOW, 0, 6, "EVERYONE@"),
        ],
        [4, 0, 0, 3],
        RequestAnswer::Depends,
    ),
    // No ACE decides if the name does not match, and a DENY does if it matches.
    (
        &[(DENY, 0, 1, "X@"), (ALLOW, 0, 6, "bob")],
        [6, 1, 0, 0],
        RequestAnswer::Never,
    ),
    // An ACE with INHERIT_ONLY takes no part.
    (
        &[(DENY, 0x0a, 1, "X@"), (ALLOW, 0, 7, "bob")],
        [7, 0, 0, 0],
        RequestAnswer::Always,
    ),
];

mod ample {
    use super::*;

    #[test]
    fn each_right_and_each_request_is_answered(rt: HostRuntime) -> Result<(), Fail> {
        let object = Object::new(b"alice", b"staff").ok_or("a name is empty")?;
        let bob = Requester::new(b"bob", &[b"staff"]).ok_or("a name is empty")?;
        let mask = Mask::new(7).ok_or("no mask")?;
        for (place, (rows, expected, answer)) in ROWS.iter().enumerate() {
            let bytes = spelled(rt.alloc(), rows)?;
            let part = AccessPart::parse_whole(rt.alloc(), &bytes)?;
            let decided = decided_with_unknown(rt.alloc(), &part, &object, &bob, mask)?;
            let found = [
                decided.allowed.bits(),
                decided.denied.bits(),
                decided.undecided.bits(),
                decided.unknown.bits(),
            ];
            assert!(rt; found == *expected, "{place}");
            let found = request_answer(rt.alloc(), &part, &object, &bob, mask)?;
            assert!(rt; found == *answer, "{place}");
        }
        Ok(())
    }
}
