//! The ACE that decides a right, by RFC 8881, section 6.2.1.

use acl_decide::*;
use acl_eval::{Object, Requester};
use acl_nfs4::{Acl, parse_text};
use acl_perm::{Kind, Right};
use std::test::Fail;

const THREE: &str = "ALLOW - READ_DATA OWNER@\nDENY - WRITE_DATA bob\nALLOW - WRITE_DATA OWNER@";

const INHERIT_ONLY: &str = "ALLOW FILE|INHERITONLY READ_DATA alice";

const OWNING_GROUP: &str = "ALLOW GROUP READ_DATA GROUP@";

const GROUP_NAMED: &str = "DENY GROUP|FILE|INHERITONLY READ_DATA guest
DENY GROUP READ_DATA users
ALLOW - READ_DATA EVERYONE@";

const LONG_NAMES: &str = "DENY - READ_DATA x-long-name@a\nALLOW - READ_DATA y-long-name@a";

// A list, the requester and the requester's groups, the bit of a right, and the place and kind of the ACE that decides
// it by RFC 8881, section 6.2.1, for an object of the user bob and the group staff.
static DECISIONS: [(&str, &[u8], &[&[u8]], usize, Option<(usize, Kind)>); 11] = [
    (THREE, b"bob", &[], 0, Some((0, Kind::Allow))),
    // The first of two ACEs that match the requester.
    (THREE, b"bob", &[], 1, Some((1, Kind::Deny))),
    // A right that no ACE has, and one that only others have.
    (THREE, b"bob", &[], 2, None),
    (THREE, b"carol", &[], 0, None),
    (THREE, b"carol", &[], 1, None),
    ("", b"bob", &[], 0, None),
    // An ACE with INHERIT_ONLY, alone and before others.
    (INHERIT_ONLY, b"alice", &[], 0, None),
    (
        GROUP_NAMED,
        b"alice",
        &[b"guest"],
        0,
        Some((2, Kind::Allow)),
    ),
    (
        GROUP_NAMED,
        b"alice",
        &[b"guest", b"users"],
        0,
        Some((1, Kind::Deny)),
    ),
    (
        OWNING_GROUP,
        b"alice",
        &[b"staff"],
        0,
        Some((0, Kind::Allow)),
    ),
    (LONG_NAMES, b"y-long-name@a", &[], 0, Some((1, Kind::Allow))),
];

// Returns the answer of `deciding_ace`, or `None` if a name is empty or the bit is that of no right.
fn decision_of(list: &Acl, user: &[u8], groups: &[&[u8]], bit: usize) -> Option<Option<Decision>> {
    let object = Object::new(b"bob", b"staff")?;
    let requester = Requester::new(user, groups)?;
    let right = Right::new(bit)?;
    Some(deciding_ace(list.aces(), &object, &requester, right))
}

mod ample {
    use super::*;

    #[test]
    fn the_first_ace_that_has_the_right_and_matches_the_requester_decides(
        rt: HostRuntime,
    ) -> Result<(), Fail> {
        for (text, user, groups, bit, decider) in DECISIONS {
            let list = parse_text(rt.alloc(), text.as_bytes())?;
            let decision = decider.map(|(place, kind)| Decision { place, kind });
            let answer = decision_of(&list, user, groups, bit);
            assert!(rt; answer == Some(decision), "{text}, bit {bit}");
        }
        Ok(())
    }
}
