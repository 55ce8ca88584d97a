//! What a list grants, by RFC 8881, section 6.2.1.

use super::lists::{GROUP_NAMED, INHERIT_ONLY, NONE, Question, THREE};

// A list, the owner, the requester, who is in the group staff, the rights, and whether they are granted.
static REQUESTS: [(&[u8], &str, &str, u32, bool); 11] = [
    (THREE, "bob", "bob", 2, false),
    (THREE, "alice", "alice", 2, true),
    // What was allowed is not denied by a later ACE.
    (THREE, "bob", "bob", 1, true),
    // Both bits of a request, by two ACEs, and one of them denied.
    (THREE, "alice", "alice", 3, true),
    (THREE, "bob", "bob", 3, false),
    // A bit that no ACE decides.
    (THREE, "alice", "alice", 7, false),
    (THREE, "alice", "bob", 1, false),
    // The empty request.
    (THREE, "alice", "bob", 0, true),
    (NONE, "alice", "alice", 0, true),
    (NONE, "alice", "alice", 1, false),
    (INHERIT_ONLY, "bob", "alice", 1, false),
];

#[test]
fn the_first_match_decides(rt: HostRuntime) {
    for (bytes, owner, user, bits, granted) in REQUESTS {
        let question = Question::new(bytes, owner, user, &[b"staff"]);
        assert!(rt;
            question.is_granted(bits) == Some(granted),
            "{user} of {owner}, {bits}"
        );
    }
}

const ALL: u32 = 0x001f_07ff;

// A list, the owner, the requester, who is in the group staff, a mask, and its rights that the list grants.
static MASKS: [(&[u8], &str, &str, u32, u32); 8] = [
    (THREE, "alice", "alice", ALL, 3),
    (THREE, "bob", "bob", ALL, 1),
    // Rights outside the mask are left out, also if the list grants them.
    (THREE, "alice", "alice", 2, 2),
    (THREE, "bob", "bob", 2, 0),
    (THREE, "alice", "bob", ALL, 0),
    (NONE, "alice", "alice", ALL, 0),
    // An ACE with INHERIT_ONLY, alone and before others.
    (INHERIT_ONLY, "bob", "alice", ALL, 0),
    (GROUP_NAMED, "bob", "alice", ALL, 1),
];

#[test]
fn the_rights_that_are_granted_are_those_of_the_first_matches(rt: HostRuntime) {
    for (bytes, owner, user, bits, expected) in MASKS {
        let question = Question::new(bytes, owner, user, &[b"staff", b"guest"]);
        assert!(rt;
            question.granted(bits) == Some(expected),
            "{user} of {owner}, {bits}"
        );
    }
}

// A list, the owner, the requester, who is in the groups staff and users, a mask, and its rights that the list allows
// and that it denies.
static DECIDED: [(&[u8], &str, &str, u32, u32, u32); 8] = [
    (THREE, "alice", "alice", ALL, 3, 0),
    // What was allowed is not denied by a later ACE, and the other way round.
    (THREE, "bob", "bob", ALL, 1, 2),
    (THREE, "bob", "bob", 1, 1, 0),
    (THREE, "bob", "bob", 4, 0, 0),
    (THREE, "alice", "bob", ALL, 0, 2),
    (NONE, "alice", "alice", ALL, 0, 0),
    (INHERIT_ONLY, "bob", "alice", ALL, 0, 0),
    (GROUP_NAMED, "bob", "alice", ALL, 0, 1),
];

#[test]
fn the_rights_are_allowed_denied_or_undecided(rt: HostRuntime) {
    for (bytes, owner, user, bits, allowed, denied) in DECIDED {
        let question = Question::new(bytes, owner, user, &[b"staff", b"users"]);
        assert!(rt;
            question.decided(bits) == Some((allowed, denied)),
            "{user} of {owner}, {bits}"
        );
    }
}
