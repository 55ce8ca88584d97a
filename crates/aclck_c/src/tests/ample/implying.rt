//! What a right of a list implies, and who has a right, by RFC 8881, section 6.2.1.
use crate::options::DIRECTORY;
use crate::tests::{BAD_ARGUMENT, DONE, LIST, no_fault};
use crate::{RawDifference, RawImplication, RawQuestion, aclck_holders, aclck_implies};

const UNTOUCHED: RawDifference = RawDifference {
    names: 7,
    same: 7,
    right: 7,
    first_grants: 7,
};

// A right, other rights, options, and the status and the difference.
static IMPLIED: [(u32, u32, u32, (u32, u32, u32, u32)); 6] = [
    (1, 1, 0, (DONE, 1, 0, 0)),
    (2, 1, 0, (DONE, 1, 0, 0)),
    (1, 3, 0, (DONE, 0, 2, 0)),
    (3, 1, 0, (BAD_ARGUMENT, 0, 0, 0)),
    (1, 0x800, 0, (BAD_ARGUMENT, 0, 0, 0)),
    (1, 1, DIRECTORY, (BAD_ARGUMENT, 0, 0, 0)),
];

#[test]
fn the_right_to_read_implies_itself_and_not_the_right_to_write(rt: HostRuntime) {
    for (right, others, options, expected) in IMPLIED {
        let mut fault = no_fault();
        let mut found = UNTOUCHED;
        let mut room = [7u8; 40];
        let implication = RawImplication {
            right,
            others,
            options,
        };
        let status = aclck_implies(
            rt.alloc(),
            LIST,
            &implication,
            &mut found,
            &mut room,
            &mut fault,
        );
        let answer = (status, found.same, found.right, found.first_grants);
        assert!(rt; answer == expected);
    }
}

#[test]
fn bob_alone_may_read_and_nobody_may_write(rt: HostRuntime) {
    for (mask, words) in [(1, b"user bob\n".as_slice()), (2, b"nobody\n".as_slice())] {
        let question = RawQuestion { mask, options: 0 };
        let mut fault = no_fault();
        let mut room = [7u8; 20];
        let mut needed = 0;
        let status = aclck_holders(
            rt.alloc(),
            LIST,
            &question,
            &mut room,
            &mut needed,
            &mut fault,
        );
        assert!(rt; status == DONE);
        assert!(rt; needed == words.len());
        assert!(rt; room.starts_with(words));
    }
}
