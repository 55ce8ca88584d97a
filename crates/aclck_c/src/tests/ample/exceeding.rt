//! What one list grants and another does not, by RFC 8881, section 6.2.1.
use crate::options::DIRECTORY;
use crate::tests::{BAD_ARGUMENT, DONE, LIST, REFUSED, SHORT, no_fault};
use crate::{RawDifference, aclck_excess};

const NO_ACE: &[u8; 4] = b"\0\0\0\0";

const UNTOUCHED: RawDifference = RawDifference {
    names: 7,
    same: 7,
    right: 7,
    first_grants: 7,
};

// Two lists, options, and the status and the difference.
static PAIRS: [(&[u8], &[u8], u32, (u32, u32, u32, u32)); 5] = [
    (LIST, NO_ACE, 0, (DONE, 0, 1, 1)),
    (NO_ACE, LIST, 0, (DONE, 1, 0, 0)),
    (LIST, LIST, 0, (DONE, 1, 0, 0)),
    (LIST, b"\0\0\0", 0, (REFUSED, 0, 0, 0)),
    (LIST, NO_ACE, DIRECTORY, (BAD_ARGUMENT, 0, 0, 0)),
];

#[test]
fn a_list_grants_more_than_the_empty_list_and_never_less(rt: HostRuntime) {
    for (first, second, options, expected) in PAIRS {
        let mut fault = no_fault();
        let mut found = UNTOUCHED;
        let mut room = [7u8; 40];
        let status = aclck_excess(
            rt.alloc(),
            first,
            second,
            options,
            &mut found,
            &mut room,
            &mut fault,
        );
        let answer = (status, found.same, found.right, found.first_grants);
        assert!(rt; answer == expected);
    }
}

#[test]
fn an_excess_is_written_where_its_names_have_no_room(rt: HostRuntime) {
    let mut fault = no_fault();
    let mut found = UNTOUCHED;
    let mut room = [7u8; 1];
    let status = aclck_excess(
        rt.alloc(),
        LIST,
        NO_ACE,
        0,
        &mut found,
        &mut room,
        &mut fault,
    );
    assert!(rt; status == SHORT);
    assert!(rt; found.same == 0);
    assert!(rt; room == [7]);
}
