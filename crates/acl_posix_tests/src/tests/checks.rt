//! The access check for an owner, for users and for members of groups (acl(5), "ACCESS CHECK ALGORITHM").

use super::harness::Who::{Group, Other, Owner};
use super::harness::{MASKED, Memory, NO_OWNER, Rows, SHARED, TWO_GROUPS};
use acl_perm::Perm;
use acl_posix::*;
use std::process::Abort;

// `u::rwx,g::---,o::rwx`
const NO_GROUP: Rows = (&[Owner, Group, Other], b"707");

// The owner and the group of each file.
const OWNER: Id = Id { value: 1 };

const OWNING_GROUP: Id = Id { value: 2 };

const USER_3: Id = Id { value: 3 };

const BOTH: [Id; 2] = [Id { value: 50 }, Id { value: 60 }];

const OWNING: [Id; 1] = [OWNING_GROUP];

fn is_answered(
    memory: Memory,
    rows: Rows,
    asker: Id,
    groups: &[Id],
    want: u8,
    granted: bool,
) -> bool {
    let Some(want) = Perm::new(want) else {
        return false;
    };
    match memory.acl(rows) {
        Ok(acl) => acl.check(OWNER, OWNING_GROUP, asker, groups, want) == granted,
        Err(fault) => memory.may_run_out(Some(fault)),
    }
}

/// Requests of an owner, of users and of members of groups are granted or denied.
pub fn requests<A: Abort>(rt: &A, memory: Memory) {
    // The entries, the user who asks, the groups of that user, the request, and whether it is granted.
    let table: [(Rows, Id, &[Id], u8, bool); 13] = [
        (TWO_GROUPS, USER_3, &BOTH, 6, false),
        (TWO_GROUPS, USER_3, &BOTH, 4, true),
        (TWO_GROUPS, USER_3, &BOTH, 2, true),
        (TWO_GROUPS, USER_3, &OWNING, 4, false),
        (MASKED, USER_3, &OWNING, 2, false),
        (MASKED, USER_3, &OWNING, 4, true),
        (MASKED, USER_3, &[], 2, true),
        (NO_GROUP, USER_3, &OWNING, 4, false),
        (NO_GROUP, USER_3, &BOTH, 7, true),
        (SHARED, Id { value: 1001 }, &BOTH, 2, false),
        (NO_OWNER, OWNER, &[], 4, false),
        (NO_OWNER, OWNER, &OWNING, 4, false),
        (NO_OWNER, OWNER, &OWNING, 0, true),
    ];
    for (rows, asker, groups, want, granted) in table {
        assert!(rt;
            is_answered(memory, rows, asker, groups, want, granted),
            "{want} of {asker:?}"
        );
    }
}
