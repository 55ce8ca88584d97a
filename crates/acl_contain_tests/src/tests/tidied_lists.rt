//! Tidied lists, worked by hand from RFC 8881, section 6.2.1: for each requester the first ACE that has a right, takes
//! part and matches decides it, so an ACE may go up past ACEs that decide none of its rights otherwise for anybody whom
//! both match.

use super::lists::{
    AMY, EVERYONE, EXECUTE, FILE_INHERIT, GROUP, INHERIT_ONLY, NO_STAFF, OWNER, READ_DATA,
    WRITE_DATA,
};
use acl_contain::{same_views, tidy};
use acl_lists_for_tests::{ALLOW, AceRow, DENY, built, kept, passes};
use acl_nfs4::PushFault;
use acl_normal::normalize;
use std::alloc::Global;
use std::process::Abort;

const AMY_WRITES: AceRow = (ALLOW, 0, WRITE_DATA, b"amy");

const AMY_READS_AND_WRITES: AceRow = (ALLOW, 0, READ_DATA | WRITE_DATA, b"amy");

const STAFF_WRITES: AceRow = (ALLOW, GROUP, WRITE_DATA, b"staff");

const STAFF_WRITES_NOT: AceRow = (DENY, GROUP, WRITE_DATA, b"staff");

const STAFF_EXECUTES_NOT: AceRow = (DENY, GROUP, EXECUTE, b"staff");

const ALL_WRITE: AceRow = (ALLOW, 0, WRITE_DATA, b"EVERYONE@");

const ALL_EXECUTE: AceRow = (ALLOW, 0, EXECUTE, b"EVERYONE@");

// Tidying leaves its six ACEs. Its normal form has five.
const LONGER: [AceRow; 6] = [
    STAFF_WRITES_NOT,
    (DENY, GROUP, WRITE_DATA, b"temps"),
    (ALLOW, 0, READ_DATA | WRITE_DATA, b"OWNER@"),
    NO_STAFF,
    (DENY, GROUP, READ_DATA, b"temps"),
    EVERYONE,
];

// A list, and the tidied list.
static ROWS: [(&[AceRow], &[AceRow]); 17] = [
    (&[], &[]),
    (&[AMY, AMY_WRITES], &[AMY_READS_AND_WRITES]),
    (&[AMY, AMY], &[AMY]),
    // A DENY of another right is no obstacle, and one of the right is, because amy may be in the group.
    (
        &[AMY, STAFF_EXECUTES_NOT, AMY_WRITES, ALL_EXECUTE],
        &[AMY_READS_AND_WRITES, STAFF_EXECUTES_NOT, ALL_EXECUTE],
    ),
    (
        &[AMY, STAFF_WRITES_NOT, AMY_WRITES],
        &[AMY, STAFF_WRITES_NOT, AMY_WRITES],
    ),
    // She may be the owner.
    (
        &[AMY, (DENY, 0, WRITE_DATA, b"OWNER@"), AMY_WRITES],
        &[AMY, (DENY, 0, WRITE_DATA, b"OWNER@"), AMY_WRITES],
    ),
    // She is not bob, who may be in the group.
    (
        &[AMY, (DENY, 0, WRITE_DATA, b"bob"), AMY_WRITES, STAFF_WRITES],
        &[
            AMY_READS_AND_WRITES,
            (DENY, 0, WRITE_DATA, b"bob"),
            STAFF_WRITES,
        ],
    ),
    // An ALLOW and a DENY of amy stay two ACEs.
    (
        &[AMY, (DENY, 0, WRITE_DATA, b"amy"), STAFF_WRITES],
        &[AMY, (DENY, 0, WRITE_DATA, b"amy"), STAFF_WRITES],
    ),
    // A user and a group of one name are two principals.
    (
        &[AMY, (ALLOW, GROUP, WRITE_DATA, b"amy")],
        &[AMY, (ALLOW, GROUP, WRITE_DATA, b"amy")],
    ),
    // What all are allowed to do does not go up past a DENY of it.
    (
        &[EVERYONE, STAFF_WRITES_NOT, ALL_WRITE],
        &[EVERYONE, STAFF_WRITES_NOT, ALL_WRITE],
    ),
    (
        &[EVERYONE, STAFF_EXECUTES_NOT, ALL_WRITE, ALL_EXECUTE],
        &[
            (ALLOW, 0, READ_DATA | WRITE_DATA, b"EVERYONE@"),
            STAFF_EXECUTES_NOT,
            ALL_EXECUTE,
        ],
    ),
    // An ALLOW of a group is an obstacle for the DENY of a user.
    (
        &[
            (DENY, 0, READ_DATA, b"amy"),
            STAFF_WRITES,
            (DENY, 0, WRITE_DATA, b"amy"),
            EVERYONE,
            ALL_WRITE,
        ],
        &[
            (DENY, 0, READ_DATA, b"amy"),
            STAFF_WRITES,
            (DENY, 0, WRITE_DATA, b"amy"),
            (ALLOW, 0, READ_DATA | WRITE_DATA, b"EVERYONE@"),
        ],
    ),
    // The ACE goes to the last one before it, which stays where it is.
    (
        &[
            AMY,
            STAFF_EXECUTES_NOT,
            (ALLOW, 0, EXECUTE, b"amy"),
            AMY_WRITES,
        ],
        &[
            AMY,
            STAFF_EXECUTES_NOT,
            (ALLOW, 0, EXECUTE | WRITE_DATA, b"amy"),
        ],
    ),
    // Nobody gets past a DENY of everyone, so neither the DENY nor the ALLOW after it is needed.
    (
        &[AMY, (DENY, 0, WRITE_DATA, b"EVERYONE@"), AMY_WRITES],
        &[AMY],
    ),
    // An ACE for new objects alone goes, and the flags of the others, but that a name is of a group.
    (
        &[
            (ALLOW, FILE_INHERIT, READ_DATA, b"amy"),
            (ALLOW, FILE_INHERIT | INHERIT_ONLY, WRITE_DATA, b"amy"),
            (ALLOW, FILE_INHERIT | GROUP, WRITE_DATA, b"staff"),
        ],
        &[AMY, STAFF_WRITES],
    ),
    // GROUP@ is no name.
    (
        &[(ALLOW, GROUP, READ_DATA, b"GROUP@"), OWNER],
        &[(ALLOW, 0, READ_DATA, b"GROUP@"), OWNER],
    ),
    (&LONGER, &LONGER),
];

/// Each list is tidied as expected.
pub fn tidied_lists(rt: &impl Abort, alloc: Global) -> Result<(), PushFault> {
    for (rows, expected) in &ROWS {
        let list = built(alloc, rows)?;
        let wanted = built(alloc, expected)?;
        let tidied = kept(tidy(alloc, &list))?;
        assert!(rt; tidied == wanted);
    }
    Ok(())
}

#[test]
fn the_aces_of_a_list_are_joined_where_nothing_changes(rt: HostRuntime) {
    assert!(rt; passes(tidied_lists(&rt, rt.alloc())));
}

mod ample {
    use super::*;

    static FEW: [AceRow; 7] = [
        AMY,
        AMY_WRITES,
        STAFF_WRITES_NOT,
        STAFF_WRITES,
        (DENY, 0, READ_DATA | WRITE_DATA, b"bob"),
        EVERYONE,
        ALL_WRITE,
    ];

    // Tidies a list. Returns whether it has lost an ACE.
    fn loses_an_ace(rt: &impl Abort, alloc: Global, rows: &[AceRow]) -> Result<bool, PushFault> {
        let list = built(alloc, rows)?;
        let tidied = kept(tidy(alloc, &list))?;
        assert!(rt; kept(same_views(alloc, &list.view(), &tidied.view()))?);
        assert!(rt; kept(tidy(alloc, &tidied))? == tidied);
        Ok(tidied.len() < list.len())
    }

    #[test]
    fn each_short_list_grants_the_same_and_is_tidied_at_once(
        rt: HostRuntime,
    ) -> Result<(), PushFault> {
        let (mut whole, mut less) = (0u32, 0u32);
        for first in &FEW {
            for second in &FEW {
                for third in &FEW {
                    for fourth in &FEW {
                        if loses_an_ace(&rt, rt.alloc(), &[*first, *second, *third, *fourth])? {
                            less = less.saturating_add(1);
                        } else {
                            whole = whole.saturating_add(1);
                        }
                    }
                }
            }
        }
        assert!(rt; whole > 10 && less > 1000, "{whole} {less}");
        Ok(())
    }

    #[test]
    fn a_tidied_list_can_be_longer_than_the_normal_form(rt: HostRuntime) -> Result<(), PushFault> {
        let list = built(rt.alloc(), &LONGER)?;
        let form = kept(normalize(rt.alloc(), &list))?;
        assert_eq!(rt; kept(tidy(rt.alloc(), &list))?.len(), 6);
        assert_eq!(rt; form.len(), 5);
        Ok(())
    }
}
