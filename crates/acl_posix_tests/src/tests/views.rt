//! Raw entries in canonical order: what they grant, and the fault of entries that are not (acl(5), "VALID ACLs" and
//! "ACCESS CHECK ALGORITHM").

use acl_perm::Perm;
use acl_posix::*;
use std::test::Fail;

// `u::rw-,u:7:rw-,g::r--,g:5:-wx,g:9:r--,m::rw-,o::--x`
const ENTRIES: [RawEntry; 7] = [
    RawEntry {
        tag: 1,
        id: 0,
        perm: 6,
    },
    RawEntry {
        tag: 2,
        id: 7,
        perm: 6,
    },
    RawEntry {
        tag: 3,
        id: 0,
        perm: 4,
    },
    RawEntry {
        tag: 4,
        id: 5,
        perm: 3,
    },
    RawEntry {
        tag: 4,
        id: 9,
        perm: 4,
    },
    RawEntry {
        tag: 5,
        id: 0,
        perm: 6,
    },
    RawEntry {
        tag: 6,
        id: 0,
        perm: 1,
    },
];

const OWNER: Id = Id { value: 1 };

const OWNING_GROUP: Id = Id { value: 2 };

#[test]
fn a_view_answers_by_the_entry_that_decides(rt: HostRuntime) -> Result<(), Fail> {
    let acl = EntriesView::new(&ENTRIES).ok().ok_or("a valid list")?;
    // The user, the groups of the user, the request, the place of the entry that decides, and whether it is granted.
    let rows: [(u32, &[u32], u8, Option<usize>, bool); 8] = [
        (1, &[5], 4, Some(0), true),
        (1, &[5], 1, Some(0), false),
        (7, &[], 6, Some(1), true),
        (8, &[2], 4, Some(2), true),
        (8, &[9, 5], 2, Some(3), true),
        (8, &[9, 5], 1, Some(3), false),
        (8, &[9, 5], 6, None, false),
        (8, &[4294967295], 1, Some(6), true),
    ];
    for (user, groups, want, place, granted) in rows {
        let user = Id::new(user).ok_or("an id")?;
        let want = Perm::new(want).ok_or("permissions")?;
        let decision = acl.deciding(OWNER, OWNING_GROUP, user, groups, want);
        assert_eq!(rt; decision.granted, granted);
        assert_eq!(rt; acl.check(OWNER, OWNING_GROUP, user, groups, want), granted);
        let found = match decision.entry {
            Some(tag) => acl.place(tag),
            None => None,
        };
        assert_eq!(rt; found, place);
    }
    assert_eq!(rt; acl.mode().bits, 0o661);
    Ok(())
}

#[test]
fn entries_that_are_not_in_order_or_not_valid_are_refused(rt: HostRuntime) {
    let [owner, user, group, group_5, group_9, mask, other] = ENTRIES;
    let no_id = RawEntry {
        tag: 2,
        id: 4294967295,
        perm: 6,
    };
    let rows: [(&[RawEntry], ViewFault); 7] = [
        (&[owner, group, user, mask, other], ViewFault::Order(2)),
        (
            &[owner, group, group_9, group_5, mask, other],
            ViewFault::Order(3),
        ),
        (
            &[owner, user, user, group, mask, other],
            ViewFault::Order(2),
        ),
        (
            &[owner, no_id, group, mask, other],
            ViewFault::Entry(1, EntryFault::Id),
        ),
        (&[owner, user, group, other], ViewFault::Miss(Tag::Mask)),
        (&[owner, other], ViewFault::Miss(Tag::GroupObj)),
        (&[], ViewFault::Miss(Tag::UserObj)),
    ];
    for (raws, fault) in rows {
        assert_eq!(rt; EntriesView::new(raws).err(), Some(fault));
    }
}
