//! Whom the names of a list, of an object and of a requester mean, by RFC 8881, section 6.2.1.5. Groups are looked up
//! in different ways, and each way has to give the same answer.

use super::lists::{GROUP_NAMED, LONG_NAMES, OWNING_GROUP, Question, THREE};
use acl_eval::*;
use acl_lists_for_tests::passes;
use acl_nfs4::{AceRef, Acl, AclView, PushFault};
use acl_perm::{Flags, Kind, Mask};
use std::alloc::Global;
use std::process::Abort;

// A list, the owner, the requester and its groups, and whether READ_DATA is granted.
static NAMES: [(&[u8], &str, &str, &[&[u8]], bool); 16] = [
    // A user and an owner that are named like OWNER@.
    (THREE, "bob", "OWNER@", &[], false),
    (THREE, "OWNER@", "OWNER@", &[], true),
    // The requester is in the owning group, staff, only if the requester names it, once or twice.
    (OWNING_GROUP, "bob", "alice", &[b"staff"], true),
    (
        OWNING_GROUP,
        "bob",
        "alice",
        &[b"users", b"staff", b"staff"],
        true,
    ),
    (OWNING_GROUP, "bob", "alice", &[b"GROUP@"], false),
    (OWNING_GROUP, "bob", "alice", &[], false),
    (OWNING_GROUP, "bob", "GROUP@", &[], false),
    // A user and a group of the same name are different, and so are names that begin or end with the same bytes.
    (GROUP_NAMED, "bob", "alice", &[b"staff", b"users"], false),
    (GROUP_NAMED, "bob", "alice", &[b"users", b"users"], false),
    (
        GROUP_NAMED,
        "bob",
        "alice",
        &[b"staff", b"superusers", b"use"],
        true,
    ),
    (GROUP_NAMED, "bob", "users", &[], true),
    (GROUP_NAMED, "bob", "alice", &[b"guest"], true),
    (LONG_NAMES, "bob", "x-long-name@a", &[], false),
    (LONG_NAMES, "bob", "y-long-name@a", &[], true),
    (LONG_NAMES, "bob", "z-long-name@a", &[], false),
    (LONG_NAMES, "bob", "long-name@a", &[], false),
];

#[test]
fn a_name_matches_only_the_user_or_the_group_of_this_name(rt: HostRuntime) {
    for (bytes, owner, user, groups, granted) in NAMES {
        let question = Question::new(bytes, owner, user, groups);
        assert!(rt;
            question.is_granted(1) == Some(granted),
            "{user} of {owner}"
        );
    }
}

// Groups of which the caller says that they are in order, and whether a binary search finds the group users. It
// compares with the name at half of their number, rounded down, and goes on in front of it or behind it.
static SAID_IN_ORDER: [(&[&[u8]], bool); 12] = [
    (&[], false),
    (&[b"users"], true),
    (&[b"staff"], false),
    // These are in order.
    (&[b"staff", b"users"], true),
    (&[b"admin", b"staff", b"users"], true),
    (&[b"admin", b"staff", b"staff"], false),
    (&[b"users", b"users", b"users", b"zoo"], true),
    // These are in no order.
    (&[b"zoo", b"users"], true),
    (&[b"users", b"admin"], false),
    (&[b"users", b"staff", b"admin"], false),
    (&[b"users", b"zoo", b"admin", b"users"], true),
    (&[b"admin", b"users", b"staff", b"zoo", b"guests"], false),
];

// Returns whether `GROUP_NAMED`, which denies READ_DATA to the group users, grants it to a requester of whose groups
// the caller says that they are in order.
fn may_ordered_read(groups: &[&[u8]]) -> Option<bool> {
    let list = AclView::parse_whole(GROUP_NAMED).ok()?;
    let object = Object::new(b"bob", b"staff")?;
    let requester = Requester::in_order(b"alice", groups)?;
    Some(grants(list.aces(), &object, &requester, Mask::READ_DATA))
}

#[test]
fn a_group_that_a_binary_search_misses_does_not_count(rt: HostRuntime) {
    for (groups, is_found) in SAID_IN_ORDER {
        assert!(rt; may_ordered_read(groups) == Some(!is_found));
    }
}

// Returns whether `GROUP_NAMED`, which denies READ_DATA to the group users, grants it to a member of these groups.
fn may_members_read(groups: &[&[u8]]) -> Option<bool> {
    let question = Question::new(GROUP_NAMED, "bob", "alice", groups);
    question.is_granted(1)
}

// The groups of the requester are in order, or in no order.
#[test]
fn a_group_is_found_among_many(rt: HostRuntime) {
    let mut groups = [b"staff".as_slice(); 130];
    assert!(rt; may_members_read(&groups) == Some(true));
    groups[129] = b"users";
    assert!(rt; may_members_read(&groups) == Some(false));
    groups[0] = b"users";
    groups[129] = b"staff";
    assert!(rt; may_members_read(&groups) == Some(false));
}

fn of_group(kind: Kind, who: &[u8]) -> AceRef<'_> {
    AceRef {
        kind,
        flags: Flags::IDENTIFIER_GROUP,
        mask: Mask::READ_DATA,
        who,
    }
}

// Makes a list of this many ACEs that deny READ_DATA to the group users, and one that allows it to the group staff.
fn denials(alloc: Global, count: usize) -> Result<Acl, PushFault> {
    let mut list = Acl::new(alloc);
    for _ in 0..count {
        list.push(of_group(Kind::Deny, b"users"))?;
    }
    list.push(of_group(Kind::Allow, b"staff"))?;
    Ok(list)
}

// Returns whether the list grants READ_DATA to a requester in these groups: first as they are, then sorted.
fn answers(alloc: Global, list: &Acl, groups: &[&[u8]]) -> Option<[bool; 2]> {
    let object = Object::new(b"alice", b"ops")?;
    let requester = Requester::new(b"bob", groups)?;
    let as_given = grants(list.aces(), &object, &requester, Mask::READ_DATA);
    let sorted = grants_for_many_groups(
        alloc,
        &list.view(),
        &object,
        &requester,
        Mask::READ_DATA,
    ).ok()?;
    Some([as_given, sorted])
}

/// Checks that the first ACE that matches the requester decides, also if the groups are sorted first. With 70 ACEs and
/// 4,000 groups in no order they are sorted.
pub fn check_sorted_groups(rt: &impl Abort, alloc: Global) -> Result<(), PushFault> {
    for count in [1usize, 70] {
        let list = denials(alloc, count)?;
        for (first, last, granted) in [
            (b"guests".as_slice(), b"guests".as_slice(), false),
            (b"guests".as_slice(), b"staff".as_slice(), true),
            (b"staff".as_slice(), b"guests".as_slice(), true),
            (b"staff".as_slice(), b"users".as_slice(), false),
        ] {
            let mut groups = [b"guests".as_slice(); 4000];
            groups[0] = first;
            groups[3999] = last;
            let found = answers(alloc, &list, &groups).ok_or(PushFault::Memory)?;
            assert!(rt; found == [granted, granted]);
        }
    }
    Ok(())
}

#[test]
fn a_group_is_found_among_sorted_groups(rt: HostRuntime) {
    assert!(rt; passes(check_sorted_groups(&rt, rt.alloc())));
}
