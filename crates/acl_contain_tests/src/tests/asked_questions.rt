//! The questions of worked lists, and that two lists over the same names that answer them alike grant the same. Which
//! principals a list mentions, and the names of strangers, are worked by hand from docs/reference/lists.md,
//! "Comparison".

use super::expected::same_names;
use super::implications::short_list;
use super::lists::{AMY, EVERYONE, GROUP, INHERIT_ONLY, OWNER, READ_DATA, WRITE_DATA};
use acl_contain::{Question, QuestionsFault, questions};
use acl_eval::{Object, Requester, grants};
use acl_lists_for_tests::{ALLOW, AceRow, DENY, built, kept, passes};
use acl_nfs4::{Acl, PushFault};
use acl_normal::compare;
use acl_perm::Mask;
use std::alloc::{AllocError, Global};
use std::process::Abort;

// The owner, the owning group, the user and the groups of a question.
type Asked = (
    &'static [u8],
    &'static [u8],
    &'static [u8],
    &'static [&'static [u8]],
);

const OWNING: AceRow = (ALLOW, 0, READ_DATA, b"GROUP@");

const STAFF: AceRow = (ALLOW, GROUP, READ_DATA, b"staff");

const A: AceRow = (DENY, GROUP, READ_DATA, b"a");

const B: AceRow = (ALLOW, GROUP, WRITE_DATA, b"b");

// Lists, and their questions.
static LISTS: [(&[AceRow], &[Asked]); 11] = [
    (&[], &[(b"o", b"g", b"u", &[])]),
    // Everyone matches in each question.
    (&[EVERYONE], &[(b"o", b"g", b"u", &[])]),
    (
        &[OWNER],
        &[(b"o", b"g", b"u", &[]), (b"u", b"g", b"u", &[])],
    ),
    (
        &[OWNING],
        &[(b"o", b"g", b"u", &[]), (b"o", b"g", b"u", &[b"g"])],
    ),
    (
        &[OWNING, OWNER],
        &[
            (b"o", b"g", b"u", &[]),
            (b"u", b"g", b"u", &[]),
            (b"o", b"g", b"u", &[b"g"]),
            (b"u", b"g", b"u", &[b"g"]),
        ],
    ),
    // Strange names are longer than each name of the list.
    (
        &[STAFF, AMY],
        &[
            (b"oooooo", b"gggggg", b"uuuuuu", &[]),
            (b"oooooo", b"gggggg", b"amy", &[]),
            (b"oooooo", b"gggggg", b"uuuuuu", &[b"staff"]),
            (b"oooooo", b"gggggg", b"amy", &[b"staff"]),
        ],
    ),
    // No requester is two users.
    (
        &[AMY, (DENY, 0, 0, b"bob")],
        &[
            (b"oooo", b"gggg", b"uuuu", &[]),
            (b"oooo", b"gggg", b"amy", &[]),
            (b"oooo", b"gggg", b"bob", &[]),
        ],
    ),
    (
        &[AMY, OWNER],
        &[
            (b"oooo", b"gggg", b"uuuu", &[]),
            (b"uuuu", b"gggg", b"uuuu", &[]),
            (b"oooo", b"gggg", b"amy", &[]),
            (b"amy", b"gggg", b"amy", &[]),
        ],
    ),
    // A member of two groups.
    (
        &[B, A],
        &[
            (b"oo", b"gg", b"uu", &[]),
            (b"oo", b"gg", b"uu", &[b"a"]),
            (b"oo", b"gg", b"uu", &[b"b"]),
            (b"oo", b"gg", b"uu", &[b"a", b"b"]),
        ],
    ),
    // The named group is the owning group.
    (
        &[A, OWNING],
        &[
            (b"oo", b"gg", b"uu", &[]),
            (b"oo", b"gg", b"uu", &[b"gg"]),
            (b"oo", b"gg", b"uu", &[b"a"]),
            (b"oo", b"a", b"uu", &[b"a"]),
        ],
    ),
    // A name is asked about once, and not if its ACE is only inherited.
    (
        &[A, A, (ALLOW, INHERIT_ONLY, READ_DATA, b"george")],
        &[(b"oo", b"gg", b"uu", &[]), (b"oo", b"gg", b"uu", &[b"a"])],
    ),
];

fn is_asked(q: &Question, (owner, group, user, groups): Asked) -> bool {
    q.owner.as_slice() == owner
        && q.group.as_slice() == group
        && q.user.as_slice() == user
        && same_names(&q.groups, groups)
}

fn are_asked(found: &[Question], wanted: &[Asked]) -> bool {
    for (q, asked) in found.iter().zip(wanted) {
        if !is_asked(q, *asked) {
            return false;
        }
    }
    found.len() == wanted.len()
}

// Returns whether the answer is that there are too many questions, unless memory ran out.
fn is_too_many(answer: Result<Vec<Question>, QuestionsFault>) -> Result<bool, PushFault> {
    match answer {
        Ok(_) => Ok(false),
        Err(QuestionsFault::TooMany) => Ok(true),
        Err(QuestionsFault::Memory) => Err(PushFault::Memory),
    }
}

/// The questions of each list are found if as many are taken, and not if one less is taken.
pub fn worked_questions(rt: &impl Abort, alloc: Global) -> Result<(), PushFault> {
    for (rows, wanted) in &LISTS {
        let list = built(alloc, rows)?;
        let found = kept(questions(alloc, &list, wanted.len()))?;
        assert!(rt; are_asked(&found, wanted));
        let fewer = questions(alloc, &list, wanted.len().saturating_sub(1));
        assert!(rt; is_too_many(fewer)?);
    }
    Ok(())
}

#[test]
fn each_worked_list_has_its_questions(rt: HostRuntime) {
    assert!(rt; passes(worked_questions(&rt, rt.alloc())));
}

// Lists that mention all principals of the short lists but everyone.
static WHOLE: [&[AceRow]; 3] = [
    &[
        EVERYONE,
        (ALLOW, 0, 0, b"OWNER@"),
        (ALLOW, 0, 0, b"a"),
        (ALLOW, GROUP, 0, b"x"),
    ],
    &[
        (DENY, GROUP, READ_DATA, b"x"),
        (ALLOW, 0, READ_DATA, b"a"),
        OWNER,
    ],
    &[
        (ALLOW, 0, WRITE_DATA, b"a"),
        (DENY, 0, READ_DATA, b"OWNER@"),
        (ALLOW, GROUP, READ_DATA, b"x"),
    ],
];

// Returns whether both lists grant the right in a question, or neither does.
fn is_same(list: &Acl, other: &Acl, q: &Question, groups: &[&[u8]], right: u32) -> bool {
    match (
        Object::new(&q.owner, &q.group),
        Requester::new(&q.user, groups),
        Mask::new(right),
    ) {
        (Some(object), Some(requester), Some(right)) => {
            grants(list.aces(), &object, &requester, right)
                == grants(other.aces(), &object, &requester, right)
        }
        _ => false,
    }
}

// Returns whether both lists grant the same in a question.
fn is_same_at(alloc: Global, list: &Acl, other: &Acl, q: &Question) -> Result<bool, AllocError> {
    let mut groups = Vec::new(alloc);
    for group in &q.groups {
        groups.push(group.as_slice())?;
    }
    Ok(is_same(list, other, q, &groups, READ_DATA) && is_same(list, other, q, &groups, WRITE_DATA))
}

// Returns whether both lists grant the same in each question.
fn are_same(
    alloc: Global,
    list: &Acl,
    other: &Acl,
    asked: &[Question],
) -> Result<bool, AllocError> {
    for q in asked {
        if !is_same_at(alloc, list, other, q)? {
            return Ok(false);
        }
    }
    Ok(true)
}

const NO_OWNER: AceRow = (DENY, 0, READ_DATA, b"OWNER@");

const USER: AceRow = (ALLOW, 0, READ_DATA, b"a");

const NO_USER: AceRow = (DENY, 0, READ_DATA, b"a");

const MEMBER: AceRow = (ALLOW, GROUP, READ_DATA, b"x");

const NO_MEMBER: AceRow = (DENY, GROUP, READ_DATA, b"x");

// For each question of a list over the owner, the user a and the group x, two lists that differ in it alone: after
// DENYs of whom it leaves out, what they say of the others.
static APART: [(&[AceRow], &[AceRow]); 7] = [
    (&[NO_OWNER, NO_USER, NO_MEMBER, EVERYONE], &[]),
    (&[NO_USER, NO_MEMBER, OWNER], &[]),
    (&[NO_OWNER, NO_MEMBER, USER], &[]),
    (&[NO_OWNER, NO_USER, MEMBER], &[]),
    (&[NO_MEMBER, OWNER, NO_USER], &[NO_MEMBER, NO_USER, OWNER]),
    (&[NO_USER, OWNER, NO_MEMBER], &[NO_USER, NO_MEMBER, OWNER]),
    (&[NO_OWNER, USER, NO_MEMBER], &[NO_OWNER, NO_MEMBER, USER]),
];

/// No question can be left out.
pub fn needed_questions(rt: &impl Abort, alloc: Global) -> Result<(), PushFault> {
    let whole = built(alloc, &[OWNER, USER, MEMBER])?;
    let asked = kept(questions(alloc, &whole, APART.len()))?;
    for (place, (rows, others)) in APART.iter().enumerate() {
        let list = built(alloc, rows)?;
        let other = built(alloc, others)?;
        for (number, q) in asked.iter().enumerate() {
            let same = kept(is_same_at(alloc, &list, &other, q))?;
            assert!(rt; same == (number != place));
        }
    }
    Ok(())
}

#[test]
fn two_lists_differ_in_one_question_alone(rt: HostRuntime) {
    assert!(rt; passes(needed_questions(&rt, rt.alloc())));
}

mod ample {
    use super::*;

    #[test]
    fn the_questions_tell_each_short_list_apart(rt: HostRuntime) -> Result<(), PushFault> {
        let alloc = rt.alloc();
        let mut same = 0u32;
        for rows in WHOLE {
            let list = built(alloc, rows)?;
            let asked = kept(questions(alloc, &list, 7))?;
            for number in 0..3_375 {
                let other = short_list(alloc, number)?;
                let alike = kept(are_same(alloc, &list, &other, &asked))?;
                let difference = kept(compare(alloc, &list, &other))?;
                assert!(rt; alike == difference.is_none());
                same = same.saturating_add(u32::from(alike));
            }
        }
        assert!(rt; same > 100, "{same}");
        Ok(())
    }
}
