//! Normal forms of worked lists, worked by hand from docs/reference/lists.md ("The normal form", over RFC 8881, section
//! 6.2.1).

use super::harness::{
    AMY, EVERYONE, EXECUTE, FOR_FILES, GROUP, NO_STAFF, NO_WRITE, NO_WRITE_FORM, OWNER, READ_DATA,
    STAFF, WRITE_DATA,
};
use acl_lists_for_tests::{ALLOW, AceRow, DENY, ace_of, built, kept, passes};
use acl_nfs4::{Acl, PushFault};
use acl_normal::{is_normal, normal_bytes, normalize, plain};
use std::alloc::{AllocError, Global};
use std::process::Abort;

// The rights WRITE_DATA and APPEND_DATA, which a bridge makes of the permission w.
const WRITE: u32 = WRITE_DATA | 4;

const ALICE: AceRow = (ALLOW, 0, READ_DATA, b"alice");

const ALL: AceRow = (ALLOW, 0, 0x001f_07ff, b"EVERYONE@");

const OPS: AceRow = (ALLOW, 0, READ_DATA, b"ops");

const NO_BOB: AceRow = (DENY, 0, READ_DATA, b"bob");

const NO_OPS: AceRow = (DENY, GROUP, READ_DATA, b"ops");

// Alice may read, and so may bob unless he is the owner.
const OWNER_BETWEEN_USERS: [AceRow; 3] = [
    ALICE,
    (DENY, 0, READ_DATA, b"OWNER@"),
    (ALLOW, 0, READ_DATA, b"bob"),
];

// Lists and their normal forms.
static FORMS: [(&[AceRow], &[AceRow]); 22] = [
    (&[], &[]),
    (&[EVERYONE], &[EVERYONE]),
    (&[ALL, ALL, ALL], &[ALL]),
    (&[NO_BOB, ALICE], &[ALICE]),
    (&[ALICE, NO_BOB], &[ALICE]),
    (&[NO_BOB, EVERYONE], &[NO_BOB, EVERYONE]),
    (
        &[OWNER, (DENY, 0, READ_DATA | WRITE_DATA, b"OWNER@")],
        &[OWNER],
    ),
    (
        &[(ALLOW, GROUP, READ_DATA, b"GROUP@")],
        &[(ALLOW, 0, READ_DATA, b"GROUP@")],
    ),
    (&NO_WRITE, &NO_WRITE_FORM),
    (&[OPS, NO_OPS], &[OPS]),
    (&[NO_OPS, OPS], &[NO_OPS, OPS]),
    (
        &[ALICE, (ALLOW, 0, WRITE_DATA, b"alice")],
        &[(ALLOW, 0, READ_DATA | WRITE_DATA, b"alice")],
    ),
    (&STAFF, &[NO_STAFF, AMY, (ALLOW, 0, EXECUTE, b"EVERYONE@")]),
    (
        &[
            (ALLOW, 0, READ_DATA, b"zoe"),
            AMY,
            (DENY, 0, READ_DATA, b"EVERYONE@"),
        ],
        &[AMY, (ALLOW, 0, READ_DATA, b"zoe")],
    ),
    (&FOR_FILES, &[AMY]),
    (&[(DENY, 0, 0, b"OWNER@")], &[]),
    (&OWNER_BETWEEN_USERS, &OWNER_BETWEEN_USERS),
    // The second of two DENYs goes first, and the first DENY still has to precede the ALLOW.
    (
        &[
            (DENY, 0, READ_DATA, b"zoe"),
            (DENY, 0, READ_DATA, b"amy"),
            EVERYONE,
        ],
        &[
            (DENY, 0, READ_DATA, b"amy"),
            (DENY, 0, READ_DATA, b"zoe"),
            EVERYONE,
        ],
    ),
    // Flags that play no part: flags of inheritance, and then all flags but INHERIT_ONLY.
    (&[(ALLOW, 0x83, READ_DATA, b"amy")], &[AMY]),
    (
        &[(ALLOW, 0xf7, READ_DATA, b"ops")],
        &[(ALLOW, GROUP, READ_DATA, b"ops")],
    ),
    // What `bridge` makes of the POSIX ACL u::rw-,g::r--,o::r--.
    (
        &[
            (ALLOW, 0, READ_DATA | WRITE, b"OWNER@"),
            (DENY, 0, EXECUTE, b"OWNER@"),
            (ALLOW, 0, READ_DATA, b"GROUP@"),
            (DENY, 0, WRITE | EXECUTE, b"GROUP@"),
            EVERYONE,
        ],
        &[(ALLOW, 0, WRITE, b"OWNER@"), EVERYONE],
    ),
    // What it makes of u::rwx,g::---,g:50:r--,g:60:-w-,m::rw-,o::---.
    (
        &[
            (ALLOW, 0, READ_DATA | WRITE | EXECUTE, b"OWNER@"),
            (ALLOW, GROUP, READ_DATA, b"50"),
            (ALLOW, GROUP, WRITE, b"60"),
            (DENY, 0, READ_DATA | WRITE | EXECUTE, b"GROUP@"),
            (DENY, GROUP, WRITE | EXECUTE, b"50"),
            (DENY, GROUP, READ_DATA | EXECUTE, b"60"),
        ],
        &[
            (ALLOW, 0, READ_DATA | WRITE | EXECUTE, b"OWNER@"),
            (ALLOW, GROUP, READ_DATA, b"50"),
            (ALLOW, GROUP, WRITE, b"60"),
        ],
    ),
];

/// The worked lists and their normal forms.
pub fn forms() -> &'static [(&'static [AceRow], &'static [AceRow])] {
    &FORMS
}

fn has_form(alloc: Global, list: &Acl, wanted: &Acl) -> Result<bool, AllocError> {
    let form = normalize(alloc, list)?;
    Ok(form == *wanted)
}

// Returns whether the two plain ways find the form.
fn has_plain_forms(alloc: Global, list: &Acl, wanted: &Acl) -> Result<bool, AllocError> {
    let form = plain::normalize(alloc, list)?;
    let by_rows = plain::normalize_by_rows(alloc, list)?;
    Ok(form == *wanted && by_rows == *wanted)
}

// Returns whether the list has this normal form, the normal form is its own, and the list is normal only if it is its
// own form.
fn is_normalized(alloc: Global, list: &Acl, wanted: &Acl) -> Result<bool, AllocError> {
    let is_form = has_form(alloc, list, wanted)?;
    let is_own_form = has_form(alloc, wanted, wanted)?;
    let is_list_normal = is_normal(alloc, list)?;
    let is_form_normal = is_normal(alloc, wanted)?;
    Ok(is_form && is_own_form && is_form_normal && is_list_normal == (list == wanted))
}

/// Each worked list has its normal form.
pub fn normal_forms(rt: &impl Abort, alloc: Global) -> Result<(), PushFault> {
    for (lines, form) in forms() {
        let list = built(alloc, lines)?;
        let wanted = built(alloc, form)?;
        assert!(rt; kept(is_normalized(alloc, &list, &wanted))?);
        assert!(rt; kept(has_plain_forms(alloc, &list, &wanted))?);
    }
    Ok(())
}

#[test]
fn each_worked_list_has_its_normal_form_which_is_its_own(rt: HostRuntime) {
    assert!(rt; passes(normal_forms(&rt, rt.alloc())));
}

// The ACEs of a list, repeated this many times.
fn repeated(alloc: Global, list: &Acl, times: usize) -> Result<Acl, PushFault> {
    let mut whole = Acl::new(alloc);
    for _place in 0..times {
        for ace in list.aces() {
            whole.push(ace)?;
        }
    }
    Ok(whole)
}

mod ample {
    use super::*;

    // An ACE of all rights, as often as the greatest weight allows.
    #[test]
    fn an_ace_that_is_repeated_is_once_in_the_normal_form(
        rt: HostRuntime,
    ) -> Result<(), PushFault> {
        let wanted = built(rt.alloc(), &[ALL])?;
        let list = repeated(rt.alloc(), &wanted, 4096)?;
        assert!(rt; is_normal(rt.alloc(), &list) == Ok(false));
        assert!(rt; has_form(rt.alloc(), &list, &wanted) == Ok(true));
        Ok(())
    }

    // Returns whether a list of this many equal ACEs is not normal, and its bytes normalize to one such ACE.
    fn is_reduced_to_one(alloc: Global, times: usize) -> Result<bool, PushFault> {
        let wanted = built(alloc, &[ALICE])?;
        let list = repeated(alloc, &wanted, times)?;
        let is_own = kept(is_normal(alloc, &list))?;
        let bytes = kept(list.to_bytes(alloc))?;
        let spelled = kept(wanted.to_bytes(alloc))?;
        let is_spelled = match normal_bytes(alloc, &bytes) {
            Ok(form) => *form == *spelled,
            Err(_) => false,
        };
        Ok(is_spelled && !is_own)
    }

    // Allows each user whose name is this digit and two more digits, in the order of the names.
    fn allow_hundred(list: &mut Acl, first: u8) -> Result<(), PushFault> {
        for second in b"0123456789" {
            for third in b"0123456789" {
                if let Some(ace) = ace_of((ALLOW, 0, READ_DATA, &[first, *second, *third])) {
                    list.push(ace)?;
                }
            }
        }
        Ok(())
    }

    // Allows users in the order of their names, and then one user more.
    #[test]
    fn a_list_of_a_thousand_users_in_order_is_normal(rt: HostRuntime) -> Result<(), PushFault> {
        let mut list = Acl::new(rt.alloc());
        for first in b"0123456789" {
            allow_hundred(&mut list, *first)?;
            assert!(rt; is_normal(rt.alloc(), &list) == Ok(true));
        }
        assert!(rt; list.len() == 1_000);
        if let Some(ace) = ace_of((ALLOW, 0, READ_DATA, b"0")) {
            list.push(ace)?;
        }
        assert!(rt; is_normal(rt.alloc(), &list) == Ok(false));
        Ok(())
    }

    // The sizes are no powers of two, except for the limit.
    #[test]
    fn equal_aces_normalize_to_one_ace_in_lists_of_every_size(rt: HostRuntime) {
        for times in [101, 20_001, 41_001, 60_001, 65_535, 65_536] {
            assert!(rt; is_reduced_to_one(rt.alloc(), times) == Ok(true));
        }
    }

    // The list has both as many ACEs and as much weight as a list may have.
    #[test]
    fn a_list_with_too_many_aces_is_refused_for_their_number_before_their_weight(
        rt: HostRuntime,
    ) -> Result<(), PushFault> {
        let mut list = repeated(rt.alloc(), &built(rt.alloc(), &[ALICE])?, 65_536)?;
        if let Some(ace) = ace_of((ALLOW, 0, READ_DATA, b"bob")) {
            assert!(rt; list.push(ace) == Err(PushFault::TooManyAces));
        }
        Ok(())
    }
}
