//! Owned lists. The properties are that a copy and the list of a view are the same list, and that lists are ordered by
//! their bytes (RFC 4506, sections 4.2, 4.10 and 4.13). The profiles, and the lines that display ACEs, are those of
//! docs/reference/formats.md and docs/proofs/contracts.md, with the names and numbers of RFC 8881, sections 6.2.1.3.1,
//! 6.2.1.4.1 and 6.2.1.5.

use super::harness::is_displayed_as;
use super::rows::{append_ace, append_word, check_copy, shows, spelled};
use acl_lists_for_tests::{AceRow, ace_of, built, kept, repeated};
use acl_nfs4::*;
use std::alloc::{AllocError, Global};
use std::process::Abort;
use std::test::*;

// The lists of the worked examples.
static LISTS: [&[AceRow]; 14] = [
    &[],
    &[(Kind::Allow, 0, 1, b"EVERYONE@")],
    &[(Kind::Deny, 0, 1, b"bob"), (Kind::Allow, 0, 1, b"alice")],
    &[(Kind::Allow, 0, 1, b"alice"), (Kind::Deny, 0, 1, b"bob")],
    &[
        (Kind::Allow, 0, 1, b"OWNER@"),
        (Kind::Deny, 0, 2, b"bob"),
        (Kind::Allow, 0, 2, b"OWNER@"),
    ],
    &[(Kind::Deny, 0, 2, b"bob"), (Kind::Allow, 0, 3, b"OWNER@")],
    &[(Kind::Allow, 0, 1, b"ops"), (Kind::Deny, 0x40, 1, b"ops")],
    &[(Kind::Deny, 0x40, 1, b"ops"), (Kind::Allow, 0, 1, b"ops")],
    &[
        (Kind::Deny, 0x40, 1, b"staff"),
        (Kind::Allow, 0, 1, b"GROUP@"),
    ],
    &[(Kind::Allow, 0, 1, b"GROUP@")],
    &[(Kind::Allow, 0x40, 1, b"GROUP@")],
    &[(Kind::Allow, 0x01, 1, b"alice")],
    &[(Kind::Allow, 0x05, 1, b"alice")],
    &[(Kind::Allow, 0x0e, 1, b"alice")],
];

// Returns whether every way through a list gives these rows, and their number.
fn gives_rows(list: &Acl, rows: &[AceRow]) -> bool {
    let aces = list.into_iter();
    let again: Result<_, _> = aces.clone();
    aces.len() == rows.len() && shows(aces, rows) && again.is_ok_and(|again| shows(again, rows))
}

/// Copies each list of `LISTS`, and compares the copy and the ways through the list with the rows.
pub fn a_copy_is_the_same_list(rt: &impl Abort, alloc: Global) -> Result<(), PushFault> {
    for rows in LISTS {
        let list = built(alloc, rows)?;
        let copy = kept(list.copy(alloc))?;
        assert!(rt; copy == list);
        assert!(rt; shows(copy.aces(), rows));
        assert!(rt; gives_rows(&list, rows));
    }
    Ok(())
}

// Returns whether the calls of a view return the same as the calls of its list.
fn is_alike(view: &AclView<'_>, list: &Acl) -> bool {
    view.len() == list.len()
        && view.is_empty() == list.is_empty()
        && view.weight() == list.weight()
        && view.encoded_len() == list.encoded_len()
        && view.fits(Profile::NARROW) == list.fits(Profile::NARROW)
}

// Returns whether the list and its view are written as these bytes.
fn are_spelled(
    alloc: Global,
    view: &AclView<'_>,
    list: &Acl,
    bytes: &[u8],
) -> Result<bool, AllocError> {
    Ok(view.to_bytes(alloc)?.as_slice() == bytes && list.to_bytes(alloc)?.as_slice() == bytes)
}

fn check_view(
    rt: &impl Abort,
    alloc: Global,
    rows: &[AceRow],
    bytes: &[u8],
    expected: &Acl,
) -> Result<(), PushFault> {
    let Ok(view) = AclView::parse_whole(bytes) else {
        assert!(rt; false, "a list");
        return Ok(());
    };
    let list = kept(Acl::from_view(alloc, &view))?;
    assert!(rt; list == *expected);
    assert!(rt; list.len() == rows.len());
    assert!(rt; list.weight() == expected.weight());
    assert!(rt; shows(list.aces(), rows));
    assert!(rt; shows(view.aces(), rows));
    assert!(rt; shows((&view).into_iter(), rows));
    assert!(rt; is_alike(&view, &list) && is_alike(&list.view(), &list));
    assert!(rt; kept(are_spelled(alloc, &view, &list, bytes))?);
    let again: Result<_, _> = view.clone();
    assert!(rt; again.is_ok_and(|again| shows(again.into_iter(), rows)));
    Ok(())
}

/// Makes a view of each list of `LISTS`, and an owned list of the view.
pub fn a_list_from_a_view_is_what_the_view_shows(
    rt: &impl Abort,
    alloc: Global,
) -> Result<(), PushFault> {
    for rows in LISTS {
        let bytes = kept(spelled(alloc, rows))?;
        let expected = built(alloc, rows)?;
        check_view(rt, alloc, rows, &bytes, &expected)?;
    }
    Ok(())
}

// Lists in ascending order: by their numbers of ACEs, and then by the words of their ACEs.
static RISING: [&[AceRow]; 7] = [
    &[],
    &[(Kind::Allow, 0, 1, b"a")],
    &[(Kind::Allow, 0, 1, b"b")],
    &[(Kind::Allow, 0, 1, b"aa")],
    &[(Kind::Allow, 1, 0, b"a")],
    &[(Kind::Deny, 0, 0, b"a")],
    &[(Kind::Allow, 0, 0, b"a"), (Kind::Allow, 0, 0, b"a")],
];

/// Compares each list of `RISING` with a clone of each list: the order has to be that of the places.
pub fn lists_are_ordered_by_their_bytes(rt: &impl Abort, alloc: Global) -> Result<(), PushFault> {
    for (place, rows) in RISING.iter().enumerate() {
        let list = built(alloc, rows)?;
        for (other_place, other_rows) in RISING.iter().enumerate() {
            let other = kept(built(alloc, other_rows)?.clone())?;
            assert!(rt;
                list.cmp(&other) == place.cmp(&other_place),
                "{place} {other_place}"
            );
        }
    }
    Ok(())
}

// ACEs, and the lines that display them.
static SHOWN: [(AceRow, &str); 4] = [
    (
        (Kind::Allow, 0, 1, b"EVERYONE@"),
        "ALLOW - READ_DATA EVERYONE@",
    ),
    (
        (Kind::Deny, 0x43, 0x21, b"staff"),
        "DENY FILE|DIR|GROUP READ_DATA|EXECUTE staff",
    ),
    ((Kind::Allow, 0, 0, b"\xc3\xa9"), "ALLOW - - \u{e9}"),
    ((Kind::Allow, 0, 0, b"\xff"), "ALLOW - - \u{fffd}"),
];

/// Displays each ACE of `SHOWN`, and reads the row twice: the same row gives equal ACEs.
pub fn an_ace_is_shown_as_its_line(rt: &impl Abort, alloc: Global) -> Result<(), PushFault> {
    for (row, line) in SHOWN {
        let Some(ace) = ace_of(row) else {
            return Ok(());
        };
        assert!(rt; is_displayed_as(alloc, &ace, line)?, "{line}");
        assert!(rt; ace_of(row) == Some(ace));
    }
    Ok(())
}

// Principals, and the whos that display them (RFC 8881, section 6.2.1.5). The flag IDENTIFIER_GROUP is not displayed.
static PRINCIPALS: [(Principal<'static>, &str); 6] = [
    (Principal::Owner, "OWNER@"),
    (Principal::Group, "GROUP@"),
    (Principal::Everyone, "EVERYONE@"),
    (Principal::User(b"alice"), "alice"),
    (Principal::GroupNamed(b"\xc3\xa9"), "\u{e9}"),
    (Principal::GroupNamed(b"\xff"), "\u{fffd}"),
];

/// Displays each principal of `PRINCIPALS`.
pub fn a_principal_is_shown_as_its_who(rt: &impl Abort, alloc: Global) -> Result<(), PushFault> {
    for (principal, who) in PRINCIPALS {
        let name = PrincipalName { principal };
        assert!(rt; is_displayed_as(alloc, &name, who)?, "{who}");
    }
    Ok(())
}

#[test]
fn a_name_that_begins_like_the_owner_is_a_user(rt: HostRuntime) {
    let ace = ace_of((Kind::Allow, 0, 1, b"OWNER@x"));
    assert!(rt; ace.is_some_and(|ace| ace.principal() == Principal::User(b"OWNER@x")));
}

// Flags and a mask, and whether a list with them fits three profiles: the full one, the narrow one, and one without any
// right or flag.
static PROFILES: [(u32, u32, [bool; 3]); 8] = [
    (0, 0, [true, true, true]),
    (0, 1, [true, true, false]),
    (0x01, 0, [true, true, false]),
    (0, 0x200, [true, false, false]),
    (0, 0x400, [true, false, false]),
    (0x80, 1, [true, false, false]),
    (0x40, 1, [true, true, false]),
    (0x7f, 0x001f_01ff, [true, true, false]),
];

fn fitted(list: &Acl) -> [bool; 3] {
    [
        list.fits(Profile::FULL),
        list.fits(Profile::NARROW),
        list.fits(Profile::new(Mask::NONE, Flags::NONE)),
    ]
}

/// Fits a list with the bits of each row of `PROFILES` into the three profiles.
pub fn a_list_fits_the_profile_of_its_bits(
    rt: &impl Abort,
    alloc: Global,
) -> Result<(), PushFault> {
    for (flags, mask, profiles) in PROFILES {
        let rows = [
            (Kind::Allow, 0, 0, b"a".as_slice()),
            (Kind::Deny, flags, mask, b"b"),
        ];
        let list = built(alloc, &rows)?;
        assert!(rt; list.len() == 2);
        assert!(rt; fitted(&list) == profiles, "{flags} {mask}");
    }
    Ok(())
}

fn full_spelled(alloc: Global, row: AceRow) -> Result<Vec<u8>, AllocError> {
    let mut bytes = Vec::new(alloc);
    append_word(&mut bytes, 65_536)?;
    for _ in 0..65_536u32 {
        append_ace(&mut bytes, row)?;
    }
    Ok(bytes)
}

fn full_from_view(alloc: Global, bytes: &[u8]) -> Result<Acl, Fail> {
    Ok(Acl::from_view(alloc, &AclView::parse_whole(bytes)?)?)
}

mod ample {
    use super::*;

    #[test]
    fn a_full_list_is_made_from_its_view(rt: HostRuntime) -> Result<(), Fail> {
        let row = (Kind::Deny, 0x40, 1, b"staff".as_slice());
        let bytes = full_spelled(rt.alloc(), row)?;
        let list = full_from_view(rt.alloc(), &bytes)?;
        assert!(rt; list.len() == 65_536);
        assert!(rt; list.weight() == 65_536);
        assert!(rt; list == repeated(rt.alloc(), 65_536, row)?);
        Ok(())
    }

    #[test]
    fn a_list_grows_past_a_megabyte(rt: HostRuntime) -> Result<(), PushFault> {
        let list = repeated(rt.alloc(), 1_100, (Kind::Allow, 0, 0, &[b'a'; 1024]))?;
        assert!(rt; list.len() == 1_100);
        assert!(rt; check_copy(&rt, rt.alloc(), &list).is_ok());
        Ok(())
    }
}
