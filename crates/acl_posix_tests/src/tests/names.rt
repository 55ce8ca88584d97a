//! Tables of names, and texts with names if memory may run out. Which names a table takes is this library's own:
//! none that is empty, none of digits alone (docs/reference/formats.md, "POSIX texts"), and none twice.

use super::samples::{
    LISTED_CANONICAL, LISTED_SHORT, SHORT, SHOWN, TWO_MASKS, TWO_MASKS_SHOWN, is_written,
};
use acl_posix::*;
use std::alloc::Global;
use std::process::Abort;

// Names that are added in turn: whether each is that of a group, its id, and the answer.
static ADDED: [(bool, &[u8], u32, Result<(), NameFault>); 6] = [
    (false, b"", 1, Err(NameFault::EmptyName)),
    (false, b"007", 1, Err(NameFault::DigitsOnly)),
    (false, b"7a", 1, Ok(())),
    (false, b"7a", 2, Err(NameFault::Taken)),
    (true, b"7a", 2, Ok(())),
    (true, b"7a", 2, Err(NameFault::Taken)),
];

fn add(names: &mut Names, is_group: bool, name: &[u8], id: Id) -> Result<(), NameFault> {
    if is_group {
        names.add_group(name, id)
    } else {
        names.add_user(name, id)
    }
}

/// Names are added to both halves of a table, and a refused name changes nothing.
pub fn add_each(rt: &impl Abort, names: &mut Names) {
    for (is_group, name, id, answer) in &ADDED {
        let added = Id::new(*id).map(|id| add(names, *is_group, name, id));
        assert!(rt; added == Some(*answer), "{name:?}");
    }
}

// Returns all ids that a table can have after `add_names`: those of each name as a user, and then as a group.
fn all_ids(names: &Names) -> [Option<Id>; 4] {
    [
        names.user(b"bob"),
        names.user(b"staff ops"),
        names.group(b"bob"),
        names.group(b"staff ops"),
    ]
}

// Adds a name, and again if it was added. A call that runs out of memory leaves the whole table as it was, so that the
// call can be made again.
fn add_twice(rt: &impl Abort, names: &mut Names, is_group: bool, name: &[u8], id: Id) {
    let before = all_ids(names);
    match add(names, is_group, name, id) {
        Ok(()) => assert!(rt; add(names, is_group, name, id) == Err(NameFault::Taken)),
        Err(fault) => {
            assert!(rt; fault == NameFault::Memory);
            assert!(rt; all_ids(names) == before);
        }
    }
}

// Adds a name to each half of the table.
fn add_names(rt: &impl Abort, names: &mut Names) -> Option<()> {
    add_twice(rt, names, false, b"bob", Id::new(1002)?);
    let has_user = names.user(b"bob").is_some();
    add_twice(rt, names, true, b"staff ops", Id::new(50)?);
    assert!(rt; names.user(b"bob").is_some() == has_user);
    Some(())
}

static ROWS: [(&[u8], AclTextForm, &[u8]); 4] = [
    (SHORT, AclTextForm::Shown, SHOWN),
    (LISTED_SHORT, AclTextForm::Canonical, LISTED_CANONICAL),
    (TWO_MASKS, AclTextForm::Shown, TWO_MASKS_SHOWN),
    (
        b"u::,u:bob:r,g::,g:staff ops:w,m::,o::",
        AclTextForm::Short,
        b"u::---,u:1002:r--,g::---,g:50:-w-,m::---,o::---",
    ),
];

// Returns whether a text is read and written, or memory ran out, or a name is not in the table.
fn may_be_read(
    alloc: Global,
    names: &Names,
    has_both: bool,
    (text, form, wanted): (&[u8], AclTextForm, &[u8]),
) -> bool {
    match parse(alloc, text, names) {
        Ok(file) => is_written(&file, form, wanted),
        Err(TextFault::UnknownName { line, .. }) => !has_both && line == 1,
        Err(fault) => fault == TextFault::Memory,
    }
}

// Names, a text with these names, and its forms. If memory runs out, that is the only other accepted answer.
#[test]
fn texts_are_read_and_written_unless_memory_runs_out(rt: HostRuntime) {
    let mut names = Names::new(rt.alloc());
    assert!(rt; add_names(&rt, &mut names).is_some());
    let has_both = names.user(b"bob").is_some() && names.group(b"staff ops").is_some();
    for row in ROWS {
        assert!(rt; may_be_read(rt.alloc(), &names, has_both, row));
    }
    match parse(rt.alloc(), b"u::,u:7:r,u:007:w,g::,m::,o::", &names) {
        Ok(_) => assert!(rt; false, "an id that is in the list twice"),
        Err(TextFault::Invalid(part, cause)) => {
            assert!(rt; (part, cause) == (Part::Access, Cause::Duplicate(2)));
        }
        Err(fault) => assert!(rt; fault == TextFault::Memory),
    }
}
