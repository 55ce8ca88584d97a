//! What a new file or directory inherits, row by row and over all flags. RFC 8881, section 6.2.1.4.1, has the flags,
//! and docs/reference/lists.md, "Creation", has the rules, which are this library's own.

use ChildKind::{Directory, File};
use acl_eval::*;
use acl_lists_for_tests::{ALLOW, AceRow, DENY, built, kept, passes};
use acl_nfs4::{AceRef, Acl, Flags, Kind, PushFault};
use acl_perm::Mask;
use std::alloc::Global;
use std::process::Abort;

// An ACE as its kind, mask and who.
type Entry = (Kind, u32, &'static [u8]);

const ALICE: Entry = (ALLOW, 1, b"alice");

const GROUP: Entry = (ALLOW, 1, b"GROUP@");

const STAFF: Entry = (ALLOW, 1, b"staff");

const NO_STAFF: Entry = (DENY, 1, b"staff");

const READ_ONLY_STAFF: Entry = (DENY, 2, b"staff");

// An ACE of a directory, its flags, what is created, and its flags there, if it is inherited.
static CREATIONS: [(Entry, u32, ChildKind, Option<u32>); 15] = [
    (ALICE, 0x01, Directory, Some(0x09)),
    (ALICE, 0x09, File, Some(0)),
    (ALICE, 0x05, Directory, None),
    (ALICE, 0x0e, Directory, Some(0)),
    (GROUP, 0x8b, File, Some(0)),
    (GROUP, 0x8b, Directory, Some(0x03)),
    (READ_ONLY_STAFF, 0x52, File, None),
    (READ_ONLY_STAFF, 0x52, Directory, Some(0x52)),
    (ALICE, 0x08, Directory, None),
    (ALICE, 0x00, File, None),
    (NO_STAFF, 0x71, File, Some(0x70)),
    (NO_STAFF, 0x76, Directory, Some(0x70)),
    (STAFF, 0x77, Directory, Some(0x70)),
    (STAFF, 0x73, Directory, Some(0x73)),
    (STAFF, 0x7b, Directory, Some(0x73)),
];

fn with_flags((kind, mask, who): Entry, flags: u32) -> AceRow {
    (kind, flags, mask, who)
}

fn child_of(alloc: Global, parent: &Acl, kind: ChildKind) -> Result<Acl, PushFault> {
    kept(child(alloc, parent, kind))
}

fn gives(alloc: Global, parent: &Acl, kind: ChildKind, wanted: &Acl) -> Result<bool, PushFault> {
    let list = child_of(alloc, parent, kind)?;
    Ok(list == *wanted)
}

fn wanted_of(alloc: Global, ace: Entry, flags: Option<u32>) -> Result<Acl, PushFault> {
    match flags {
        Some(flags) => built(alloc, &[with_flags(ace, flags)]),
        None => Ok(Acl::new(alloc)),
    }
}

/// Checks that a new file or directory inherits what its row says.
pub fn check_creations(rt: &impl Abort, alloc: Global) -> Result<(), PushFault> {
    for (ace, flags, kind, inherited) in CREATIONS {
        let parent = built(alloc, &[with_flags(ace, flags)])?;
        let wanted = wanted_of(alloc, ace, inherited)?;
        assert!(rt; gives(alloc, &parent, kind, &wanted)?);
    }
    Ok(())
}

#[test]
fn a_child_inherits_by_its_kind(rt: HostRuntime) {
    assert!(rt; passes(check_creations(&rt, rt.alloc())));
}

// The flags of the ACE that a new file, and that a new directory, gets of one ACE, if it gets one. The index has the
// bits of FILE_INHERIT, DIRECTORY_INHERIT and NO_PROPAGATE_INHERIT, 1, 2 and 4. The flags that are not about
// inheritance, 0x70, are added as they were; INHERIT_ONLY and INHERITED of the parent change nothing.
static FILE_GETS: [Option<u8>; 8] = [None, Some(0), None, Some(0), None, Some(0), None, Some(0)];

static DIRECTORY_GETS: [Option<u8>; 8] = [
    None,
    Some(0x09),
    Some(0x02),
    Some(0x03),
    None,
    None,
    Some(0),
    Some(0),
];

fn flags_by_the_tables(kind: ChildKind, parent: u8) -> Option<u8> {
    let index = usize::from(parent & 7);
    let row = match kind {
        File => FILE_GETS[index],
        Directory => DIRECTORY_GETS[index],
    };
    Some(row? | parent & 0x70)
}

fn creates_by_the_tables(alloc: Global, kind: ChildKind, bits: u8) -> Result<bool, PushFault> {
    let parent = built(alloc, &[with_flags(ALICE, u32::from(bits))])?;
    let list = child_of(alloc, &parent, kind)?;
    let wanted = flags_by_the_tables(kind, bits);
    let is_as_wanted = match list.aces().next() {
        Some(ace) => wanted == Some(ace.flags.bits()),
        None => wanted.is_none(),
    };
    Ok(list.len() < 2 && is_as_wanted)
}

// Returns whether the new object has each of this many ACEs.
fn creates_many(alloc: Global, count: usize, kind: ChildKind) -> Result<bool, PushFault> {
    let mut parent = Acl::new(alloc);
    for _ in 0..count {
        parent.push(AceRef {
            kind: DENY,
            flags: Flags::FILE_INHERIT | Flags::DIRECTORY_INHERIT,
            mask: Mask::NONE,
            who: b"alice",
        })?;
    }
    let list = child_of(alloc, &parent, kind)?;
    Ok(list.len() == count)
}

fn may_alice_read(list: &Acl) -> Option<bool> {
    let object = Object::new(b"bob", b"staff")?;
    let requester = Requester::new(b"alice", &[])?;
    Some(grants(list.aces(), &object, &requester, Mask::new(1)?))
}

mod ample {
    use super::*;

    #[test]
    fn many_aces_are_inherited(rt: HostRuntime) {
        for count in [65, 4_097, 65_536usize] {
            for kind in [File, Directory] {
                assert!(rt;
                    creates_many(rt.alloc(), count, kind) == Ok(true),
                    "{count}"
                );
            }
        }
    }

    #[test]
    fn every_set_of_flags_is_inherited_by_the_tables(rt: HostRuntime) {
        for flags in 0..=255u8 {
            for kind in [File, Directory] {
                assert!(rt;
                    creates_by_the_tables(rt.alloc(), kind, flags) == Ok(true),
                    "{flags}"
                );
            }
        }
    }

    // An ACE that only files inherit waits in a new directory for the files in it.
    #[test]
    fn a_directory_passes_on_what_is_for_files(rt: HostRuntime) -> Result<(), PushFault> {
        let parent = built(rt.alloc(), &[with_flags(ALICE, 0x01)])?;
        let directory = child_of(rt.alloc(), &parent, Directory)?;
        let file = child_of(rt.alloc(), &directory, File)?;
        assert!(rt; may_alice_read(&directory) == Some(false), "the directory");
        assert!(rt; may_alice_read(&file) == Some(true), "the file");
        Ok(())
    }
}
