//! The texts of a POSIX ACL in archives, as bsdtar 3.6.2 and GNU tar 1.34 write them. That a form does not hold an ACL
//! is this library's own.
use crate::tests::{BAD_ARGUMENT, DONE, REFUSED, no_fault};
use crate::{RawName, RawNames, aclck_entries_to_form};
use acl_posix::RawEntry;

const NO_ID: u32 = 0xffff_ffff;

const TEXT: u32 = 2;

const DEFAULT_TEXT: u32 = 4;

const GNU: u32 = 16;

// The entries of other, of the user 4, of the group, of the mask and of the owner, by their tags in `enum aclck_tag`.
const ENTRIES: [RawEntry; 5] = [
    RawEntry {
        tag: 6,
        id: NO_ID,
        perm: 2,
    },
    RawEntry {
        tag: 2,
        id: 4,
        perm: 7,
    },
    RawEntry {
        tag: 3,
        id: NO_ID,
        perm: 6,
    },
    RawEntry {
        tag: 5,
        id: NO_ID,
        perm: 3,
    },
    RawEntry {
        tag: 1,
        id: NO_ID,
        perm: 6,
    },
];

const STAR: &[u8] = b"user::rw-,group::rw-,other::-w-,user:sync:rwx:4,mask::-wx";

const LINES: &[u8] = b"user::rw-\nuser:sync:rwx\ngroup::rw-\nmask::-wx\nother::-w-\n";

// A form, the name of the user 4, the status, the value and the reason of a fault.
static WRITTEN: [(u32, &[u8], u32, &[u8], u32); 7] = [
    (TEXT, b"sync", DONE, STAR, 0),
    (DEFAULT_TEXT, b"sync", DONE, STAR, 0),
    (TEXT + GNU, b"sync", DONE, LINES, 0),
    (DEFAULT_TEXT + GNU, b"sync", DONE, LINES, 0),
    (TEXT, b"sy,nc", REFUSED, b"", 44),
    (TEXT, b"4", BAD_ARGUMENT, b"", 0),
    (3, b"sync", BAD_ARGUMENT, b"", 0),
];

#[test]
fn entries_are_written_as_the_tools_write_them(rt: HostRuntime) {
    for (form, name, expected, value, reason) in WRITTEN {
        let names = [RawName {
            name,
            id: 4,
            is_group: 0,
        }];
        let names = RawNames { names: &names };
        let mut fault = no_fault();
        let mut out = [7u8; 57];
        let mut needed = 0;
        let status = aclck_entries_to_form(
            rt.alloc(),
            &ENTRIES,
            &names,
            form,
            &mut out,
            &mut needed,
            &mut fault,
        );
        assert!(rt; status == expected);
        assert!(rt; needed == value.len());
        assert!(rt; out.starts_with(value));
        assert!(rt; fault.reason == reason);
    }
}
