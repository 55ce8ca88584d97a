//! What the NFSv4 list of a descriptor grants. The rights of the tokens are those that the access check of Samba 4.22
//! granted, asked for one by one. The ACEs are worked by hand from MS-DTYP, section 2.5.3.2.

use acl_eval::*;
use acl_nfs4::*;
use acl_nt::*;
use std::alloc::Global;

pub const EVERYONE: &[u8] = b"S-1-1-0";

const AUTHENTICATED: &[u8] = b"S-1-5-11";

const ADMINISTRATORS: &[u8] = b"S-1-5-32-544";

const DOMAIN_USERS: &[u8] = b"S-1-5-21-11-22-33-513";

const AMY: &[u8] = b"S-1-5-21-11-22-33-1104";

pub const BOB: &[u8] = b"S-1-5-21-11-22-33-1105";

const STAFF: &[u8] = b"S-1-5-21-11-22-33-1201";

// A descriptor, and the rights of files that Samba grants to tokens of these SIDs.
struct Row {
    value: &'static [u8],
    asked: &'static [(&'static [&'static [u8]], u32)],
}

static ROWS: [Row; 10] = [
    // A NULL DACL.
    Row {
        value: b"\x01\0\x04\x80\x14\0\0\0\x30\0\0\0\0\0\0\0\0\0\0\0\x01\x05\0\0\0\0\0\x05\x15\0\0\0\x0b\0\0\0\x16\0\0\
        \0\x21\0\0\0Q\x04\0\0\x01\x05\0\0\0\0\0\x05\x15\0\0\0\x0b\0\0\0\x16\0\0\0\x21\0\0\0\xb1\x04\0\0",
        asked: &[(&[AMY, EVERYONE], 0x001f_01ff)],
    },
    // An empty DACL, with the owner's own rights.
    Row {
        value: b"\x01\0\x04\x80\x14\0\0\0\x30\0\0\0\0\0\0\0L\0\0\0\x01\x05\0\0\0\0\0\x05\x15\0\0\0\x0b\0\0\0\x16\0\0\0\
        \x21\0\0\0\x01\x02\0\0\x01\x05\0\0\0\0\0\x05\x15\0\0\0\x0b\0\0\0\x16\0\0\0\x21\0\0\0\x01\x02\0\0\x02\0\x08\0\0\
        \0\0\0",
        asked: &[
            (&[BOB, DOMAIN_USERS, EVERYONE], 0x0006_0000),
            (&[AMY, EVERYONE], 0),
        ],
    },
    // ALLOW Bob with INHERIT_ONLY is about new objects alone.
    Row {
        value: b"\x01\0\x04\x80\x14\0\0\0\x30\0\0\0\0\0\0\0L\0\0\0\x01\x05\0\0\0\0\0\x05\x15\0\0\0\x0b\0\0\0\x16\0\0\0\
        \x21\0\0\0\x01\x02\0\0\x01\x05\0\0\0\0\0\x05\x15\0\0\0\x0b\0\0\0\x16\0\0\0\x21\0\0\0\xb1\x04\0\0\x02\0d\0\x03\
        \0\0\0\0\x0b\x24\0\x40\0\x08\0\x01\x05\0\0\0\0\0\x05\x15\0\0\0\x0b\0\0\0\x16\0\0\0\x21\0\0\0Q\x04\0\0\x01\x13\
        \x14\0\x28\x01\x0b\0\x01\x01\0\0\0\0\0\x05\x0b\0\0\0\x01\x10\x24\0\x20\0\0\0\x01\x05\0\0\0\0\0\x05\x15\0\0\0\
        \x0b\0\0\0\x16\0\0\0\x21\0\0\0\x01\x02\0\0",
        asked: &[
            (&[AMY, DOMAIN_USERS, EVERYONE], 0x0006_0000),
            (&[BOB, STAFF, EVERYONE], 0),
        ],
    },
    // DENY Bob before ALLOW authenticated users.
    Row {
        value: b"\x01\0\x04\x80\x14\0\0\0\x30\0\0\0\0\0\0\0L\0\0\0\x01\x05\0\0\0\0\0\x05\x15\0\0\0\x0b\0\0\0\x16\0\0\0\
        \x21\0\0\0\x01\x02\0\0\x01\x05\0\0\0\0\0\x05\x15\0\0\0\x0b\0\0\0\x16\0\0\0\x21\0\0\0\x01\x02\0\0\x02\0x\0\x04\
        \0\0\0\x01\0\x24\0\x28\0\0\0\x01\x05\0\0\0\0\0\x05\x15\0\0\0\x0b\0\0\0\x16\0\0\0\x21\0\0\0Q\x04\0\0\0\x03\x14\
        \0\xa9\0\x12\0\x01\x01\0\0\0\0\0\x05\x0b\0\0\0\x01\x13\x14\0\0\0\x06\0\x01\x01\0\0\0\0\0\x05\x0b\0\0\0\x01\0\
        \x24\0\0\0\x02\0\x01\x05\0\0\0\0\0\x05\x15\0\0\0\x0b\0\0\0\x16\0\0\0\x21\0\0\0\xb1\x04\0\0",
        asked: &[
            (&[BOB, AUTHENTICATED, EVERYONE], 0x0012_0081),
            (&[BOB, EVERYONE], 0),
        ],
    },
    // DENY staff before ALLOW the owner, whose own READ_ACL comes first.
    Row {
        value: b"\x01\0\x04\x80\x14\0\0\0\x30\0\0\0\0\0\0\0L\0\0\0\x01\x05\0\0\0\0\0\x05\x15\0\0\0\x0b\0\0\0\x16\0\0\0\
        \x21\0\0\0P\x04\0\0\x01\x05\0\0\0\0\0\x05\x15\0\0\0\x0b\0\0\0\x16\0\0\0\x21\0\0\0\x01\x02\0\0\x02\0t\0\x03\0\0\
        \0\x01\0\x24\0\x20\0\x02\0\x01\x05\0\0\0\0\0\x05\x15\0\0\0\x0b\0\0\0\x16\0\0\0\x21\0\0\0\xb1\x04\0\0\x01\x03\
        \x24\0\0\x01\x08\0\x01\x05\0\0\0\0\0\x05\x15\0\0\0\x0b\0\0\0\x16\0\0\0\x21\0\0\0\x01\x02\0\0\0\0\x24\0\xa9\0\
        \x12\0\x01\x05\0\0\0\0\0\x05\x15\0\0\0\x0b\0\0\0\x16\0\0\0\x21\0\0\0P\x04\0\0",
        asked: &[
            (&[AMY, EVERYONE], 0x0016_00a9),
            (
                &[AMY, STAFF, ADMINISTRATORS, DOMAIN_USERS, EVERYONE],
                0x0016_0089,
            ),
        ],
    },
    // OWNER RIGHTS with INHERIT_ONLY leaves the owner's own rights as they are.
    Row {
        value: b"\x01\0\x04\x80\x14\0\0\0\x24\0\0\0\0\0\0\0\x40\0\0\0\x01\x02\0\0\0\0\0\x05\x20\0\0\0\x20\x02\0\0\x01\
        \x05\0\0\0\0\0\x05\x15\0\0\0\x0b\0\0\0\x16\0\0\0\x21\0\0\0\xb1\x04\0\0\x02\0T\0\x03\0\0\0\0\0\x14\0\0\0\x05\0\
        \x01\x01\0\0\0\0\0\x03\x01\0\0\0\0\x0b\x14\0\xa9\0\x12\0\x01\x01\0\0\0\0\0\x03\x04\0\0\0\0\x03\x24\0\xe0\0\x13\
        \0\x01\x05\0\0\0\0\0\x05\x15\0\0\0\x0b\0\0\0\x16\0\0\0\x21\0\0\0\xb1\x04\0\0",
        asked: &[
            (&[AMY, ADMINISTRATORS, EVERYONE], 0x0006_0000),
            (&[AMY, DOMAIN_USERS, STAFF, EVERYONE], 0x0013_00e0),
        ],
    },
    // DENY OWNER RIGHTS in place of the owner's own rights.
    Row {
        value: b"\x01\0\x04\x80\x14\0\0\0\x24\0\0\0\0\0\0\0\x40\0\0\0\x01\x02\0\0\0\0\0\x05\x20\0\0\0\x20\x02\0\0\x01\
        \x05\0\0\0\0\0\x05\x15\0\0\0\x0b\0\0\0\x16\0\0\0\x21\0\0\0\0\x02\0\0\x02\0d\0\x03\0\0\0\x01\0\x24\0\xff\x01\
        \x1f\0\x01\x05\0\0\0\0\0\x05\x15\0\0\0\x0b\0\0\0\x16\0\0\0\x21\0\0\0\x01\x02\0\0\0\x0b\x24\0\xa9\0\x12\0\x01\
        \x05\0\0\0\0\0\x05\x15\0\0\0\x0b\0\0\0\x16\0\0\0\x21\0\0\0Q\x04\0\0\x01\x03\x14\0\0\0\x06\0\x01\x01\0\0\0\0\0\
        \x03\x04\0\0\0",
        asked: &[
            (
                &[BOB, AUTHENTICATED, DOMAIN_USERS, ADMINISTRATORS, EVERYONE],
                0,
            ),
            (&[AMY, DOMAIN_USERS, EVERYONE], 0),
        ],
    },
    // ALLOW OWNER RIGHTS READ_ACL and WRITE_ACL.
    Row {
        value: b"\x01\0\x04\x80\x14\0\0\0\x30\0\0\0\0\0\0\0L\0\0\0\x01\x05\0\0\0\0\0\x05\x15\0\0\0\x0b\0\0\0\x16\0\0\0\
        \x21\0\0\0\x01\x02\0\0\x01\x05\0\0\0\0\0\x05\x15\0\0\0\x0b\0\0\0\x16\0\0\0\x21\0\0\0\0\x02\0\0\x02\0\x34\0\x02\
        \0\0\0\0\0\x14\0\0\0\x06\0\x01\x01\0\0\0\0\0\x03\x04\0\0\0\0\x03\x18\0\xa9\0\x12\0\x01\x02\0\0\0\0\0\x05\x20\0\
        \0\0\x20\x02\0\0",
        asked: &[
            (&[AMY, EVERYONE], 0),
            (&[AMY, DOMAIN_USERS, STAFF, EVERYONE], 0x0006_0000),
        ],
    },
    // ALLOW OWNER RIGHTS in place of the owner's own rights, and DENY with INHERIT_ONLY a group of the owner.
    Row {
        value: b"\x01\0\x04\x80\x14\0\0\0\x30\0\0\0\0\0\0\0L\0\0\0\x01\x05\0\0\0\0\0\x05\x15\0\0\0\x0b\0\0\0\x16\0\0\0\
        \x21\0\0\0P\x04\0\0\x01\x05\0\0\0\0\0\x05\x15\0\0\0\x0b\0\0\0\x16\0\0\0\x21\0\0\0\0\x02\0\0\x02\0d\0\x03\0\0\0\
        \x01\x08\x24\0\x08\0\x10\0\x01\x05\0\0\0\0\0\x05\x15\0\0\0\x0b\0\0\0\x16\0\0\0\x21\0\0\0\xb1\x04\0\0\x01\0\x24\
        \0\xff\x01\x1f\0\x01\x05\0\0\0\0\0\x05\x15\0\0\0\x0b\0\0\0\x16\0\0\0\x21\0\0\0\x01\x02\0\0\0\0\x14\0\x20\0\x02\
        \0\x01\x01\0\0\0\0\0\x03\x04\0\0\0",
        asked: &[
            (
                &[AMY, ADMINISTRATORS, STAFF, AUTHENTICATED, EVERYONE],
                0x0002_0020,
            ),
            (&[BOB, DOMAIN_USERS, ADMINISTRATORS, EVERYONE], 0),
        ],
    },
    // DENY with INHERIT_ONLY before ALLOW authenticated users, and OWNER RIGHTS without an owner.
    Row {
        value: b"\x01\0\x04\x80\0\0\0\0\x14\0\0\0\0\0\0\0\x30\0\0\0\x01\x05\0\0\0\0\0\x05\x15\0\0\0\x0b\0\0\0\x16\0\0\
        \0\x21\0\0\0\x01\x02\0\0\x02\0\x5c\0\x04\0\0\0\x01\x0b\x14\0\xff\x01\x1f\0\x01\x01\0\0\0\0\0\x05\x0b\0\0\0\0\0\
        \x14\0\0\0\x06\0\x01\x01\0\0\0\0\0\x05\x0b\0\0\0\x01\x03\x18\0\x05\0\x10\0\x01\x02\0\0\0\0\0\x05\x20\0\0\0\x20\
        \x02\0\0\0\x03\x14\0\x02\0\x01\0\x01\x01\0\0\0\0\0\x03\x04\0\0\0",
        asked: &[
            (&[BOB, STAFF, AUTHENTICATED, EVERYONE], 0x0006_0000),
            (&[AMY, ADMINISTRATORS, AUTHENTICATED, EVERYONE], 0x0006_0000),
        ],
    },
];

// The fourteen rights of files and directories.
const FILE_RIGHTS: u32 = 0x001f_01ff;

// Returns whether a list grants a member of these groups these rights of files alone.
pub fn is_granted(list: &Acl, groups: &[&[u8]], rights: u32) -> bool {
    match (
        Object::new(b"owner", b"group"),
        Requester::new(b"user", groups),
        Mask::new(FILE_RIGHTS),
    ) {
        (Some(object), Some(requester), Some(mask)) => {
            granted(list.aces(), &object, &requester, mask).bits() == rights
        }
        _ => false,
    }
}

fn is_row(list: &Acl, row: &Row) -> bool {
    row.asked
        .iter()
        .all(|(groups, rights)| is_granted(list, groups, *rights))
}

// Returns whether the list of a descriptor grants what its row says, unless memory runs out.
fn is_row_or_memory(alloc: Global, descriptor: &NtDescriptor, row: &Row) -> bool {
    match nt_list(alloc, descriptor, &[]) {
        Ok(list) => is_row(&list, row),
        Err(fault) => fault == NtListFault::Memory,
    }
}

#[test]
fn lists_grant_what_samba_grants(rt: HostRuntime) {
    let alloc = rt.alloc();
    for row in &ROWS {
        match read_nt(alloc, NtForm::Descriptor, row.value) {
            Ok(descriptor) => assert!(rt; is_row_or_memory(alloc, &descriptor, row)),
            Err(fault) => assert!(rt; fault.reason == NtReason::Memory),
        }
    }
}

// The owner S-1-5-32-544, and the DACL: DENY WRITE_DATA S-1-5-18, with OBJECT_INHERIT and CONTAINER_INHERIT; ALLOW all
// S-1-5-9, with INHERIT_ONLY too; ALLOW S-1-1-0 all, ACCESS_SYSTEM_SECURITY, and 0x200 and 0x400, which are no rights
// of files.
const DESCRIPTOR: &[u8] =
    b"\x01\0\x04\x80\x14\0\0\0\0\0\0\0\0\0\0\0\x24\0\0\0\x01\x02\0\0\0\0\0\x05\x20\0\0\0\x20\x02\
    \0\0\x02\0\x44\0\x03\0\0\0\x01\x03\x14\0\x02\0\0\0\x01\x01\0\0\0\0\0\x05\x12\0\0\0\0\x0b\x14\0\xff\x01\x1f\0\x01\
    \x01\0\0\0\0\0\x05\x09\0\0\0\0\0\x14\0\xff\x07\x1f\x01\x01\x01\0\0\0\0\0\x01\0\0\0\0";

// The owner S-1-5-18 and a NULL DACL.
const SYSTEM: &[u8] =
    b"\x01\0\x04\x80\x14\0\0\0\0\0\0\0\0\0\0\0\0\0\0\0\x01\x01\0\0\0\0\0\x05\x12\0\0\0";

// An ACE as its kind, flags, mask and who.
type AceRow = (Kind, u8, u32, &'static [u8]);

const OWNING: AceRow = (Kind::Allow, 0x40, 0x0006_0000, ADMINISTRATORS);

const ALL: AceRow = (Kind::Allow, 0, FILE_RIGHTS, b"EVERYONE@");

fn is_ace(ace: &AceRef<'_>, (kind, flags, mask, who): AceRow) -> bool {
    ace.kind == kind && ace.flags.bits() == flags && ace.mask.bits() == mask && ace.who == who
}

fn is_list(list: &Acl, rows: &[AceRow]) -> bool {
    list.len() == rows.len() && list.aces().zip(rows).all(|(ace, row)| is_ace(&ace, *row))
}

// Returns whether the list of a descriptor for these users has these ACEs, unless memory runs out.
fn is_list_of(alloc: Global, value: &[u8], users: &[Sid], rows: &[AceRow]) -> bool {
    match read_nt(alloc, NtForm::Descriptor, value) {
        Ok(descriptor) => is_nt_list(alloc, &descriptor, users, rows),
        Err(fault) => fault.reason == NtReason::Memory,
    }
}

fn is_nt_list(alloc: Global, descriptor: &NtDescriptor, users: &[Sid], rows: &[AceRow]) -> bool {
    match nt_list(alloc, descriptor, users) {
        Ok(list) => is_list(&list, rows),
        Err(fault) => fault == NtListFault::Memory,
    }
}

#[test]
fn the_aces_are_those_of_the_object(rt: HostRuntime) {
    let alloc = rt.alloc();
    let system = (Kind::Deny, 0x40, 2, b"S-1-5-18".as_slice());
    assert!(rt; is_list_of(alloc, DESCRIPTOR, &[], &[OWNING, system, ALL]));
    assert!(rt; is_list_of(alloc, SYSTEM, &[], &[ALL]));
}

// Returns whether the list of `DESCRIPTOR` has these ACEs if the owner of the other descriptor is a user.
fn is_list_for_owner(alloc: Global, descriptor: NtDescriptor, rows: &[AceRow]) -> bool {
    let NtDescriptor { owner, .. } = descriptor;
    match owner {
        Some(user) => is_list_of(alloc, DESCRIPTOR, &[user], rows),
        None => false,
    }
}

#[test]
fn a_user_is_no_group(rt: HostRuntime) {
    let alloc = rt.alloc();
    let system = (Kind::Deny, 0, 2, b"S-1-5-18".as_slice());
    match read_nt(alloc, NtForm::Descriptor, SYSTEM) {
        Ok(descriptor) => assert!(rt; is_list_for_owner(alloc, descriptor, &[OWNING, system, ALL])),
        Err(fault) => assert!(rt; fault.reason == NtReason::Memory),
    }
}

// With ample memory, each value is read and has its list.
mod ample {
    use super::*;

    fn is_answered(alloc: Global, row: &Row) -> bool {
        match read_nt(alloc, NtForm::Descriptor, row.value) {
            Ok(descriptor) => is_list_answered(alloc, &descriptor, row),
            Err(_) => false,
        }
    }

    fn is_list_answered(alloc: Global, descriptor: &NtDescriptor, row: &Row) -> bool {
        match nt_list(alloc, descriptor, &[]) {
            Ok(list) => is_row(&list, row),
            Err(_) => false,
        }
    }

    #[test]
    fn each_value_is_read_and_has_its_list(rt: HostRuntime) {
        let alloc = rt.alloc();
        for row in &ROWS {
            assert!(rt; is_answered(alloc, row));
        }
    }
}
