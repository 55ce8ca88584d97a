//! What a part of a descriptor leaves out. The rights of the token are those that the access check of Samba 4.22
//! granted over the whole DACL. That an ACE of OWNER RIGHTS of any type takes the owner's own rights is Samba's too.

use super::lists::{BOB, EVERYONE, is_granted};
use acl_nt::*;
use std::alloc::Global;

// A descriptor whose DACL has an ACE of another type at byte 84 and then an ALLOW for everybody; the type; and the
// rights that Samba grants to Bob.
struct Row {
    value: &'static [u8],
    type_number: u8,
    rights: u32,
}

static ROWS: [Row; 5] = [
    // An object ALLOW for Bob.
    Row {
        value: b"\x01\0\x04\x80\x14\0\0\0\x30\0\0\0\0\0\0\0L\0\0\0\x01\x05\0\0\0\0\0\x05\x15\0\0\0\x0b\0\0\0\x16\0\0\
        \0\x21\0\0\0P\x04\0\0\x01\x05\0\0\0\0\0\x05\x15\0\0\0\x0b\0\0\0\x16\0\0\0\x21\0\0\0\0\x02\0\0\x04\0D\
        \0\x02\0\0\0\x05\0\x28\0\x03\0\0\0\0\0\0\0\x01\x05\0\0\0\0\0\x05\x15\0\0\0\x0b\0\0\0\x16\0\0\0\x21\0\
        \0\0Q\x04\0\0\0\0\x14\0\x04\0\0\0\x01\x01\0\0\0\0\0\x01\0\0\0\0",
        type_number: 5,
        rights: 4,
    },
    // An object ALLOW for Bob with a condition.
    Row {
        value: b"\x01\0\x04\x80\x14\0\0\0\x30\0\0\0\0\0\0\0L\0\0\0\x01\x05\0\0\0\0\0\x05\x15\0\0\0\x0b\0\0\0\x16\0\0\
        \0\x21\0\0\0P\x04\0\0\x01\x05\0\0\0\0\0\x05\x15\0\0\0\x0b\0\0\0\x16\0\0\0\x21\0\0\0\0\x02\0\0\x04\0L\
        \0\x02\0\0\0\x0b\0\x30\0\x03\0\0\0\0\0\0\0\x01\x05\0\0\0\0\0\x05\x15\0\0\0\x0b\0\0\0\x16\0\0\0\x21\0\
        \0\0Q\x04\0\0artx\0\0\0\0\0\0\x14\0\x04\0\0\0\x01\x01\0\0\0\0\0\x01\0\0\0\0",
        type_number: 11,
        rights: 4,
    },
    // An object AUDIT.
    Row {
        value: b"\x01\0\x04\x80\x14\0\0\0\x30\0\0\0\0\0\0\0L\0\0\0\x01\x05\0\0\0\0\0\x05\x15\0\0\0\x0b\0\0\0\x16\0\0\
        \0\x21\0\0\0P\x04\0\0\x01\x05\0\0\0\0\0\x05\x15\0\0\0\x0b\0\0\0\x16\0\0\0\x21\0\0\0\0\x02\0\0\x04\0D\
        \0\x02\0\0\0\x07\0\x28\0\x03\0\0\0\0\0\0\0\x01\x05\0\0\0\0\0\x05\x15\0\0\0\x0b\0\0\0\x16\0\0\0\x21\0\
        \0\0Q\x04\0\0\0\0\x14\0\x07\0\0\0\x01\x01\0\0\0\0\0\x01\0\0\0\0",
        type_number: 7,
        rights: 7,
    },
    // A mandatory label.
    Row {
        value: b"\x01\0\x04\x80\x14\0\0\0\x30\0\0\0\0\0\0\0L\0\0\0\x01\x05\0\0\0\0\0\x05\x15\0\0\0\x0b\0\0\0\x16\0\0\
        \0\x21\0\0\0P\x04\0\0\x01\x05\0\0\0\0\0\x05\x15\0\0\0\x0b\0\0\0\x16\0\0\0\x21\0\0\0\0\x02\0\0\x04\0\
        \x40\0\x02\0\0\0\x11\0\x24\0\x03\0\0\0\x01\x05\0\0\0\0\0\x05\x15\0\0\0\x0b\0\0\0\x16\0\0\0\x21\0\0\0\
        Q\x04\0\0\0\0\x14\0\x07\0\0\0\x01\x01\0\0\0\0\0\x01\0\0\0\0",
        type_number: 17,
        rights: 7,
    },
    // A process trust label.
    Row {
        value: b"\x01\0\x04\x80\x14\0\0\0\x30\0\0\0\0\0\0\0L\0\0\0\x01\x05\0\0\0\0\0\x05\x15\0\0\0\x0b\0\0\0\x16\0\0\
        \0\x21\0\0\0P\x04\0\0\x01\x05\0\0\0\0\0\x05\x15\0\0\0\x0b\0\0\0\x16\0\0\0\x21\0\0\0\0\x02\0\0\x04\0\
        \x40\0\x02\0\0\0\x14\0\x24\0\x03\0\0\0\x01\x05\0\0\0\0\0\x05\x15\0\0\0\x0b\0\0\0\x16\0\0\0\x21\0\0\0\
        Q\x04\0\0\0\0\x14\0\x04\0\0\0\x01\x01\0\0\0\0\0\x01\0\0\0\0",
        type_number: 20,
        rights: 4,
    },
];

fn is_left_out(part: &NtPart, offset: u64, type_number: u8) -> bool {
    part.left_out.as_slice()
        == [OtherAce {
            offset,
            type_number,
        }]
        .as_slice()
}

// Returns whether the list of a part grants Bob what Samba grants him, unless memory runs out.
fn is_row(alloc: Global, part: &NtPart, row: &Row) -> bool {
    match nt_list(alloc, &part.descriptor, &[]) {
        Ok(list) => is_left_out(part, 84, row.type_number)
            && is_granted(&list, &[BOB, EVERYONE], row.rights),
        Err(fault) => fault == NtListFault::Memory,
    }
}

#[test]
fn a_part_leaves_out_what_samba_steps_over(rt: HostRuntime) {
    let alloc = rt.alloc();
    for row in &ROWS {
        match read_nt_part(alloc, NtForm::Descriptor, row.value) {
            Ok(part) => assert!(rt; is_row(alloc, &part, row)),
            Err(fault) => assert!(rt; fault.reason == NtReason::Memory),
        }
    }
}

// The owner S-1-5-32-544, and the DACL: a conditional ALLOW of WRITE_DATA for OWNER RIGHTS, S-1-3-4.
const OWNER_RIGHTS: &[u8] =
    b"\x01\0\x04\x80\x14\0\0\0\0\0\0\0\0\0\0\0\x24\0\0\0\x01\x02\0\0\0\0\0\x05\x20\0\0\0\x20\x02\0\0\x04\0\
    \x1c\0\x01\0\0\0\x09\0\x14\0\0\0\x02\0\x01\x01\0\0\0\0\0\x03\x04\0\0\0";

// The same as an AUDIT.
const AUDITED: &[u8] =
    b"\x01\0\x04\x80\x14\0\0\0\0\0\0\0\0\0\0\0\x24\0\0\0\x01\x02\0\0\0\0\0\x05\x20\0\0\0\x20\x02\0\0\x04\0\
    \x1c\0\x01\0\0\0\x02\0\x14\0\0\0\x02\0\x01\x01\0\0\0\0\0\x03\x04\0\0\0";

// The same with INHERIT_ONLY.
const FOR_NEW_OBJECTS: &[u8] =
    b"\x01\0\x04\x80\x14\0\0\0\0\0\0\0\0\0\0\0\x24\0\0\0\x01\x02\0\0\0\0\0\x05\x20\0\0\0\x20\x02\0\0\x04\0\
    \x1c\0\x01\0\0\0\x09\x08\x14\0\0\0\x02\0\x01\x01\0\0\0\0\0\x03\x04\0\0\0";

// The same as an ALLOW.
const ALLOWED: &[u8] =
    b"\x01\0\x04\x80\x14\0\0\0\0\0\0\0\0\0\0\0\x24\0\0\0\x01\x02\0\0\0\0\0\x05\x20\0\0\0\x20\x02\0\0\x04\0\
    \x1c\0\x01\0\0\0\0\0\x14\0\0\0\x02\0\x01\x01\0\0\0\0\0\x03\x04\0\0\0";

// Returns whether a part is refused for an ACE of OWNER RIGHTS, unless memory runs out.
fn is_refused(alloc: Global, value: &[u8]) -> bool {
    match read_nt_part(alloc, NtForm::Descriptor, value) {
        Ok(_) => false,
        Err(fault) => fault == OWNER_FAULT || fault.reason == NtReason::Memory,
    }
}

const OWNER_FAULT: NtFault = NtFault {
    offset: 44,
    reason: NtReason::AceType,
};

#[test]
fn an_ace_of_owner_rights_is_not_left_out(rt: HostRuntime) {
    let alloc = rt.alloc();
    for value in [OWNER_RIGHTS, AUDITED] {
        assert!(rt; is_refused(alloc, value));
    }
}

// With ample memory, each part is read.
mod ample {
    use super::*;

    fn is_read(alloc: Global, value: &[u8], left_out: usize) -> bool {
        match read_nt_part(alloc, NtForm::Descriptor, value) {
            Ok(part) => part.left_out.len() == left_out,
            Err(_) => false,
        }
    }

    #[test]
    fn each_part_is_read(rt: HostRuntime) {
        let alloc = rt.alloc();
        for row in &ROWS {
            assert!(rt; is_read(alloc, row.value, 1));
        }
        assert!(rt; is_read(alloc, FOR_NEW_OBJECTS, 1));
        assert!(rt; is_read(alloc, ALLOWED, 0));
    }
}
