//! Values that Samba 4.22 made and read. The places and the reasons of the faults are this library's own.

use acl_nt::*;
use std::alloc::Global;

mod descriptors;
mod ntacl;

// An authority and sub-authorities.
type SidRow = (u64, &'static [u32]);

// What Samba says of a value.
struct Row {
    form: NtForm,
    value: &'static [u8],
    control: u16,
    owner: Option<SidRow>,
    group: Option<SidRow>,
    dacl: Option<&'static [(Kind, u8, u32, SidRow)]>,
    audits: Option<usize>,
}

// A value, and the place and the reason of its first fault.
type FaultRow = (NtForm, &'static [u8], u64, NtReason);

fn is_sid(sid: &Sid, row: SidRow) -> bool {
    sid.authority == row.0 && sid.words.as_slice() == row.1
}

fn is_part(sid: &Option<Sid>, row: Option<SidRow>) -> bool {
    match (sid, row) {
        (None, None) => true,
        (Some(sid), Some(row)) => is_sid(sid, row),
        _ => false,
    }
}

fn is_ace(ace: &NtAce, row: (Kind, u8, u32, SidRow)) -> bool {
    ace.kind == row.0 && ace.flags == row.1 && ace.mask == row.2 && is_sid(&ace.sid, row.3)
}

fn is_dacl(dacl: &Dacl, row: Option<&[(Kind, u8, u32, SidRow)]>) -> bool {
    match (dacl, row) {
        (Dacl::Null, None) => true,
        (Dacl::List(aces), Some(rows)) => {
            aces.len() == rows.len() && aces.iter().zip(rows).all(|(ace, row)| is_ace(ace, *row))
        }
        _ => false,
    }
}

fn is_row(descriptor: &NtDescriptor, row: &Row) -> bool {
    descriptor.control == row.control
        && is_part(&descriptor.owner, row.owner)
        && is_part(&descriptor.group, row.group)
        && is_dacl(&descriptor.dacl, row.dacl)
        && count(descriptor) == row.audits
}

fn count(descriptor: &NtDescriptor) -> Option<usize> {
    match &descriptor.sacl {
        None => None,
        Some(aces) => Some(aces.len()),
    }
}

#[test]
fn what_samba_reads_is_read_as_the_same(rt: HostRuntime) {
    let alloc = rt.alloc();
    for row in descriptors::ROWS.iter().chain(&ntacl::ROWS) {
        match read_nt(alloc, row.form, row.value) {
            Ok(descriptor) => assert!(rt; is_row(&descriptor, row)),
            Err(fault) => assert!(rt; fault.reason == NtReason::Memory),
        }
    }
}

fn is_refused(alloc: Global, form: NtForm, value: &[u8], offset: u64, reason: NtReason) -> bool {
    match read_nt(alloc, form, value) {
        Ok(_) => false,
        Err(fault) => fault == NtFault { offset, reason } || fault.reason == NtReason::Memory,
    }
}

#[test]
fn the_first_fault_is_reported(rt: HostRuntime) {
    let alloc = rt.alloc();
    for (form, value, offset, reason) in descriptors::FAULTS.into_iter().chain(ntacl::FAULTS) {
        assert!(rt;
            is_refused(alloc, form, value, offset, reason),
            "{reason:?}"
        );
    }
}

// The header alone, with a NULL DACL, with an empty one, and with none.
#[test]
fn null_empty_and_absent_are_three_outcomes(rt: HostRuntime) {
    let alloc = rt.alloc();
    let null = b"\x01\0\x04\x80\0\0\0\0\0\0\0\0\0\0\0\0\0\0\0\0";
    let empty = b"\x01\0\x04\x80\0\0\0\0\0\0\0\0\0\0\0\0\x14\0\0\0\x02\0\x08\0\0\0\0\0";
    let absent = b"\x01\0\0\x80\0\0\0\0\0\0\0\0\0\0\0\0\0\0\0\0";
    match read_nt(alloc, NtForm::Descriptor, null) {
        Ok(descriptor) => assert!(rt; matches!(&descriptor.dacl, Dacl::Null)),
        Err(fault) => assert!(rt; fault.reason == NtReason::Memory),
    }
    match read_nt(alloc, NtForm::Descriptor, empty) {
        Ok(descriptor) => assert!(rt; is_dacl(&descriptor.dacl, Some(&[]))),
        Err(fault) => assert!(rt; fault.reason == NtReason::Memory),
    }
    assert!(rt; is_refused(alloc, NtForm::Descriptor, absent, 2, NtReason::NoDacl));
}

// A descriptor whose owner is a SID, and the name of the SID: four of Samba, and two whose authority MS-DTYP, section
// 2.4.2.1, writes in hexadecimal digits.
static NAMES: [(&[u8], &str); 6] = [
    (
        b"\x01\0\x04\x80\x14\0\0\0\0\0\0\0\0\0\0\0\0\0\0\0\x01\x01\0\0\0\0\0\x05\x12\0\0\0",
        "S-1-5-18",
    ),
    (
        b"\x01\0\x04\x80\x14\0\0\0\0\0\0\0\0\0\0\0\0\0\0\0\x01\x01\0\0\0\0\0\x05\x0b\0\0\0",
        "S-1-5-11",
    ),
    (
        b"\x01\0\x04\x80\x14\0\0\0\0\0\0\0\0\0\0\0\0\0\0\0\x01\x05\0\0\0\0\0\x05\x15\0\0\0\x0b\0\0\0\x16\0\0\
        \0\x21\0\0\0\x50\x04\0\0",
        "S-1-5-21-11-22-33-1104",
    ),
    (
        b"\x01\0\x04\x80\x14\0\0\0\0\0\0\0\0\0\0\0\0\0\0\0\x01\x0f\0\0\0\0\0\x05\0\0\0\0\x43\x42\x0f\0\x86\
        \x84\x1e\0\xc9\xc6\x2d\0\x0c\x09\x3d\0\x4f\x4b\x4c\0\x92\x8d\x5b\0\xd5\xcf\x6a\0\x18\x12\x7a\0\x5b\
        \x54\x89\0\x9e\x96\x98\0\xe1\xd8\xa7\0\x24\x1b\xb7\0\x67\x5d\xc6\0\xaa\x9f\xd5\0",
        "S-1-5-0-1000003-2000006-3000009-4000012-5000015-6000018-7000021-8000024-9000027-10000030-11000033-12000036-13000039-14000042",
    ),
    (
        b"\x01\0\x04\x80\x14\0\0\0\0\0\0\0\0\0\0\0\0\0\0\0\x01\x01\0\x01\0\0\0\0\x07\0\0\0",
        "S-1-0x000100000000-7",
    ),
    (
        b"\x01\0\x04\x80\x14\0\0\0\0\0\0\0\0\0\0\0\0\0\0\0\x01\x01\x0a\x0b\x0c\x0d\x0e\xff\xff\xff\xff\xff",
        "S-1-0x0a0b0c0d0eff-4294967295",
    ),
];

// Returns whether the owner of a descriptor has this name, unless memory runs out.
fn is_owner_named(alloc: Global, value: &[u8], name: &str) -> bool {
    match read_nt(alloc, NtForm::Descriptor, value) {
        Ok(descriptor) => is_part_named(alloc, &descriptor.owner, name),
        Err(fault) => fault.reason == NtReason::Memory,
    }
}

fn is_part_named(alloc: Global, part: &Option<Sid>, name: &str) -> bool {
    match part {
        None => false,
        Some(sid) => match sid.name(alloc) {
            Ok(found) => found.as_slice() == name.as_bytes(),
            Err(_) => true,
        },
    }
}

#[test]
fn owners_have_their_names(rt: HostRuntime) {
    let alloc = rt.alloc();
    for (value, name) in NAMES {
        assert!(rt; is_owner_named(alloc, value, name), "{name}");
    }
}

// With ample memory, each value is read, in part too, or refused for its fault, and each owner has a name.
mod ample {
    use super::*;

    fn is_read(alloc: Global, row: &Row) -> bool {
        match read_nt(alloc, row.form, row.value) {
            Ok(descriptor) => is_row(&descriptor, row),
            Err(_) => false,
        }
    }

    #[test]
    fn each_value_is_read(rt: HostRuntime) {
        let alloc = rt.alloc();
        for row in descriptors::ROWS.iter().chain(&ntacl::ROWS) {
            assert!(rt; is_read(alloc, row));
        }
    }

    fn has_fault(alloc: Global, form: NtForm, value: &[u8], wrong: NtFault) -> bool {
        match read_nt(alloc, form, value) {
            Ok(_) => false,
            Err(fault) => fault == wrong,
        }
    }

    #[test]
    fn each_wrong_value_is_refused(rt: HostRuntime) {
        let alloc = rt.alloc();
        for (form, value, offset, reason) in descriptors::FAULTS.into_iter().chain(ntacl::FAULTS) {
            assert!(rt; has_fault(alloc, form, value, NtFault { offset, reason }));
        }
    }

    fn is_part_read(alloc: Global, row: &Row) -> bool {
        match read_nt_part(alloc, row.form, row.value) {
            Ok(part) => is_row(&part.descriptor, row) && part.left_out.is_empty(),
            Err(_) => false,
        }
    }

    #[test]
    fn each_value_is_read_in_part(rt: HostRuntime) {
        let alloc = rt.alloc();
        for row in descriptors::ROWS.iter().chain(&ntacl::ROWS) {
            assert!(rt; is_part_read(alloc, row));
        }
    }

    fn has_name(alloc: Global, value: &[u8]) -> bool {
        match read_nt(alloc, NtForm::Descriptor, value) {
            Ok(descriptor) => is_named(alloc, &descriptor.owner),
            Err(_) => false,
        }
    }

    fn is_named(alloc: Global, owner: &Option<Sid>) -> bool {
        match owner {
            Some(sid) => sid.name(alloc).is_ok(),
            None => false,
        }
    }

    #[test]
    fn each_owner_has_a_name(rt: HostRuntime) {
        let alloc = rt.alloc();
        for (value, _) in NAMES {
            assert!(rt; has_name(alloc, value));
        }
    }
}
