//! Values of forms. The texts are those of nfs4_setfacl(1) and of libarchive 3.6.2, and the bytes are in the layout of
//! RFC 4506; the flags of a list are those of RFC 8881, section 6.2.2.
use crate::tests::{BAD_ARGUMENT, DONE, LIST, REFUSED, SHORT, no_fault};
use crate::{Refusal, aclck_read_form, aclck_write_form};
use std::alloc::Global;

const FILE: u32 = 1;

const DIRECTORY: u32 = 2;

const ACL41: u32 = 3;

const ACL41_IDS: u32 = 4;

const TEXT: u32 = 5;

const TEXT_IDS: u32 = 6;

const COMMAS: u32 = 16;

const FULL: u32 = 32;

// The list of bob with the flag PROTECTED, as the attribute dacl has it.
const DACL: &[u8; 28] = b"\0\0\0\x02\0\0\0\x01\0\0\0\0\0\0\0\0\0\0\0\x01\0\0\0\x03bob\0";

// Returns the status of `aclck_read_form` with room for `LIST`, the bytes, their number and the flags.
fn read(
    alloc: Global,
    value: &[u8],
    form: u32,
    fault: &mut Refusal,
) -> (u32, [u8; 24], usize, u32) {
    let mut out = [7u8; 24];
    let mut needed = 9;
    let mut flags = 77;
    let status = aclck_read_form(alloc, value, form, &mut out, &mut needed, &mut flags, fault);
    (status, out, needed, flags)
}

// A form, a value, the status and the flags.
static VALUES: [(u32, &[u8], u32, u32); 11] = [
    (FILE, b"A::bob:r\n", DONE, 0),
    (DIRECTORY, b"A::bob:r", DONE, 0),
    (ACL41, DACL, DONE, 2),
    (ACL41_IDS, DACL, REFUSED, 77),
    (FILE, DACL, REFUSED, 77),
    (TEXT, b"user:bob:r::allow:1001", DONE, 0),
    (TEXT + COMMAS + FULL, b"user:bob:r::allow\n", DONE, 0),
    (TEXT_IDS + COMMAS, b"user:bob:r::allow", DONE, 0),
    (0, DACL, BAD_ARGUMENT, 77),
    (7, DACL, BAD_ARGUMENT, 77),
    (ACL41 + COMMAS, DACL, BAD_ARGUMENT, 77),
];

#[test]
fn a_value_is_read_in_its_form(rt: HostRuntime) {
    for (form, value, expected, bits) in VALUES {
        let mut fault = no_fault();
        let (status, out, needed, flags) = read(rt.alloc(), value, form, &mut fault);
        assert!(rt; status == expected);
        assert!(rt; flags == bits);
        assert!(rt; needed == (if expected == DONE { 24 } else { 9 }));
        assert!(rt; (out == *LIST) == (expected == DONE));
        assert!(rt; (fault.reason != 0) == (expected == REFUSED));
    }
}

// A form, a value, and the reason and the offset of its fault.
static BAD_VALUES: [(u32, &[u8], u32, u64); 7] = [
    (FILE, b"A:f:bob:r", 35, 2),
    (DIRECTORY, b"A:f:bob:r\nD::", 16, 10),
    (DIRECTORY, b"\n", 36, 1),
    (ACL41, b"\0\0\0\x08", 33, 0),
    (ACL41_IDS, b"\0\0\0\x02\0\0\0", 1, 4),
    (TEXT, b"user:7:r::allow:8", 37, 16),
    (TEXT_IDS, b"user:bob:r::allow#,", 38, 18),
];

#[test]
fn a_value_is_refused_at_its_byte(rt: HostRuntime) {
    for (form, value, reason, offset) in BAD_VALUES {
        let mut fault = no_fault();
        let (status, _, _, _) = read(rt.alloc(), value, form, &mut fault);
        assert!(rt; status == REFUSED);
        assert!(rt; fault.reason == reason);
        assert!(rt; fault.offset == offset);
        assert!(rt; (fault.line, fault.column, fault.list, fault.tag) == (0, 0, 0, 0));
    }
}

#[test]
fn a_short_buffer_for_a_list_has_its_flags(rt: HostRuntime) {
    let mut fault = no_fault();
    let mut out = [7u8; 23];
    let mut needed = 0;
    let mut flags = 77;
    let status = aclck_read_form(
        rt.alloc(),
        DACL,
        ACL41,
        &mut out,
        &mut needed,
        &mut flags,
        &mut fault,
    );
    assert!(rt; (status, needed, flags) == (SHORT, 24, 2));
    assert!(rt; out == [7u8; 23]);
}

// A form, the flags, the status, the value and the reason of a fault.
static WRITTEN: [(u32, u32, u32, &[u8], u32); 12] = [
    (FILE, 0, DONE, b"A::bob:r\n", 0),
    (DIRECTORY, 0, DONE, b"A::bob:r\n", 0),
    (ACL41, 2, DONE, DACL, 0),
    (FILE, 2, REFUSED, b"", 45),
    (ACL41_IDS, 2, REFUSED, b"", 41),
    (ACL41, 8, BAD_ARGUMENT, b"", 0),
    (FILE, 8, BAD_ARGUMENT, b"", 0),
    (TEXT, 0, DONE, b"user:bob:r::allow\n", 0),
    (TEXT_IDS + COMMAS, 0, DONE, b"user:bob:r::allow", 0),
    (
        TEXT + COMMAS + FULL,
        0,
        DONE,
        b"user:bob:r-------------:-------:allow",
        0,
    ),
    (TEXT, 1, REFUSED, b"", 45),
    (7, 0, BAD_ARGUMENT, b"", 0),
];

#[test]
fn a_list_is_written_in_a_form_that_holds_it(rt: HostRuntime) {
    for (form, flags, expected, value, reason) in WRITTEN {
        let mut fault = no_fault();
        let mut out = [7u8; 37];
        let mut needed = 0;
        let status = aclck_write_form(
            rt.alloc(),
            LIST,
            form,
            flags,
            &mut out,
            &mut needed,
            &mut fault,
        );
        assert!(rt; status == expected);
        assert!(rt; needed == value.len());
        assert!(rt; out.starts_with(value));
        assert!(rt; fault.reason == reason);
    }
}
