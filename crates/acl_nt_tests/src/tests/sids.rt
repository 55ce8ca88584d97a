//! SIDs by their own bytes, with the names that Samba 4.22 gives them.

use acl_nt::*;
use std::alloc::Global;

static ROWS: [(&[u8], &str); 7] = [
    (b"\x01\x01\0\0\0\0\0\x05\x12\0\0\0", "S-1-5-18"),
    (
        b"\x01\x02\0\0\0\0\0\x05\x20\0\0\0\x21\x02\0\0",
        "S-1-5-32-545",
    ),
    (
        b"\x01\x03\0\0\0\0\0\x05X\0\0\0\x03\0\0\0\xa4\x81\0\0",
        "S-1-5-88-3-33188",
    ),
    (
        b"\x01\x04\0\0\0\0\0\x01\x21\xca\xcfy\x14G\x22\x33\xae\xf7N\xaf\xc3\x89\xf4\x16",
        "S-1-1-2043660833-857884436-2941188014-385124803",
    ),
    (
        b"\x01\x05\0\0\0\0\0\x05\x15\0\0\0\x0b\0\0\0\x16\0\0\0\x21\0\0\0P\x04\0\0",
        "S-1-5-21-11-22-33-1104",
    ),
    (
        b"\x01\x06\0\0\0\0\0\x05\xda\xcb\x30\x94\x3d\xffN\x60\xbf\xa8\xebbiz\xf4\xc4\x80L\xe5\xc3v\xees\x83",
        "S-1-5-2486225882-1615789885-1659611327-3304356457-3286584448-2205412982",
    ),
    (
        b"\x01\x07\0\0\0\0\0\x16a\xf5\x01\x31\x1b\x2bm\xce\xfbrV\x24\x95\x9e\x1e\xae\xc9\xd2\xf8\x24\xa2\xfd\
        \x3b\x25t\xcb\xc7\x16",
        "S-1-22-822211937-3463260955-609645307-2921242261-620286665-624688546-382192500",
    ),
];

// Returns whether the bytes are the SID of this name, unless memory runs out.
fn is_named(alloc: Global, bytes: &[u8], name: &str) -> bool {
    match Sid::from_bytes(bytes) {
        Some(sid) => match sid.name(alloc) {
            Ok(found) => found.as_slice() == name.as_bytes(),
            Err(_) => true,
        },
        None => false,
    }
}

#[test]
fn bytes_are_the_sids_that_samba_reads(rt: HostRuntime) {
    let alloc = rt.alloc();
    for (bytes, name) in ROWS {
        assert!(rt; is_named(alloc, bytes, name), "{name}");
    }
}

// No byte, a header that is cut short, the revision 2, a sub-authority that is cut short, a byte after the last one, and
// sixteen sub-authorities (MS-DTYP, section 2.4.2.2).
static REFUSED: [&[u8]; 6] = [
    b"",
    b"\x01\0\0\0\0\0\0",
    b"\x02\0\0\0\0\0\0\x05",
    b"\x01\x01\0\0\0\0\0\x05\x12\0\0",
    b"\x01\x01\0\0\0\0\0\x05\x12\0\0\0\0",
    b"\x01\x10\0\0\0\0\0\x05\0\0\0\0\0\0\0\0\0\0\0\0\0\0\0\0\0\0\0\0\0\0\0\0\0\0\0\0\0\0\0\0\0\0\0\0\0\0\0\
    \0\0\0\0\0\0\0\0\0\0\0\0\0\0\0\0\0\0\0\0\0\0\0\0\0",
];

#[test]
fn other_bytes_are_no_sid(rt: HostRuntime) {
    for bytes in REFUSED {
        assert!(rt; Sid::from_bytes(bytes).is_none());
    }
}
