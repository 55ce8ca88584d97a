//! Texts in their three forms (acl(5), "LONG TEXT FORM" and "SHORT TEXT FORM", and getfacl(1) for the comments): a text
//! that is read is written again, and each write fails in turn.

use super::samples::{
    CANONICAL, LISTED, LISTED_CANONICAL, LISTED_SHORT, SHORT, SHOWN, TWO_MASKS, TWO_MASKS_SHOWN,
    write,
};
use acl_perm::Counted;
use acl_posix::*;

/// Each text is read and written again in a form.
pub static TEXTS: [(&[u8], AclTextForm, &[u8]); 13] = [
    (SHORT, AclTextForm::Canonical, CANONICAL),
    (SHORT, AclTextForm::Shown, SHOWN),
    (SHORT, AclTextForm::Short, SHORT),
    (CANONICAL, AclTextForm::Short, SHORT),
    (SHOWN, AclTextForm::Canonical, CANONICAL),
    (LISTED, AclTextForm::Canonical, LISTED_CANONICAL),
    (LISTED, AclTextForm::Short, LISTED_SHORT),
    (LISTED_SHORT, AclTextForm::Canonical, LISTED_CANONICAL),
    (TWO_MASKS, AclTextForm::Shown, TWO_MASKS_SHOWN),
    (TWO_MASKS_SHOWN, AclTextForm::Shown, TWO_MASKS_SHOWN),
    (
        b"o::r--,m:\t:r , g : staff ops :wr,g::r,user: 01001:rw#,\nuser::wr",
        AclTextForm::Short,
        SHORT,
    ),
    (
        b"u::,g::-----,o::-x-r-w",
        AclTextForm::Short,
        b"u::---,g::---,o::rwx",
    ),
    (
        b"u:4294967294:,u::,g::,m::,o::",
        AclTextForm::Short,
        b"u::---,u:4294967294:---,g::---,m::---,o::---",
    ),
];

// Writes into a buffer of n bytes: the fault reports n, and the buffer holds the first n bytes of the text.
fn is_cut(file: &PosixFile, form: AclTextForm, text: &[u8], size: usize) -> bool {
    let mut room = [0u8; 128];
    let (part, _) = room.split_at_mut(size.min(128));
    let (front, _) = text.split_at(size.min(text.len()));
    write(file, form, part) == (size, Some(size as u64)) && room.starts_with(front)
}

#[test]
fn a_write_that_fails_reports_how_many_bytes_it_wrote(rt: HostRuntime) {
    let names = Names::new(rt.alloc());
    let file = match parse(rt.alloc(), SHORT, &names) {
        Ok(file) => file,
        Err(fault) => {
            assert!(rt; fault == TextFault::Memory);
            return;
        }
    };
    for (form, text) in [
        (AclTextForm::Canonical, CANONICAL),
        (AclTextForm::Shown, SHOWN),
        (AclTextForm::Short, SHORT),
    ] {
        for size in 0..text.len() {
            assert!(rt; is_cut(&file, form, text, size));
        }
    }
}

// Returns how many bytes the three texts of an ACL have.
fn written_thrice(acl: &PosixAcl, room: &mut [u8]) -> Option<usize> {
    let size = room.len();
    let mut sink = Counted::new(room);
    let is_written = acl.write_canonical(&mut sink).is_ok()
        && acl.write_shown(&mut sink).is_ok()
        && acl.write_short(&mut sink).is_ok();
    let left = sink.into_inner().len();
    is_written.then_some(size.saturating_sub(left))
}

// An ACL has the texts of a file with this access ACL and without a default ACL.
#[test]
fn an_acl_is_written_as_a_file_without_a_default_acl(rt: HostRuntime) {
    let names = Names::new(rt.alloc());
    let file = match parse(rt.alloc(), SHORT, &names) {
        Ok(file) => file,
        Err(fault) => {
            assert!(rt; fault == TextFault::Memory);
            return;
        }
    };
    let written = written_thrice(&file.access, &mut [0u8; 256]);
    assert!(rt; written == Some(CANONICAL.len() + SHOWN.len() + SHORT.len()));
}
