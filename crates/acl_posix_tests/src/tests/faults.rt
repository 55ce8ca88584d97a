//! The first fault of a text, and texts of great length. The faults and their places are this library's own, as
//! docs/reference/formats.md states them ("Faults of POSIX texts").

use super::samples::{holds, write};
use acl_posix::*;
use std::alloc::{AllocError, Global};

/// Returns whether a text is refused with this fault.
pub fn is_refused(alloc: Global, names: &Names, text: &[u8], wanted: TextFault) -> bool {
    parse(alloc, text, names).err() == Some(wanted)
}

/// Each of these texts is refused with its fault.
pub const FAULTS: [(&[u8], TextFault); 30] = [
    (
        b"u::rw-,u:7:r--,g::r--,o::---",
        TextFault::Invalid(Part::Access, Cause::Miss(Tag::Mask)),
    ),
    (
        b"u::rw-,g::r--,m::r--,m::r--,o::---",
        TextFault::Invalid(Part::Access, Cause::Multi(3)),
    ),
    (
        b"u::rw-,u:7:r--,u:007:r--,g::r--,m::r--,o::---",
        TextFault::Invalid(Part::Access, Cause::Duplicate(2)),
    ),
    (
        b"u::rw-,u:1002:r--,u:bob:r--,g::r--,m::r--,o::---",
        TextFault::Invalid(Part::Access, Cause::Duplicate(2)),
    ),
    (
        b"",
        TextFault::Invalid(Part::Access, Cause::Miss(Tag::UserObj)),
    ),
    (
        b"d:u::rwx",
        TextFault::Invalid(Part::Access, Cause::Miss(Tag::UserObj)),
    ),
    (
        b"d:g::,u::,d:g::,g::,o::",
        TextFault::Invalid(Part::Default, Cause::Multi(1)),
    ),
    (
        b"d:g::,u::,d:g::,g::",
        TextFault::Invalid(Part::Access, Cause::Miss(Tag::Other)),
    ),
    (b"u:4294967295:r--", TextFault::Id { line: 1, column: 3 }),
    (
        b"u: 99999999999999999999999 :rr",
        TextFault::Id { line: 1, column: 4 },
    ),
    (
        b"u::rw-,,o::r--",
        TextFault::EmptyEntry { line: 1, column: 8 },
    ),
    (
        b"user::rw-\n\n  g::-- , ",
        TextFault::EmptyEntry {
            line: 3,
            column: 11,
        },
    ),
    (b"u::r, # x", TextFault::EmptyEntry { line: 1, column: 7 }),
    (b"m:r--", TextFault::Fields { line: 1, column: 1 }),
    (b"d", TextFault::Fields { line: 1, column: 1 }),
    (b" d::", TextFault::Fields { line: 1, column: 2 }),
    (b"u:::r", TextFault::Fields { line: 1, column: 1 }),
    (b"other:5:r--", TextFault::Qualifier { line: 1, column: 7 }),
    (b"u::rr", TextFault::Permission { line: 1, column: 4 }),
    (b"u::r w", TextFault::Permission { line: 1, column: 4 }),
    (b"u::rw-\r\n", TextFault::Permission { line: 1, column: 4 }),
    (b"x::rr", TextFault::Tag { line: 1, column: 1 }),
    (b"\xff::r", TextFault::Tag { line: 1, column: 1 }),
    (b"User::r", TextFault::Tag { line: 1, column: 1 }),
    (b"d:::r", TextFault::Tag { line: 1, column: 3 }),
    (b"d:d::r", TextFault::Tag { line: 1, column: 3 }),
    (b"u::r\nd: x ::r", TextFault::Tag { line: 2, column: 4 }),
    (
        b"#\n\ng:bob:r",
        TextFault::UnknownName { line: 3, column: 3 },
    ),
    (
        b"u:staff ops:r",
        TextFault::UnknownName { line: 1, column: 3 },
    ),
    (b"u:\xff:r", TextFault::UnknownName { line: 1, column: 3 }),
];

/// The message of each cause of an invalid text.
pub const MESSAGES: [(TextFault, &str); 3] = [
    (
        TextFault::Invalid(Part::Access, Cause::Multi(3)),
        "Invalid access: Multi at entry 3",
    ),
    (
        TextFault::Invalid(Part::Default, Cause::Duplicate(2)),
        "Invalid default: Duplicate at entry 2",
    ),
    (
        TextFault::Invalid(Part::Access, Cause::Miss(Tag::Mask)),
        "Invalid access: Miss MASK",
    ),
];

/// Returns whether a fault has this message.
pub fn is_shown(alloc: Global, fault: TextFault, message: &str) -> bool {
    match fault.to_string(alloc) {
        Ok(text) => text.as_str() == message,
        Err(_) => false,
    }
}

/// Returns whether a fault of a text of twelve lines is in one of the lines, or is an invalid list.
pub fn is_judged(fault: Option<TextFault>) -> bool {
    match fault {
        None | Some(TextFault::Invalid(..)) => true,
        Some(
            TextFault::Fields { line, .. }
            | TextFault::Tag { line, .. }
            | TextFault::Qualifier { line, .. }
            | TextFault::Id { line, .. }
            | TextFault::UnknownName { line, .. }
            | TextFault::Permission { line, .. }
            | TextFault::EmptyEntry { line, .. },
        ) => line <= 12,
        Some(TextFault::Memory) => false,
    }
}

// Makes a text that repeats one byte this many times.
fn repeated(
    alloc: Global,
    before: &[u8],
    byte: u8,
    count: usize,
    after: &[u8],
) -> Result<Vec<u8>, AllocError> {
    let part = [byte].repeat(alloc, count)?;
    [before, &part, after].concat(alloc)
}

/// Returns whether a text that repeats a byte this many times is refused with this fault.
pub fn is_refused_repeated(
    alloc: Global,
    before: &[u8],
    byte: u8,
    count: usize,
    after: &[u8],
    wanted: TextFault,
) -> bool {
    let names = Names::new(alloc);
    match repeated(alloc, before, byte, count, after) {
        Ok(text) => is_refused(alloc, &names, &text, wanted),
        Err(_) => false,
    }
}

/// Returns whether an id that begins with a thousand zeros is read as the id without them.
pub fn zeros_are_read(alloc: Global) -> bool {
    let names = Names::new(alloc);
    let after = b"7:rw-,g::r--,g:50:rw-,m::r--,o::r--".as_slice();
    match repeated(alloc, b"u::rw-,u:", b'0', 1000, after) {
        Ok(text) => {
            let mut room = [0u8; 64];
            match parse(alloc, &text, &names) {
                Ok(file) => {
                    let (size, _) = write(&file, AclTextForm::Short, &mut room);
                    size == ZEROS_READ.len() && holds(&room, ZEROS_READ)
                }
                Err(_) => false,
            }
        }
        Err(_) => false,
    }
}

const ZEROS_READ: &[u8] = b"u::rw-,u:7:rw-,g::r--,g:50:rw-,m::r--,o::r--";
