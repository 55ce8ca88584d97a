//! Texts of worked examples in the forms of acl(5), "LONG TEXT FORM" and "SHORT TEXT FORM", with their names, and
//! functions that write and compare texts.

use acl_perm::Counted;
use acl_posix::*;
use std::alloc::Global;

/// A list in the short form.
pub const SHORT: &[u8] = b"u::rw-,u:1001:rw-,g::r--,g:50:rw-,m::r--,o::r--";

/// The canonical text of `SHORT`.
pub const CANONICAL: &[u8] =
    b"user::rw-\nuser:1001:rw-\ngroup::r--\ngroup:50:rw-\nmask::r--\nother::r--\n";

/// The shown text of `SHORT`.
pub const SHOWN: &[u8] =
    b"user::rw-\nuser:1001:rw-\t#effective:r--\ngroup::r--\ngroup:50:rw-\t#effective:r--\nmask::r--\nother::r--\n";

/// The output of getfacl for a directory (getfacl(1)).
pub const LISTED: &[u8] =
    b"# file: reports\n# owner: alice\n# group: staff\nuser::rw-\nuser:bob:rwx\t#effective:r--\ngroup::r--\n\
    mask::r--\nother::---\ndefault:user::rwx\ndefault:group::r-x\ndefault:other::---\n\n";

/// The canonical text of `LISTED`.
pub const LISTED_CANONICAL: &[u8] =
    b"user::rw-\nuser:1002:rwx\ngroup::r--\nmask::r--\nother::---\ndefault:user::rwx\ndefault:group::r-x\n\
    default:other::---\n";

/// The short text of `LISTED`.
pub const LISTED_SHORT: &[u8] =
    b"u::rw-,u:1002:rwx,g::r--,m::r--,o::---,d:u::rwx,d:g::r-x,d:o::---";

/// A list whose default part has its own mask, in no order.
pub const TWO_MASKS: &[u8] =
    b"u::rwx,g::rwx,m::rwx,o::---,d:g:7:rwx,d:u::rwx,d:m::-w-,d:g::r-x,d:o::---";

/// The shown text of `TWO_MASKS`.
pub const TWO_MASKS_SHOWN: &[u8] =
    b"user::rwx\ngroup::rwx\nmask::rwx\nother::---\ndefault:user::rwx\ndefault:group::r-x\t#effective:---\n\
    default:group:7:rwx\t#effective:-w-\ndefault:mask::-w-\ndefault:other::---\n";

// Adds the names in the texts.
fn add_both(names: &mut Names) -> Result<(), NameFault> {
    names.add_user(b"bob", Id { value: 1002 })?;
    names.add_group(b"staff ops", Id { value: 50 })
}

/// Makes the table of the names in the texts.
pub fn names_of(alloc: Global) -> Option<Names> {
    let mut names = Names::new(alloc);
    match add_both(&mut names) {
        Ok(()) => Some(names),
        Err(_) => None,
    }
}

/// Writes a text into a buffer, and returns how many bytes were written and the result of the call.
pub fn write(file: &PosixFile, form: AclTextForm, room: &mut [u8]) -> (usize, Option<u64>) {
    let size = room.len();
    let mut sink = Counted::new(room);
    let answer = file.write(&mut sink, form);
    let left = sink.into_inner().len();
    (
        size.saturating_sub(left),
        answer.err().map(|fault| fault.written),
    )
}

/// Returns whether a buffer begins with the text and has only zeros after it.
pub fn holds(room: &[u8], text: &[u8]) -> bool {
    room.starts_with(text) && room.iter().skip(text.len()).all(|byte| *byte == 0)
}

/// Returns whether a file has this text in a form.
pub fn is_written(file: &PosixFile, form: AclTextForm, wanted: &[u8]) -> bool {
    let mut room = [0u8; 512];
    let (size, fault) = write(file, form, &mut room);
    fault.is_none() && size == wanted.len() && holds(&room, wanted)
}

/// Returns whether a text is read, and its file has this text in a form.
pub fn is_read(
    alloc: Global,
    names: &Names,
    text: &[u8],
    form: AclTextForm,
    wanted: &[u8],
) -> bool {
    match parse(alloc, text, names) {
        Ok(file) => is_written(&file, form, wanted),
        Err(_) => false,
    }
}
