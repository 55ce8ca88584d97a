//! Tables of letters that stand for flags or rights, and fields of such letters.
ghost use Rattle.std.specs.Prelude.{◌≡◌, ◌==◌, [], find, option_copied};
ghost use Rattle.acl_perm.specs.Lines.{span_of, ColumnsFit};
ghost use Rattle.acl_forms.specs.Letters.{flag_letters, letter_bits, nfs_flag_letters, nfs_right_letters, right_letters, set_of_letters, single_letters};
ghost use Rattle.acl_forms.specs.ReadFaults.{read_fault_at};

use crate::fault::{ReadFault, ReadReason};
use crate::object::ObjectKind;
use acl_perm::internal::Piece;
use acl_perm::{Flags, Mask};

/// A letter, the bits that it stands for on directories, and those on files: no bits if it has no meaning there.
#[derive(Clone, Copy)]
pub(crate) struct Letter {
    pub letter: u8,
    pub bits: u32,
    pub on_files: u32,
}

// A letter that stands for the same set on files and on directories.
macro_rules! both {
    ($letter:literal, $set:expr) => {
        Letter {
            letter: $letter,
            bits: $set.bits as u32,
            on_files: $set.bits as u32,
        }
    };
}

// A letter that has no meaning on files.
macro_rules! directory {
    ($letter:literal, $set:expr) => {
        Letter {
            letter: $letter,
            bits: $set.bits as u32,
            on_files: 0,
        }
    };
}

// The rights for which the letters `rntcy` stand.
const READING: Mask = Mask {
    bits: Mask::READ_DATA.bits
        | Mask::READ_NAMED_ATTRS.bits
        | Mask::READ_ATTRIBUTES.bits
        | Mask::READ_ACL.bits
        | Mask::SYNCHRONIZE.bits,
};

// The rights for which the letters `watTNcCy` stand.
const WRITING: Mask = Mask {
    bits: Mask::WRITE_DATA.bits
        | Mask::APPEND_DATA.bits
        | Mask::READ_ATTRIBUTES.bits
        | Mask::WRITE_ATTRIBUTES.bits
        | Mask::WRITE_NAMED_ATTRS.bits
        | Mask::READ_ACL.bits
        | Mask::WRITE_ACL.bits
        | Mask::SYNCHRONIZE.bits,
};

// The rights for which the letters `xtcy` stand.
const EXECUTING: Mask = Mask {
    bits: Mask::EXECUTE.bits
        | Mask::READ_ATTRIBUTES.bits
        | Mask::READ_ACL.bits
        | Mask::SYNCHRONIZE.bits,
};

/// The letters of flags, in the order in which nfs4_getfacl prints them.
pub(crate) static FLAG_LETTERS: [Letter; 8] = [
    directory!(b'f', Flags::FILE_INHERIT),
    directory!(b'd', Flags::DIRECTORY_INHERIT),
    directory!(b'n', Flags::NO_PROPAGATE_INHERIT),
    directory!(b'i', Flags::INHERIT_ONLY),
    both!(b'S', Flags::SUCCESSFUL_ACCESS),
    both!(b'F', Flags::FAILED_ACCESS),
    both!(b'g', Flags::IDENTIFIER_GROUP),
    both!(b'I', Flags::INHERITED),
];

/// The letters of rights, in the order in which nfs4_getfacl prints them, and then the three that stand for several
/// rights.
pub(crate) static RIGHT_LETTERS: [Letter; 17] = [
    both!(b'r', Mask::READ_DATA),
    both!(b'w', Mask::WRITE_DATA),
    both!(b'a', Mask::APPEND_DATA),
    directory!(b'D', Mask::DELETE_CHILD),
    both!(b'd', Mask::DELETE),
    both!(b'x', Mask::EXECUTE),
    both!(b't', Mask::READ_ATTRIBUTES),
    both!(b'T', Mask::WRITE_ATTRIBUTES),
    both!(b'n', Mask::READ_NAMED_ATTRS),
    both!(b'N', Mask::WRITE_NAMED_ATTRS),
    both!(b'c', Mask::READ_ACL),
    both!(b'C', Mask::WRITE_ACL),
    both!(b'o', Mask::WRITE_OWNER),
    both!(b'y', Mask::SYNCHRONIZE),
    both!(b'R', READING),
    Letter {
        letter: b'W',
        bits: WRITING.bits | Mask::DELETE_CHILD.bits,
        on_files: WRITING.bits,
    },
    both!(b'X', EXECUTING),
];

/// The letters of flags, in the order in which FreeBSD and libarchive print them, and `-`, which stands for none.
pub(crate) static NFS_FLAG_LETTERS: [Letter; 8] = [
    both!(b'f', Flags::FILE_INHERIT),
    both!(b'd', Flags::DIRECTORY_INHERIT),
    both!(b'i', Flags::INHERIT_ONLY),
    both!(b'n', Flags::NO_PROPAGATE_INHERIT),
    both!(b'S', Flags::SUCCESSFUL_ACCESS),
    both!(b'F', Flags::FAILED_ACCESS),
    both!(b'I', Flags::INHERITED),
    both!(b'-', Flags::NONE),
];

/// The letters of rights, in the order in which libarchive prints them, and `-`, which stands for none.
pub(crate) static NFS_RIGHT_LETTERS: [Letter; 15] = [
    both!(b'r', Mask::READ_DATA),
    both!(b'w', Mask::WRITE_DATA),
    both!(b'x', Mask::EXECUTE),
    both!(b'p', Mask::APPEND_DATA),
    both!(b'd', Mask::DELETE),
    both!(b'D', Mask::DELETE_CHILD),
    both!(b'a', Mask::READ_ATTRIBUTES),
    both!(b'A', Mask::WRITE_ATTRIBUTES),
    both!(b'R', Mask::READ_NAMED_ATTRS),
    both!(b'W', Mask::WRITE_NAMED_ATTRS),
    both!(b'c', Mask::READ_ACL),
    both!(b'C', Mask::WRITE_ACL),
    both!(b'o', Mask::WRITE_OWNER),
    both!(b's', Mask::SYNCHRONIZE),
    both!(b'-', Mask::NONE),
];

// Returns the table, so that a clause can give its rows.
fn flag_letters() -> &'static [Letter]
    ensures { result.now ≡ flag_letters }
{
    &FLAG_LETTERS
}

/// Returns the letters of single rights, in the order in which they are printed.
pub(crate) fn single_letters() -> &'static [Letter]
    ensures { result.now ≡ single_letters [] }
{
    &RIGHT_LETTERS[..14]
}

// Returns the table, so that a clause can give its rows.
fn right_letters() -> &'static [Letter]
    ensures { result.now ≡ right_letters }
{
    &RIGHT_LETTERS
}

/// Returns the letters of flags of FreeBSD, in the order in which they are printed.
pub(crate) fn nfs_flag_letters() -> &'static [Letter]
    ensures { result.now ≡ nfs_flag_letters [] }
{
    &NFS_FLAG_LETTERS[..7]
}

/// Returns the letters of rights of FreeBSD, in the order in which they are printed.
pub(crate) fn nfs_right_letters() -> &'static [Letter]
    ensures { result.now ≡ nfs_right_letters [] }
{
    &NFS_RIGHT_LETTERS[..14]
}

/// Returns the bits for which the letters of a field stand, or the first letter that the table does not have for the
/// object. The set is a number, since the table may be that of the flags or that of the rights.
pub(crate) fn read_letters(
    table: &[Letter],
    object: ObjectKind,
    wrong: ReadReason,
    field: Piece<'_>,
) -> Result<u32, ReadFault>
    requires { ColumnsFit field }
    ensures { result ≡ set_of_letters table.now object wrong field.entry.column
        field.entry.bytes.now }
{
    let mut set = 0;
    let mut at = field.column;
    for letter in field.bytes {
        set |= letter_bits(table, object, wrong, at, *letter)?;
        at += 1;
    }
    Ok(set)
}

// Returns the bits for which a letter stands, or why it is refused here.
fn letter_bits(
    table: &[Letter],
    object: ObjectKind,
    wrong: ReadReason,
    at: usize,
    letter: u8,
) -> Result<u32, ReadFault>
    ensures { result ≡ letter_bits table.now object wrong at letter }
{
    let Some(row) = row_of(table, letter) else {
        return Err(ReadFault::new(at, wrong));
    };
    match object {
        ObjectKind::Directory => Ok(row.bits),
        ObjectKind::File if row.on_files == 0 => Err(ReadFault::new(at, ReadReason::NotDirectory)),
        ObjectKind::File => Ok(row.on_files),
    }
}

fn row_of(table: &[Letter], letter: u8) -> Option<&Letter>
    ensures { option_copied result ≡ find (λ row. row.letter == letter) table.now }
{
    table.iter().find(|row| row.letter == letter)
}
