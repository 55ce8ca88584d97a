//! The numbers and the names of the sixteen rights.
ghost use Rattle.std.specs.Prelude.{◌≡◌};
ghost use Rattle.acl_perm.specs.Names.{rights};
ghost use Rattle.acl_perm.specs.internal.NameTable.{bit_names_of};

use crate::bit_names::BitName;
use crate::mask::Mask;

// A row of the table: the constant of a right, which is also the name of its bit, and its second name if it has two.
macro_rules! row {
    ($name:ident $(, $second:ident)?) => {
        BitName {
            bit: Mask::$name.bits,
            name: stringify!($name),
            second: second!($($second)?),
        }
    };
}

macro_rules! second {
    () => {
        None
    };
    ($name:ident) => {
        Some(stringify!($name))
    };
}

/// The rights in ascending order of their bits, with their names in RFC 8881, section 6.2.1.3.1, without `ACE4_`. A
/// right that has another name at directories has it as its second name.
pub static RIGHTS: [BitName; 16] = [
    row!(READ_DATA, LIST_DIRECTORY),
    row!(WRITE_DATA, ADD_FILE),
    row!(APPEND_DATA, ADD_SUBDIRECTORY),
    row!(READ_NAMED_ATTRS),
    row!(WRITE_NAMED_ATTRS),
    row!(EXECUTE),
    row!(DELETE_CHILD),
    row!(READ_ATTRIBUTES),
    row!(WRITE_ATTRIBUTES),
    row!(WRITE_RETENTION),
    row!(WRITE_RETENTION_HOLD),
    row!(DELETE),
    row!(READ_ACL),
    row!(WRITE_ACL),
    row!(WRITE_OWNER),
    row!(SYNCHRONIZE),
];

// Returns the table, so that a clause can give its rows.
fn table() -> &'static [BitName]
    ensures { bit_names_of result.now ≡ rights }
{
    &RIGHTS
}
