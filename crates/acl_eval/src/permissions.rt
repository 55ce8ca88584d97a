//! Read, write and execute, and the rights of each. The mode uses them in one direction, the bridge in the other.

use acl_perm::{Mask, Perm};

pub const READ: Perm = Perm { bits: 4 };

pub const WRITE: Perm = Perm { bits: 2 };

pub const EXECUTE: Perm = Perm { bits: 1 };

/// The rights of write: to change existing data, and to append data.
pub const WRITE_RIGHTS: Mask = Mask {
    bits: Mask::WRITE_DATA.bits | Mask::APPEND_DATA.bits,
};
