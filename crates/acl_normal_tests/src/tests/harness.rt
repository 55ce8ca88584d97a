//! What the tests of this crate share: rights, flags, some lists that several tests use, and numbers that look random.
//! `NO_WRITE_FORM` is the normal form of `NO_WRITE`, worked by hand from docs/reference/lists.md ("The normal form").

use acl_lists_for_tests::{ALLOW, AceRow, DENY};

pub const READ_DATA: u32 = 1;

pub const WRITE_DATA: u32 = 2;

pub const EXECUTE: u32 = 0x20;

pub const FILE_INHERIT: u32 = 0x01;

pub const INHERIT_ONLY: u32 = 0x08;

pub const GROUP: u32 = 0x40;

/// Amy may read.
pub const AMY: AceRow = (ALLOW, 0, READ_DATA, b"amy");

/// All may read.
pub const EVERYONE: AceRow = (ALLOW, 0, READ_DATA, b"EVERYONE@");

/// The group staff may not read.
pub const NO_STAFF: AceRow = (DENY, GROUP, READ_DATA, b"staff");

/// The owner may read.
pub const OWNER: AceRow = (ALLOW, 0, READ_DATA, b"OWNER@");

/// Bob may not write, and the owner may read and write.
pub const NO_WRITE: [AceRow; 2] = [
    (DENY, 0, WRITE_DATA, b"bob"),
    (ALLOW, 0, READ_DATA | WRITE_DATA, b"OWNER@"),
];

/// The owner may read, bob may not write, and the owner may write.
pub const NO_WRITE_FORM: [AceRow; 3] = [
    OWNER,
    (DENY, 0, WRITE_DATA, b"bob"),
    (ALLOW, 0, WRITE_DATA, b"OWNER@"),
];

/// Amy may read and execute, staff may not read, and all may execute.
pub const STAFF: [AceRow; 3] = [
    NO_STAFF,
    (ALLOW, 0, READ_DATA | EXECUTE, b"amy"),
    (ALLOW, 0, EXECUTE, b"EVERYONE@"),
];

/// An ACE for new files, and one for the object.
pub const FOR_FILES: [AceRow; 2] = [(ALLOW, FILE_INHERIT | INHERIT_ONLY, READ_DATA, b"amy"), AMY];

/// Numbers that look random.
#[derive(Drop)]
pub struct Dice {
    pub state: u32,
}

impl Dice {
    /// Returns the next number, below a bound.
    pub fn below(&mut self, bound: u32) -> u32 {
        self.state = self
            .state
            .wrapping_mul(1_664_525)
            .wrapping_add(1_013_904_223);
        (self.state >> 8).checked_rem(bound).unwrap_or(0)
    }
}
