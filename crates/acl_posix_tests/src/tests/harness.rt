//! Code that the tests of this crate share: entries from the rows of a table, and the allocator of the calls. `ORDERED`
//! is in the canonical order of docs/reference/formats.md ("POSIX entries"). The files of the tests say what the lists
//! give.

use Who::{Amy, Bob, Eve, Group, Guests, Mask, Ops, Other, Owner, Staff};
use acl_perm::Perm;
use acl_posix::*;
use std::alloc::{AllocError, Global};

/// Whom an entry is for. The named users have the ids 5, 7 and 1001, and the named groups have the ids 5, 50 and 60.
#[derive(Clone, Copy, Debug)]
pub enum Who {
    Owner,
    Eve,
    Bob,
    Amy,
    Group,
    Guests,
    Staff,
    Ops,
    Mask,
    Other,
}

impl Who {
    pub fn tag(self) -> Tag {
        match self {
            Owner => Tag::UserObj,
            Eve => Tag::User(Id { value: 5 }),
            Bob => Tag::User(Id { value: 7 }),
            Amy => Tag::User(Id { value: 1001 }),
            Group => Tag::GroupObj,
            Guests => Tag::Group(Id { value: 5 }),
            Staff => Tag::Group(Id { value: 50 }),
            Ops => Tag::Group(Id { value: 60 }),
            Mask => Tag::Mask,
            Other => Tag::Other,
        }
    }
}

/// The rows of a list: whom each entry is for, and a digit of permissions.
pub type Rows = (&'static [Who], &'static [u8]);

/// `u::rw-,u:1001:rw-,g::r--,g:50:rw-,m::r--,o::r--`, in another order
pub const SHARED: Rows = (&[Other, Mask, Staff, Owner, Amy, Group], b"446664");

/// The entries of that list in canonical order, without their permissions
pub const ORDERED: &[Who] = &[Owner, Amy, Group, Staff, Mask, Other];

/// `u::rwx,g::---,g:50:r--,g:60:-w-,m::rw-,o::---`
pub const TWO_GROUPS: Rows = (&[Owner, Group, Staff, Ops, Mask, Other], b"704260");

/// `u::rwx,u:5:rwx,g::r-x,m::rwx,o::r-x`
pub const DEFAULT: Rows = (&[Owner, Eve, Group, Mask, Other], b"77575");

/// `u::---,g::rwx,o::rwx`
pub const NO_OWNER: Rows = (&[Owner, Group, Other], b"077");

/// `NO_OWNER` with its mask, `u::---,g::rwx,m::rwx,o::rwx`
pub const WITH_MASK: Rows = (&[Owner, Group, Mask, Other], b"0777");

/// `u::rwx,g::rwx,m::r--,o::rwx`
pub const MASKED: Rows = (&[Owner, Group, Mask, Other], b"7747");

/// Returns the permissions of a digit in ASCII.
pub fn perm_of(digit: u8) -> Option<Perm> {
    Perm::new(digit.wrapping_sub(b'0'))
}

fn push_rows(entries: &mut Vec<Entry>, (names, digits): Rows) -> Result<(), AllocError> {
    for (who, digit) in names.iter().zip(digits) {
        if let Some(perm) = perm_of(*digit) {
            entries.push(Entry {
                tag: who.tag(),
                perm,
            })?;
        }
    }
    Ok(())
}

/// The allocator of the calls, and whether memory may run out. If it may, that is an accepted answer for every row.
#[derive(Clone, Copy)]
pub struct Memory {
    pub alloc: Global,
    pub is_ample: bool,
}

impl Memory {
    pub fn ample(alloc: Global) -> Memory {
        let is_ample = true;
        Memory { alloc, is_ample }
    }

    pub fn scarce(alloc: Global) -> Memory {
        let is_ample = false;
        Memory { alloc, is_ample }
    }

    /// Makes the entries of some rows.
    pub fn entries(self, rows: Rows) -> Result<Vec<Entry>, AclFault> {
        let mut entries = Vec::new(self.alloc);
        push_rows(&mut entries, rows)?;
        Ok(entries)
    }

    /// Makes the list of some rows, which may be in any order.
    pub fn acl(self, rows: Rows) -> Result<PosixAcl, AclFault> {
        PosixAcl::from_entries(self.alloc, self.entries(rows)?)
    }

    /// Returns whether a call may fail with this fault because memory ran out.
    pub fn may_run_out(self, fault: Option<AclFault>) -> bool {
        !self.is_ample && fault == Some(AclFault::Memory)
    }
}

/// Returns whether a list has these rows in this order.
pub fn has_rows(acl: &PosixAcl, (names, digits): Rows) -> bool {
    let entries = acl.entries();
    entries.len() == names.len()
        && entries
            .iter()
            .zip(names)
            .all(|(entry, who)| entry.tag == who.tag())
        && has_digits(entries, digits)
}

fn has_digits(entries: &[Entry], digits: &[u8]) -> bool {
    entries.len() == digits.len()
        && entries
            .iter()
            .zip(digits)
            .all(|(entry, digit)| perm_of(*digit) == Some(entry.perm))
}
