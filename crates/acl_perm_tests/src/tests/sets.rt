//! The numbers of rights and flags, by the tables of RFC 8881, sections 6.2.1.3.1 and 6.2.1.4.1, the rights of a mask,
//! and numbers that are no set.

use super::harness::is_shown;
use acl_perm::internal::{BitName, RIGHTS};
use acl_perm::*;
use std::alloc::Global;

// The flags of RFC 8881, section 6.2.1.4.1, with their numbers: whether each is INHERIT_ONLY, and whether it is
// IDENTIFIER_GROUP.
static FLAGS: [(Flags, u8, bool, bool); 8] = [
    (Flags::FILE_INHERIT, 0x01, false, false),
    (Flags::DIRECTORY_INHERIT, 0x02, false, false),
    (Flags::NO_PROPAGATE_INHERIT, 0x04, false, false),
    (Flags::INHERIT_ONLY, 0x08, true, false),
    (Flags::SUCCESSFUL_ACCESS, 0x10, false, false),
    (Flags::FAILED_ACCESS, 0x20, false, false),
    (Flags::IDENTIFIER_GROUP, 0x40, false, true),
    (Flags::INHERITED, 0x80, false, false),
];

// The narrow profile has all flags except INHERITED.
#[test]
fn the_eight_flags_are_those_of_the_standard(rt: HostRuntime) {
    for (flag, number, is_inherit_only, is_group) in FLAGS {
        assert!(rt; flag.bits() == number, "{number}");
        assert!(rt; flag.is_inherit_only() == is_inherit_only, "{number}");
        assert!(rt; flag.is_group() == is_group, "{number}");
        assert!(rt; Profile::FULL.flags.contains(flag), "{number}");
        assert!(rt;
            Profile::NARROW.flags.contains(flag) == (number != 0x80),
            "{number}"
        );
    }
}

// The bits of the rights of RFC 8881, section 6.2.1.3.1, READ_DATA to WRITE_RETENTION_HOLD and DELETE to SYNCHRONIZE,
// and whether the narrow profile has each: it lacks WRITE_RETENTION, 0x200, and WRITE_RETENTION_HOLD, 0x400.
static RIGHT_BITS: [(u32, bool); 16] = [
    (0x1, true),
    (0x2, true),
    (0x4, true),
    (0x8, true),
    (0x10, true),
    (0x20, true),
    (0x40, true),
    (0x80, true),
    (0x100, true),
    (0x200, false),
    (0x400, false),
    (0x10000, true),
    (0x20000, true),
    (0x40000, true),
    (0x80000, true),
    (0x100000, true),
];

fn is_right(number: u32, is_narrow: bool) -> bool {
    match Mask::new(number) {
        Some(right) => {
            Profile::FULL.masks.contains(right)
                && Profile::NARROW.masks.contains(right) == is_narrow
        }
        None => false,
    }
}

#[test]
fn the_sixteen_rights_are_those_of_the_standard(rt: HostRuntime) {
    for (number, is_narrow) in RIGHT_BITS {
        assert!(rt; is_right(number, is_narrow), "{number}");
    }
}

#[test]
fn no_other_bit_is_a_right(rt: HostRuntime) {
    for bit in [
        11, 12, 13, 14, 15, 21, 22, 23, 24, 25, 26, 27, 28, 29, 30, 31u32,
    ] {
        assert!(rt; Mask::new(1 << bit % 32).is_none(), "{bit}");
    }
}

fn right_of(row: &BitName) -> Option<Right> {
    Right::new(row.bit.trailing_zeros() as usize)
}

fn is_right_of_row(alloc: Global, row: &BitName) -> bool {
    let Some(right) = right_of(row) else {
        return false;
    };
    let alone = Mask::from(right);
    alone.bits() == row.bit
        && alone.has(right)
        && right.name() == row.name
        && is_shown(alloc, &right, row.name)
}

#[test]
fn a_right_is_one_of_sixteen_and_is_shown_by_its_name(rt: HostRuntime) {
    for row in &RIGHTS {
        assert!(rt; is_right_of_row(rt.alloc(), row), "{}", row.name);
    }
    for bit in [11, 12, 13, 14, 15, 21, 64] {
        assert!(rt; Right::new(bit).is_none(), "{bit}");
    }
}

fn rights_are(mask: Mask, bits: &[usize]) -> bool {
    let mut rights = mask.rights();
    for bit in bits {
        if rights.next().map(Right::bit) != Some(*bit) {
            return false;
        }
    }
    rights.next().is_none()
}

#[test]
fn the_rights_of_a_mask_ascend(rt: HostRuntime) {
    let wide = [0usize, 1, 2, 3, 4, 5, 6, 7, 8, 9, 10, 16, 17, 18, 19, 20];
    assert!(rt; rights_are(Mask::ALL, &wide));
    assert!(rt; rights_are(Mask::NONE, &[]));
    assert!(rt;
        rights_are(
            Mask::SYNCHRONIZE | Mask::READ_DATA | Mask::DELETE,
            &[0, 16, 20]
        )
    );
    assert!(rt; rights_are(Mask::WRITE_RETENTION_HOLD, &[10]));
}

// Some masks with their numbers in RFC 8881, section 6.2.1.3.1.
const MASKS: [(Mask, u32); 7] = [
    (Mask::LIST_DIRECTORY, 0x1),
    (Mask::ADD_FILE, 0x2),
    (Mask::ADD_SUBDIRECTORY, 0x4),
    (Mask::EXECUTE, 0x20),
    (Mask::DELETE, 0x0001_0000),
    (Mask::SYNCHRONIZE, 0x0010_0000),
    (Mask::ALL, 0x001f_07ff),
];

#[test]
fn the_constants_have_the_numbers_of_the_standard(rt: HostRuntime) {
    for (mask, number) in MASKS {
        assert!(rt; mask.bits() == number, "{number}");
    }
}

#[test]
fn a_number_with_another_bit_is_no_set(rt: HostRuntime) {
    assert!(rt; Perm::new(8).is_none());
    assert!(rt; Mode::new(0o1000).is_none());
    assert!(rt; Mask::new(0x800).is_none());
    assert!(rt; Flags::new(0x100).is_none());
}
