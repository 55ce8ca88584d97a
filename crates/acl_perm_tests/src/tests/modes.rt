//! The digits of a mode, which are the octal digits of chmod(1), and how permissions and modes are shown: as the
//! letters of acl(5), "LONG TEXT FORM", and as these digits.

use super::harness::is_shown;
use acl_perm::*;

// A mode, the permissions of the owner, the group and others (read is 4, write 2 and execute 1), and its text.
static MODES: [(u16, u8, u8, u8, &str); 5] = [
    (0o400, 4, 0, 0, "400"),
    (0o020, 0, 2, 0, "020"),
    (0o001, 0, 0, 1, "001"),
    (0o640, 6, 4, 0, "640"),
    (0o751, 7, 5, 1, "751"),
];

fn mode_of(owner: u8, group: u8, others: u8) -> Option<Mode> {
    Some(Mode::from_parts(Perm::new(owner)?, Perm::new(group)?, Perm::new(others)?))
}

#[test]
fn a_mode_is_made_of_three_digits_and_shown_as_them(rt: HostRuntime) {
    for (number, owner, group, others, text) in MODES {
        let Some(mode) = mode_of(owner, group, others) else {
            assert!(rt; false, "permissions");
            continue;
        };
        assert!(rt; mode.bits() == number, "{text}");
        assert!(rt; mode.owner().bits() == owner, "{text}");
        assert!(rt; mode.group().bits() == group, "{text}");
        assert!(rt; mode.others().bits() == others, "{text}");
        assert!(rt; is_shown(rt.alloc(), &mode, text), "{text}");
    }
}

// Permissions, and their text.
static SHOWN: [(u8, &str); 4] = [(0, "---"), (5, "r-x"), (2, "-w-"), (7, "rwx")];

#[test]
fn permissions_are_shown_as_letters(rt: HostRuntime) {
    for (number, letters) in SHOWN {
        let Some(perm) = Perm::new(number) else {
            assert!(rt; false, "permissions");
            continue;
        };
        assert!(rt; is_shown(rt.alloc(), &perm, letters), "{letters}");
    }
}
