//! The bytes that spell normal forms. The bytes are written by hand (RFC 8881, section 6.2.1, and RFC 4506, sections
//! 4.10 and 4.13).

use super::harness::{EVERYONE, NO_WRITE_FORM};
use acl_lists_for_tests::{ALLOW, AceRow, built};
use acl_nfs4::{Acl, AclView, Fault, Reason};
use acl_normal::{normal_bytes, normal_bytes_with};
use acl_perm::{Flags, Mask, Profile};
use std::alloc::Global;

const EMPTY: &[u8; 4] = b"\0\0\0\0";

const ALL_MAY_READ: &[u8; 32] = b"\0\0\0\x01\0\0\0\0\0\0\0\0\0\0\0\x01\0\0\0\x09EVERYONE@\0\0\0";

// Bob may not write, and the owner may read and write.
const SOURCE: &[u8; 48] = b"\0\0\0\x02\
    \0\0\0\x01\0\0\0\0\0\0\0\x02\0\0\0\x03bob\0\
    \0\0\0\0\0\0\0\0\0\0\0\x03\0\0\0\x06OWNER@\0\0";

const PADDED: &[u8; 32] = b"\0\0\0\x01\0\0\0\0\0\0\0\0\0\0\0\x01\0\0\0\x09EVERYONE@\0\0\x01";

const TRAILED: &[u8; 33] = b"\0\0\0\x01\0\0\0\0\0\0\0\0\0\0\0\x01\0\0\0\x09EVERYONE@\0\0\0\0";

const RETENTION: &[u8; 32] = b"\0\0\0\x01\0\0\0\0\0\0\0\0\0\0\x02\0\0\0\0\x09EVERYONE@\0\0\0";

// Three ACEs without rights: one that denies, one for new files, and one of a group.
const NO_RIGHTS: &[u8; 76] = b"\0\0\0\x03\
    \0\0\0\x01\0\0\0\0\0\0\0\0\0\0\0\x06OWNER@\0\0\
    \0\0\0\0\0\0\0\x09\0\0\0\0\0\0\0\x09EVERYONE@\0\0\0\
    \0\0\0\0\0\0\0\x40\0\0\0\0\0\0\0\x03ops\0";

// The ACEs that the bytes of a normal form spell, or the fault.
type Spelled = Result<&'static [AceRow], Fault>;

fn fault(offset: u64, reason: Reason) -> Spelled {
    Err(Fault { offset, reason })
}

// Returns whether these bytes spell the list of these rows.
fn is_spelled(alloc: Global, bytes: &[u8], rows: &[AceRow]) -> bool {
    let Ok(view) = AclView::parse_whole(bytes) else {
        return false;
    };
    match (Acl::from_view(alloc, &view), built(alloc, rows)) {
        (Ok(list), Ok(wanted)) => list == wanted,
        _ => false,
    }
}

fn is_answer(alloc: Global, answer: Result<Vec<u8>, Fault>, wanted: Spelled) -> bool {
    match (answer, wanted) {
        (Ok(bytes), Ok(rows)) => is_spelled(alloc, &bytes, rows),
        (Err(fault), Err(wanted)) => fault == wanted,
        _ => false,
    }
}

mod ample {
    use super::*;

    // Under the full profile, and under the narrow one.
    #[test]
    fn normal_bytes_spell_the_normal_form_or_report_the_fault_of_the_input(rt: HostRuntime) {
        let alloc = rt.alloc();
        let rows: [(&[u8], Spelled); 6] = [
            (EMPTY, Ok(&[])),
            (ALL_MAY_READ, Ok(&[EVERYONE])),
            (SOURCE, Ok(&NO_WRITE_FORM)),
            (PADDED, fault(29, Reason::Padding)),
            (TRAILED, fault(32, Reason::TrailingBytes)),
            (RETENTION, Ok(&[(ALLOW, 0, 0x200, b"EVERYONE@")])),
        ];
        for (bytes, wanted) in rows {
            assert!(rt; is_answer(alloc, normal_bytes(alloc, bytes), wanted));
        }
        let rows: [(&[u8], Spelled); 2] = [
            (SOURCE, Ok(&NO_WRITE_FORM)),
            (RETENTION, fault(12, Reason::MaskBits)),
        ];
        for (bytes, wanted) in rows {
            let answer = normal_bytes_with(alloc, bytes, Profile::NARROW);
            assert!(rt; is_answer(alloc, answer, wanted));
        }
    }

    // Whatever a list of such a profile has, no ACE of it has a right.
    #[test]
    fn under_a_profile_of_no_rights_each_list_normalizes_to_the_empty_list(rt: HostRuntime) {
        let alloc = rt.alloc();
        let profile = Profile::new(Mask::NONE, Flags::ALL);
        let rows: [(&[u8], Spelled); 3] = [
            (EMPTY, Ok(&[])),
            (NO_RIGHTS, Ok(&[])),
            (ALL_MAY_READ, fault(12, Reason::MaskBits)),
        ];
        for (bytes, wanted) in rows {
            let answer = normal_bytes_with(alloc, bytes, profile);
            assert!(rt; is_answer(alloc, answer, wanted));
        }
    }
}
