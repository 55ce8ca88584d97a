//! Values with ACEs that access does not read. The bytes, the places and the offsets are those of the layouts of RFC
//! 8881, section 6.2.2, of Samba's description, and of the texts of nfs4-acl-tools and of FreeBSD; which ACEs are left
//! out is this library's own.

use acl_forms::*;
use acl_nfs4::Reason;
use std::alloc::{AllocError, Global};
use std::test::Fail;

// A form, a value, the text of the list that is kept, and the first and the last ACE that is left out. The first value
// has the flags PROTECTED, and the ACEs AUDIT `EVERYONE@`, ALLOW `alice` READ_DATA and ALLOW `AUTHENTICATED@`
// READ_DATA. The second has the ACEs ALLOW READ_DATA of the special identifier 9 (AUTHENTICATED@), DENY READ_DATA of
// the group 100, and ALARM of the special identifier 11, which has no meaning. In the fourth the id of NOW@ counts
// where it has one.
static PARTS: [(Form, &[u8], &str, [LeftOut; 2]); 4] = [
    (
        Form::NfsAcl41,
        b"\0\0\0\x02\0\0\0\x03\
            \0\0\0\x02\0\0\0\x10\0\0\0\x02\0\0\0\x09EVERYONE@\0\0\0\
            \0\0\0\0\0\0\0\0\0\0\0\x01\0\0\0\x05alice\0\0\0\
            \0\0\0\0\0\0\0\0\0\0\0\x01\0\0\0\x0eAUTHENTICATED@\0\0",
        "ALLOW - READ_DATA alice\n",
        [
            LeftOut {
                place: 0,
                offset: 8,
                reason: LeftOutReason::AuditOrAlarm,
            },
            LeftOut {
                place: 2,
                offset: 60,
                reason: LeftOutReason::SpecialWho,
            },
        ],
    ),
    (
        Form::NfsAcl41Ids,
        b"\0\0\0\0\0\0\0\x03\
            \0\0\0\0\0\0\0\0\0\0\0\x01\0\0\0\x01\0\0\0\x09\
            \0\0\0\x01\0\0\0\x40\0\0\0\0\0\0\0\x01\0\0\0\x64\
            \0\0\0\x03\0\0\0\0\0\0\0\x01\0\0\0\x01\0\0\0\x0b",
        "DENY GROUP READ_DATA 100\n",
        [
            LeftOut {
                place: 0,
                offset: 8,
                reason: LeftOutReason::SpecialWho,
            },
            LeftOut {
                place: 2,
                offset: 48,
                reason: LeftOutReason::AuditOrAlarm,
            },
        ],
    ),
    (
        Form::NfsTools(ObjectKind::File),
        b"A::OWNER@:r\nU:S:EVERYONE@:w\nA::AUTHENTICATED@:w\nD::bob:w\n",
        "ALLOW - READ_DATA OWNER@\nDENY - WRITE_DATA bob\n",
        [
            LeftOut {
                place: 1,
                offset: 12,
                reason: LeftOutReason::AuditOrAlarm,
            },
            LeftOut {
                place: 2,
                offset: 28,
                reason: LeftOutReason::SpecialWho,
            },
        ],
    ),
    (
        Form::NfsText(WhoField::Id, Style::ARCHIVE),
        b"owner@:r::allow,everyone@:w:S:alarm,user:NOW@:r::allow:7,user:NOW@:r::allow",
        "ALLOW - READ_DATA OWNER@\nALLOW - READ_DATA 7\n",
        [
            LeftOut {
                place: 1,
                offset: 16,
                reason: LeftOutReason::AuditOrAlarm,
            },
            LeftOut {
                place: 3,
                offset: 57,
                reason: LeftOutReason::SpecialWho,
            },
        ],
    ),
];

// A form, a value, and the place and the reason of its first fault: a DENY of a special identifier that nobody knows,
// AUDIT and ALARM ACEs with a wrong name, a wrong flag and wrong padding, and a type that is none.
static FAULTS: [(Form, &[u8], u64, Reason); 9] = [
    (
        Form::NfsTools(ObjectKind::File),
        b"D::NOW@:r\n",
        3,
        Reason::SpecialWho,
    ),
    (
        Form::NfsTools(ObjectKind::File),
        b"U::NO\x01@:w",
        3,
        Reason::WhoControl,
    ),
    (
        Form::NfsText(WhoField::Name, Style::ARCHIVE),
        b"user:NOW@:r::deny",
        5,
        Reason::SpecialWho,
    ),
    (
        Form::NfsText(WhoField::Name, Style::ARCHIVE),
        b"user:x:r::alarms",
        10,
        Reason::AceType,
    ),
    (
        Form::NfsAcl41,
        b"\0\0\0\0\0\0\0\x01\0\0\0\x01\0\0\0\0\0\0\0\x01\0\0\0\x04NOW@",
        24,
        Reason::SpecialWho,
    ),
    (
        Form::NfsAcl41Ids,
        b"\0\0\0\0\0\0\0\x01\0\0\0\x01\0\0\0\0\0\0\0\x01\0\0\0\x01\0\0\0\x04",
        24,
        Reason::SpecialWho,
    ),
    (
        Form::NfsAcl41,
        b"\0\0\0\0\0\0\0\x01\0\0\0\x02\0\0\x01\0\0\0\0\x01\0\0\0\x04NOW@",
        12,
        Reason::FlagBits,
    ),
    (
        Form::NfsAcl41,
        b"\0\0\0\0\0\0\0\x01\0\0\0\x03\0\0\0\0\0\0\0\x01\0\0\0\x04NO\x01@",
        24,
        Reason::WhoControl,
    ),
    (
        Form::NfsAcl41,
        b"\0\0\0\0\0\0\0\x01\0\0\0\x02\0\0\0\0\0\0\0\x01\0\0\0\x03NO@\x01",
        27,
        Reason::Padding,
    ),
];

// Returns whether the value is refused with this fault.
fn is_refused(alloc: Global, form: Form, bytes: &[u8], offset: u64, reason: Reason) -> bool {
    let reason = ReadReason::List(reason);
    match read_part(alloc, form, bytes) {
        Ok(_) => false,
        Err(fault) => fault == ReadFault { offset, reason },
    }
}

#[test]
fn a_wrong_ace_is_not_left_out(rt: HostRuntime) {
    for (form, bytes, offset, reason) in FAULTS {
        assert!(rt;
            is_refused(rt.alloc(), form, bytes, offset, reason),
            "{reason:?}"
        );
    }
}

mod ample {
    use super::*;

    // Returns whether a list is kept, and these ACEs are left out.
    fn is_part(
        alloc: Global,
        part: &ReadablePart,
        text: &str,
        left_out: &[LeftOut],
    ) -> Result<bool, AllocError> {
        Ok(
            part.list.to_text(alloc)?.as_slice() == text.as_bytes()
                && part.left_out.as_slice() == left_out,
        )
    }

    #[test]
    fn the_aces_that_are_left_out_are_reported(rt: HostRuntime) -> Result<(), Fail> {
        let alloc = rt.alloc();
        for (form, bytes, text, left_out) in PARTS {
            let part = read_part(alloc, form, bytes)?;
            assert!(rt; is_part(alloc, &part, text, &left_out)?, "{form:?}");
        }
        Ok(())
    }

    // Values that `read` accepts.
    #[test]
    fn nothing_is_left_out_of_a_whole_list(rt: HostRuntime) -> Result<(), Fail> {
        let alloc = rt.alloc();
        let part = read_part(alloc, Form::NfsTools(ObjectKind::File), b"A::OWNER@:r\n")?;
        assert!(rt; is_part(alloc, &part, "ALLOW - READ_DATA OWNER@\n", &[])?);
        let part = read_part(alloc, Form::NfsAcl41, b"\0\0\0\x04\0\0\0\0")?;
        assert!(rt; is_part(alloc, &part, "", &[])?);
        assert!(rt; part.flags == AclFlags::DEFAULTED);
        Ok(())
    }
}
