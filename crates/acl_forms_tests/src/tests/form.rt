//! The same list in each form. The texts are those that nfs4_getfacl 0.4.2 and libarchive 3.6.2 print, the bytes are in
//! the layout of RFC 4506, and what a text cannot hold is this library's own.

use acl_forms::*;
use acl_nfs4::{Acl, parse_text};
use acl_perm::Counted;
use std::alloc::{AllocError, Global};
use std::test::Fail;

// A form, the flags, and the value of a list in which only the user 1001 may read.
static VALUES: [(Form, u32, &[u8]); 6] = [
    (Form::NfsTools(ObjectKind::File), 0, b"A::1001:r\n"),
    (Form::NfsTools(ObjectKind::Directory), 0, b"A::1001:r\n"),
    (
        Form::NfsText(WhoField::Name, Style::ARCHIVE),
        0,
        b"user:1001:r::allow:1001",
    ),
    (
        Form::NfsText(WhoField::Id, Style::ARCHIVE),
        0,
        b"user:1001:r::allow:1001",
    ),
    (
        Form::NfsAcl41,
        2,
        b"\0\0\0\x02\0\0\0\x01\0\0\0\0\0\0\0\0\0\0\0\x01\0\0\0\x041001",
    ),
    (
        Form::NfsAcl41Ids,
        2,
        b"\0\0\0\x02\0\0\0\x01\0\0\0\0\0\0\0\0\0\0\0\0\0\0\0\x01\0\0\x03\xe9",
    ),
];

// A form, flags, the text of a list, and the message that says why the form cannot hold them.
static NOT_HELD: [(Form, u32, &[u8], &str); 7] = [
    (
        Form::NfsTools(ObjectKind::File),
        1,
        b"",
        "AclFlags at entry 0",
    ),
    (
        Form::NfsTools(ObjectKind::Directory),
        4,
        b"ALLOW - READ_DATA alice\n",
        "AclFlags at entry 0",
    ),
    (
        Form::NfsTools(ObjectKind::File),
        0,
        b"ALLOW FILE READ_DATA alice\n",
        "NotDirectory at entry 0",
    ),
    (
        Form::NfsTools(ObjectKind::Directory),
        0,
        b"ALLOW INHERITED READ_DATA alice\n",
        "Inherited at entry 0",
    ),
    (
        Form::NfsText(WhoField::Name, Style::ARCHIVE),
        4,
        b"ALLOW - READ_DATA alice\n",
        "AclFlags at entry 0",
    ),
    (
        Form::NfsText(WhoField::Name, Style::ARCHIVE),
        0,
        b"ALLOW - READ_DATA alice \n",
        "Separator at entry 0",
    ),
    (
        Form::NfsAcl41Ids,
        1,
        b"ALLOW - READ_DATA 1001\nALLOW - READ_DATA alice\n",
        "NoId at entry 1",
    ),
];

// A form, a value that spells no list in it, and the message that says why.
static REFUSED: [(Form, &[u8], &str); 5] = [
    (
        Form::NfsTools(ObjectKind::File),
        b"A:f:1001:r\n",
        "NotDirectory at byte 2",
    ),
    (
        Form::NfsTools(ObjectKind::Directory),
        b"A:f:1001:r\nA",
        "Fields at byte 11",
    ),
    (Form::NfsAcl41, b"A::1001:r\n", "AclFlagBits at byte 0"),
    (
        Form::NfsText(WhoField::Id, Style::ARCHIVE),
        b"A::1001:r\n",
        "Tag at byte 0",
    ),
    (
        Form::NfsAcl41Ids,
        b"\0\0\0\x02\0\0\0\x01\0\0\0\0\0\0\0\0\0\0\0\x01\0\0\0\x041001",
        "SpecialWho at byte 24",
    ),
];

// Returns whether flags and a list are written as these bytes, or refused with this message.
fn is_written(
    alloc: Global,
    form: Form,
    flags: AclFlags,
    list: &Acl,
    expected: &[u8],
) -> Result<bool, AllocError> {
    let mut sink = Counted::new(Vec::new(alloc));
    match write(form, flags, &list.view(), &mut sink) {
        Ok(()) => Ok(sink.into_inner().as_slice() == expected),
        Err(fault) => Ok(fault.to_string(alloc)?.as_bytes() == expected),
    }
}

// Returns whether the value is refused with this message.
fn is_refused(alloc: Global, form: Form, bytes: &[u8], message: &str) -> Result<bool, AllocError> {
    match read(alloc, form, bytes) {
        Ok(_) => Ok(false),
        Err(fault) => Ok(fault.to_string(alloc)?.as_bytes() == message.as_bytes()),
    }
}

mod ample {
    use super::*;

    #[test]
    fn a_list_is_read_and_written_in_each_form(rt: HostRuntime) -> Result<(), Fail> {
        let alloc = rt.alloc();
        for (form, bits, bytes) in VALUES {
            let (flags, list) = read(alloc, form, bytes)?;
            assert!(rt; flags.bits() == bits);
            assert!(rt; list.to_text(alloc)?.as_slice() == b"ALLOW - READ_DATA 1001\n".as_slice());
            assert!(rt; fits(form, &list.view(), flags).is_none());
            assert!(rt; is_written(alloc, form, flags, &list, bytes)?);
        }
        Ok(())
    }

    #[test]
    fn what_a_form_cannot_hold_is_refused(rt: HostRuntime) -> Result<(), Fail> {
        let alloc = rt.alloc();
        for (form, bits, text, message) in NOT_HELD {
            let flags = AclFlags::new(bits).ok_or("flags")?;
            let list = parse_text(alloc, text)?;
            assert!(rt; fits(form, &list.view(), flags).is_some());
            assert!(rt;
                is_written(alloc, form, flags, &list, message.as_bytes())?,
                "{message}"
            );
        }
        Ok(())
    }

    #[test]
    fn a_value_of_another_form_is_refused(rt: HostRuntime) -> Result<(), Fail> {
        let alloc = rt.alloc();
        for (form, bytes, message) in REFUSED {
            assert!(rt; is_refused(alloc, form, bytes, message)?, "{message}");
        }
        Ok(())
    }
}
