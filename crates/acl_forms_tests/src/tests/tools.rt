//! Texts of nfs4-acl-tools: what nfs4_setfacl 0.3.7 and 0.4.2 made of each when it read it from a file, as the text
//! form of the list, or the message of the fault that this library gives.

use acl_forms::*;
use acl_nfs4::{Acl, parse_text};
use acl_perm::Counted;
use std::alloc::{AllocError, Global};
use std::test::Fail;

// A text for either object, and the list that the tool made of it.
const READ: [(&[u8], &[u8]); 9] = [
    (
        b"A::bob:X",
        b"ALLOW - EXECUTE|READ_ATTRIBUTES|READ_ACL|SYNCHRONIZE bob\n",
    ),
    (
        b"A::bob:R",
        b"ALLOW - READ_DATA|READ_NAMED_ATTRS|READ_ATTRIBUTES|READ_ACL|SYNCHRONIZE bob\n",
    ),
    (b"A::bob:", b"ALLOW - - bob\n"),
    (b"A::bob:rrr", b"ALLOW - READ_DATA bob\n"),
    (b"A::GROUP@:r", b"ALLOW GROUP READ_DATA GROUP@\n"),
    (b"A:g:EVERYONE@:r", b"ALLOW GROUP READ_DATA EVERYONE@\n"),
    (b"A:I:bob:r", b"ALLOW INHERITED READ_DATA bob\n"),
    (b"A::bob:r#c", b"ALLOW - READ_DATA bob\n"),
    (
        b"# file: a\nA::a b:r,\tD:SF:b:wx\r\n\n",
        b"ALLOW - READ_DATA a b\nDENY SUCCESS|FAILED WRITE_DATA|EXECUTE b\n",
    ),
];

// A text for directories, and the text in the order of nfs4_getfacl for the list that the tool made of it.
const READ_ON_DIRECTORIES: [(&[u8], &[u8]); 4] = [
    (b"A::bob:W", b"A::bob:waDtTNcCy\n"),
    (b"A::bob:XR", b"A::bob:rxtncy\n"),
    (b"A:indf:bob:D", b"A:fdni:bob:D\n"),
    (b"A:dFg:alice:oTtNadCc", b"A:dFg:alice:adtTNcCo\n"),
];

// A text for files that is refused, and the message that says why.
const REFUSED: [(&[u8], &str); 24] = [
    (b"", "Empty at byte 0"),
    (b"\n#\n", "Empty at byte 3"),
    (b"A::bob:r\0", "Nul at byte 8"),
    (b"A:bob:r", "Fields at byte 0"),
    (b"A::bob:r:", "Fields at byte 0"),
    (b"A::bob:r\nA::bob#x:r", "Fields at byte 9"),
    (b"::bob:r", "AceType at byte 0"),
    (b"Allow::bob:r", "AceType at byte 0"),
    (b" A::bob:r", "AceType at byte 0"),
    (b"U:S:bob:r", "AuditOrAlarm at byte 0"),
    (b"A::bob:r,L::bob:r", "AuditOrAlarm at byte 9"),
    (b"A:M:bob:r", "Flag at byte 2"),
    (b"A:-:bob:r", "Flag at byte 2"),
    (b"A:gf:bob:r", "NotDirectory at byte 3"),
    (b"A::bob:rwaD", "NotDirectory at byte 10"),
    (b"A::bob:-", "Mask at byte 7"),
    (b"A::bob:r ", "Mask at byte 8"),
    (b"A:::r\n", "WhoLength at byte 3"),
    (b"A::\xff:r", "WhoUtf8 at byte 3"),
    (b"A::b\x7f:r", "WhoControl at byte 3"),
    (b"A::AUTHENTICATED@:r", "SpecialWho at byte 3"),
    (b"A::bob:r#c,D::eve:w", "Comment at byte 10"),
    (b"A::bob:r\n# a\tb", "Comment at byte 12"),
    (b"# a\rb", "Comment at byte 3"),
];

// A list in the text form, and the text that nfs4_getfacl 0.4.2 printed for it on a directory, without its first line.
const PRINTED: [(&[u8], &[u8]); 3] = [
    (
        b"DENY INHERITONLY|FAILED|GROUP WRITE_NAMED_ATTRS|DELETE_CHILD|READ_ACL staff@x\n",
        b"D:iFg:staff@x:DNc\n",
    ),
    (
        b"ALLOW DIR|NOPROP|INHERITONLY WRITE_NAMED_ATTRS|EXECUTE|DELETE_CHILD|DELETE|WRITE_ACL bob@example.org\n",
        b"A:dni:bob@example.org:DdxNC\n",
    ),
    (
        b"DENY - READ_DATA GROUP@\nALLOW - - a b\n",
        b"D:g:GROUP@:r\nA::a b:\n",
    ),
];

// A list in the text form that the text cannot hold for a file, and the message that says why.
const NOT_HELD: [(&[u8], &str); 8] = [
    (b"", "Empty at entry 0"),
    (
        b"ALLOW INHERITED WRITE_RETENTION a,b\n",
        "Inherited at entry 0",
    ),
    (
        b"ALLOW - - a\nALLOW FILE WRITE_RETENTION_HOLD a,b\n",
        "Retention at entry 1",
    ),
    (b"ALLOW FILE - a,b\n", "Separator at entry 0"),
    (b"ALLOW - - a:b\n", "Separator at entry 0"),
    (b"ALLOW - - a#b\n", "Separator at entry 0"),
    (b"ALLOW INHERITONLY - a\n", "NotDirectory at entry 0"),
    (b"ALLOW - DELETE_CHILD a\n", "NotDirectory at entry 0"),
];

// Returns whether a list is written as this text, or refused with this message.
fn is_written(
    alloc: Global,
    list: &Acl,
    object: ObjectKind,
    expected: &[u8],
) -> Result<bool, AllocError> {
    let mut text = Counted::new(Vec::new(alloc));
    match write_tools(&list.view(), object, &mut text) {
        Ok(()) => Ok(text.into_inner().as_slice() == expected),
        Err(fault) => Ok(fault.to_string(alloc)?.as_bytes() == expected),
    }
}

// Returns whether a text spells the list with this text form, or is refused with this message.
fn is_read(
    alloc: Global,
    text: &[u8],
    object: ObjectKind,
    expected: &[u8],
) -> Result<bool, AllocError> {
    match read_tools(alloc, text, object) {
        Ok(list) => Ok(list.to_text(alloc)?.as_slice() == expected),
        Err(fault) => Ok(fault.to_string(alloc)?.as_bytes() == expected),
    }
}

mod ample {
    use super::*;

    #[test]
    fn a_text_is_read_as_the_tool_reads_it(rt: HostRuntime) -> Result<(), Fail> {
        let alloc = rt.alloc();
        for (text, list) in READ {
            assert!(rt; is_read(alloc, text, ObjectKind::File, list)?);
            assert!(rt; is_read(alloc, text, ObjectKind::Directory, list)?);
        }
        Ok(())
    }

    #[test]
    fn letters_have_more_meanings_on_directories(rt: HostRuntime) -> Result<(), Fail> {
        let alloc = rt.alloc();
        for (text, again) in READ_ON_DIRECTORIES {
            let list = read_tools(alloc, text, ObjectKind::Directory)?;
            assert!(rt; is_written(alloc, &list, ObjectKind::Directory, again)?);
        }
        Ok(())
    }

    #[test]
    fn other_texts_are_refused_for_their_first_fault(rt: HostRuntime) -> Result<(), Fail> {
        let alloc = rt.alloc();
        for (text, message) in REFUSED {
            assert!(rt; is_read(alloc, text, ObjectKind::File, message.as_bytes())?);
        }
        Ok(())
    }

    // The tool reads a line of a file by parts of 410 bytes, and looks for a comment in the first part alone.
    #[test]
    fn a_line_with_a_comment_has_at_most_409_bytes(rt: HostRuntime) -> Result<(), Fail> {
        let alloc = rt.alloc();
        let mut text = Vec::new(alloc);
        text.extend_from_slice(b"A::bob:r#")?;
        for _ in 0..400 {
            text.push(b'c')?;
        }
        assert!(rt; is_read(alloc, &text, ObjectKind::File, b"ALLOW - READ_DATA bob\n")?);
        text.push(b'c')?;
        assert!(rt; is_read(alloc, &text, ObjectKind::File, b"TooLong at byte 8")?);
        Ok(())
    }

    #[test]
    fn a_list_is_written_as_the_tool_prints_it(rt: HostRuntime) -> Result<(), Fail> {
        let alloc = rt.alloc();
        for (own, text) in PRINTED {
            let list = parse_text(alloc, own)?;
            assert!(rt; is_written(alloc, &list, ObjectKind::Directory, text)?);
        }
        Ok(())
    }

    #[test]
    fn a_list_that_the_text_cannot_hold_is_refused(rt: HostRuntime) -> Result<(), Fail> {
        let alloc = rt.alloc();
        for (own, message) in NOT_HELD {
            let list = parse_text(alloc, own)?;
            assert!(rt; is_written(alloc, &list, ObjectKind::File, message.as_bytes())?);
        }
        Ok(())
    }
}
