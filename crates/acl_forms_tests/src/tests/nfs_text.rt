//! Texts of NFSv4 lists on FreeBSD, in ZFS and in archives: what libarchive 3.6.2 made of each, as the text form of the
//! list, or the message of the fault that this library gives.

use acl_forms::*;
use acl_nfs4::{Acl, parse_text};
use acl_perm::Counted;
use std::alloc::{AllocError, Global};
use std::test::Fail;

const LINES: Style = Style {
    separator: EntrySeparator::LineFeeds,
    letters: LetterStyle::Compact,
};

const FULL_LINES: Style = Style {
    separator: EntrySeparator::LineFeeds,
    letters: LetterStyle::Full,
};

const FULL_COMMAS: Style = Style {
    separator: EntrySeparator::Commas,
    letters: LetterStyle::Full,
};

// A text, and the list that libarchive made of it, with the names.
const READ: [(&[u8], &[u8]); 9] = [
    (b"", b""),
    (b"# x", b""),
    (
        b"owner@:r::allow\n\ngroup@:r::deny",
        b"ALLOW - READ_DATA OWNER@\nDENY - READ_DATA GROUP@\n",
    ),
    (b"owner@:-:-:allow", b"ALLOW - - OWNER@\n"),
    (
        b"owner@:rwxpdDaARWcCos:fdinSFI:allow",
        b"ALLOW FILE|DIR|NOPROP|INHERITONLY|SUCCESS|FAILED|INHERITED \
READ_DATA|WRITE_DATA|APPEND_DATA|READ_NAMED_ATTRS|WRITE_NAMED_ATTRS|EXECUTE|DELETE_CHILD|READ_ATTRIBUTES|\
WRITE_ATTRIBUTES|DELETE|READ_ACL|WRITE_ACL|WRITE_OWNER|SYNCHRONIZE OWNER@\n",
    ),
    (
        b"user : bob : r-x-d--AR---o- : ------- : deny : 32605\ngroup : 2001 : wDW :  : deny",
        b"DENY - READ_DATA|READ_NAMED_ATTRS|EXECUTE|WRITE_ATTRIBUTES|DELETE|WRITE_OWNER bob\n\
DENY GROUP WRITE_DATA|WRITE_NAMED_ATTRS|DELETE_CHILD 2001\n",
    ),
    (
        b"owner@:r::allow #x\ngroup@:w::deny",
        b"ALLOW - READ_DATA OWNER@\nDENY - WRITE_DATA GROUP@\n",
    ),
    (b"user:bob@dom:r::allow", b"ALLOW - READ_DATA bob@dom\n"),
    (
        b"user:b b:r::allow,everyone@:::deny",
        b"ALLOW - READ_DATA b b\nDENY - - EVERYONE@\n",
    ),
];

// A text, and the list that libarchive made of it, with the ids where there are some.
const READ_BY_ID: [(&[u8], &[u8]); 4] = [
    (
        b"group:staff:wpARs::deny:23273",
        b"DENY GROUP WRITE_DATA|APPEND_DATA|READ_NAMED_ATTRS|WRITE_ATTRIBUTES|SYNCHRONIZE 23273\n",
    ),
    (b"user:joe:rx::allow:007", b"ALLOW - READ_DATA|EXECUTE 7\n"),
    (b"user:bob:r::allow", b"ALLOW - READ_DATA bob\n"),
    (b"user:0:r::allow", b"ALLOW - READ_DATA 0\n"),
];

// A text that is refused, and the message that says why.
const REFUSED: [(&[u8], &str); 29] = [
    (b"owner@:r::allow\0", "Nul at byte 15"),
    (b"owner@:r::allow#,user:eve:r::deny", "Comment at byte 16"),
    (b"owner@:r::allow,", "EmptyEntry at byte 16"),
    (b" , owner@:r::allow", "EmptyEntry at byte 0"),
    (b"OWNER@:r::allow", "Tag at byte 0"),
    (b"owner@:r::allow, mask:r::allow", "Tag at byte 17"),
    (b"owner@:r:allow", "Fields at byte 0"),
    (b"owner@:r::allow:1001", "Fields at byte 0"),
    (b"user:bob:r:allow", "Fields at byte 0"),
    (b"group:staff:r::allow:12:34", "Fields at byte 0"),
    (b"owner@:r-y::allow", "Mask at byte 9"),
    (b"owner@:r:g:allow", "Flag at byte 9"),
    (b"owner@:r::audit", "AuditOrAlarm at byte 10"),
    (b"owner@:r::Allow", "AceType at byte 10"),
    (b"owner@:r::allow\r\n", "AceType at byte 10"),
    (b"user:bob:r::allow:x", "Id at byte 18"),
    (b"user:bob:r::allow:", "Id at byte 18"),
    (b"user:bob:r::allow:4294967295", "Id at byte 18"),
    (b"user:7:r::allow:8", "IdDiffers at byte 16"),
    // libarchive reads these as the ids 7, 0, 7, 2147483647 and 8.
    (b"user:007:r::allow", "Id at byte 5"),
    (b"group:00:r::deny", "Id at byte 6"),
    (b"user: 007 :r::allow:7", "Id at byte 6"),
    (b"user:4294967295:r::deny", "Id at byte 5"),
    (b"user:007:r::allow:8", "Id at byte 5"),
    (b"user:OWNER@:r::allow", "SpecialWho at byte 5"),
    (b"user:AUTHENTICATED@:r::allow", "SpecialWho at byte 5"),
    (b"user::r::allow", "WhoLength at byte 5"),
    (b"user:\xff:r::allow", "WhoUtf8 at byte 5"),
    (b"user:a\x7f:r::allow", "WhoControl at byte 5"),
];

// A style, a list in the text form, and the text that libarchive printed for it in this style and with ids. It prints
// no line feed after the last entry.
const PRINTED: [(Style, &[u8], &[u8]); 7] = [
    (
        LINES,
        b"DENY FILE|NOPROP APPEND_DATA|EXECUTE|DELETE_CHILD|WRITE_ATTRIBUTES|WRITE_ACL|WRITE_OWNER b b\n",
        b"user:b b:xpDACo:fn:deny\n",
    ),
    (
        LINES,
        b"ALLOW GROUP - GROUP@\nALLOW FILE|INHERITONLY|GROUP READ_DATA 2001\n",
        b"group@:::allow\ngroup:2001:r:fi:allow:2001\n",
    ),
    (
        LINES,
        b"ALLOW - - 7\nALLOW - - 2147483647\n",
        b"user:7:::allow:7\nuser:2147483647:::allow:2147483647\n",
    ),
    (
        Style::ARCHIVE,
        b"ALLOW - READ_DATA OWNER@\nDENY FILE|INHERITED - bob\nALLOW GROUP EXECUTE 20\n",
        b"owner@:r::allow,user:bob::fI:deny,group:20:x::allow:20",
    ),
    (Style::ARCHIVE, b"", b""),
    (
        FULL_LINES,
        b"ALLOW - READ_DATA|WRITE_OWNER OWNER@\nDENY FILE|INHERITED - bob\n",
        b"owner@:r-----------o-:-------:allow\nuser:bob:--------------:f-----I:deny\n",
    ),
    (
        FULL_COMMAS,
        b"ALLOW - - EVERYONE@\nALLOW GROUP SYNCHRONIZE 20\n",
        b"everyone@:--------------:-------:allow,group:20:-------------s:-------:allow:20",
    ),
];

// A list in the text form that the text cannot hold, and the message that says why.
const NOT_HELD: [(&[u8], &str); 8] = [
    (b"ALLOW - WRITE_RETENTION a,b\n", "Retention at entry 0"),
    (b"ALLOW - - a\nALLOW - - a,b\n", "Separator at entry 1"),
    (b"ALLOW - - a:b\n", "Separator at entry 0"),
    (b"ALLOW - - a#b\n", "Separator at entry 0"),
    (b"ALLOW - - a \n", "Separator at entry 0"),
    (b"ALLOW - - 2147483648\n", "Id at entry 0"),
    (b"ALLOW - - a\nALLOW - - 007\n", "Id at entry 1"),
    (b"ALLOW GROUP - 4294967295\n", "Id at entry 0"),
];

// Returns whether a text spells the list with this text form, or is refused with this message.
fn is_read(
    alloc: Global,
    text: &[u8],
    source: WhoField,
    expected: &[u8],
) -> Result<bool, AllocError> {
    match read_nfs_text(alloc, text, source) {
        Ok(list) => Ok(list.to_text(alloc)?.as_slice() == expected),
        Err(fault) => Ok(fault.to_string(alloc)?.as_bytes() == expected),
    }
}

// Returns whether a list is written as this text, or refused with this message.
fn is_written(
    alloc: Global,
    list: &Acl,
    style: Style,
    expected: &[u8],
) -> Result<bool, AllocError> {
    let mut text = Counted::new(Vec::new(alloc));
    match write_nfs_text(&list.view(), style, &mut text) {
        Ok(()) => Ok(text.into_inner().as_slice() == expected),
        Err(fault) => Ok(fault.to_string(alloc)?.as_bytes() == expected),
    }
}

mod ample {
    use super::*;

    #[test]
    fn a_text_is_read_as_libarchive_reads_it(rt: HostRuntime) -> Result<(), Fail> {
        let alloc = rt.alloc();
        for (text, list) in READ {
            assert!(rt; is_read(alloc, text, WhoField::Name, list)?);
        }
        Ok(())
    }

    #[test]
    fn an_id_may_be_the_who(rt: HostRuntime) -> Result<(), Fail> {
        let alloc = rt.alloc();
        for (text, list) in READ_BY_ID {
            assert!(rt; is_read(alloc, text, WhoField::Id, list)?);
        }
        Ok(())
    }

    #[test]
    fn other_texts_are_refused_for_their_first_fault(rt: HostRuntime) -> Result<(), Fail> {
        let alloc = rt.alloc();
        for (text, message) in REFUSED {
            assert!(rt; is_read(alloc, text, WhoField::Name, message.as_bytes())?);
            assert!(rt; is_read(alloc, text, WhoField::Id, message.as_bytes())?);
        }
        Ok(())
    }

    #[test]
    fn a_list_is_written_as_libarchive_prints_it(rt: HostRuntime) -> Result<(), Fail> {
        let alloc = rt.alloc();
        for (style, own, text) in PRINTED {
            let list = parse_text(alloc, own)?;
            assert!(rt; is_written(alloc, &list, style, text)?);
        }
        Ok(())
    }

    #[test]
    fn a_list_that_the_text_cannot_hold_is_refused(rt: HostRuntime) -> Result<(), Fail> {
        let alloc = rt.alloc();
        for (own, message) in NOT_HELD {
            let list = parse_text(alloc, own)?;
            assert!(rt; is_written(alloc, &list, FULL_COMMAS, message.as_bytes())?);
        }
        Ok(())
    }
}
