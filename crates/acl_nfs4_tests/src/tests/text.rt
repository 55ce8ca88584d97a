//! Texts that spell a list, and texts that have a fault, by the grammar of docs/reference/formats.md. The names of the
//! rights are those of RFC 8881, section 6.2.1.3.1, and those of the flags shorten the names of section 6.2.1.4.1.

use super::harness::is_displayed_as;
use acl_lists_for_tests::kept;
use acl_nfs4::*;
use std::alloc::{AllocError, Global};
use std::process::Abort;

// A text, and the text that is written for the list that it spells.
const SPELLED: [(&[u8], &[u8]); 10] = [
    (b"", b""),
    (b"\n \t\n# x\n#\n", b""),
    (
        b"ALLOW - READ_DATA EVERYONE@",
        b"ALLOW - READ_DATA EVERYONE@\n",
    ),
    (
        b"ALLOW GROUP READ_DATA GROUP@\n",
        b"ALLOW GROUP READ_DATA GROUP@\n",
    ),
    (
        b"ALLOW GROUP|DIR|GROUP ADD_FILE|LIST_DIRECTORY  two words ",
        b"ALLOW DIR|GROUP READ_DATA|WRITE_DATA  two words \n",
    ),
    (b"DENY - - OWNER@\n", b"DENY - - OWNER@\n"),
    (
        b"# a\n\nDENY INHERITED|FILE SYNCHRONIZE|SYNCHRONIZE|EXECUTE #\n \nALLOW - - a\n",
        b"DENY FILE|INHERITED EXECUTE|SYNCHRONIZE #\nALLOW - - a\n",
    ),
    (
        b"ALLOW FILE|DIR|NOPROP|INHERITONLY|SUCCESS|FAILED|GROUP|INHERITED - x",
        b"ALLOW FILE|DIR|NOPROP|INHERITONLY|SUCCESS|FAILED|GROUP|INHERITED - x\n",
    ),
    (
        b"DENY - WRITE_RETENTION_HOLD|WRITE_RETENTION|WRITE_ATTRIBUTES|READ_ATTRIBUTES|DELETE_CHILD x",
        b"DENY - DELETE_CHILD|READ_ATTRIBUTES|WRITE_ATTRIBUTES|WRITE_RETENTION|WRITE_RETENTION_HOLD x\n",
    ),
    (
        b"DENY - WRITE_OWNER|WRITE_ACL|READ_ACL|DELETE|WRITE_NAMED_ATTRS|READ_NAMED_ATTRS|ADD_SUBDIRECTORY \xc3\xa9",
        b"DENY - APPEND_DATA|READ_NAMED_ATTRS|WRITE_NAMED_ATTRS|DELETE|READ_ACL|WRITE_ACL|WRITE_OWNER \xc3\xa9\n",
    ),
];

// A text that spells no list, and the message that says why.
const REFUSED: [(&[u8], &str); 22] = [
    (b"ALLOW READ_DATA bob", "Fields at line 1 column 1"),
    (b" # x", "Fields at line 1 column 1"),
    (b"\r", "Fields at line 1 column 1"),
    (b"# x\n\n # x y z", "AceType at line 3 column 1"),
    (b"AUDIT - READ_DATA bob", "AceType at line 1 column 1"),
    (b"allow - READ_DATA bob", "AceType at line 1 column 1"),
    (b"ALLOW FILE|| READ_DATA bob", "Flag at line 1 column 7"),
    (b"ALLOW  READ_DATA bob", "Flag at line 1 column 7"),
    (b"ALLOW -|FILE READ_DATA bob", "Flag at line 1 column 7"),
    (
        b"ALLOW FILE_INHERIT READ_DATA bob",
        "Flag at line 1 column 7",
    ),
    (b"ALLOW - READ_DATA|AUDIT bob", "Mask at line 1 column 9"),
    (b"ALLOW - read_data bob", "Mask at line 1 column 9"),
    (b"ALLOW -  bob", "Mask at line 1 column 9"),
    (b"ALLOW - -\tx bob", "Mask at line 1 column 9"),
    (b"ALLOW - READ_DATA ", "WhoLength at line 1 column 19"),
    (
        b"ALLOW - - a\nALLOW - - \xff",
        "WhoUtf8 at line 2 column 11",
    ),
    (
        b"ALLOW - READ_DATA bob\r\n",
        "WhoControl at line 1 column 19",
    ),
    (
        b"ALLOW - READ_DATA bob\x7f",
        "WhoControl at line 1 column 19",
    ),
    (
        b"ALLOW - READ_DATA INTERACTIVE@",
        "SpecialWho at line 1 column 19",
    ),
    (
        b"ALLOW - READ_DATA OWNER@ @",
        "SpecialWho at line 1 column 19",
    ),
    (b"ALLOW - X \xff", "Mask at line 1 column 9"),
    (b"DENY X X \xff", "Flag at line 1 column 6"),
];

// Writes a list into a buffer, and returns how many bytes went out and how the call ended.
fn write(list: &Acl, room: &mut [u8]) -> (usize, Option<u64>) {
    let size = room.len();
    let mut sink = Counted::new(room);
    let fault = match list.write_text(&mut sink) {
        Ok(()) => None,
        Err(fault) => Some(fault.written),
    };
    (size.saturating_sub(sink.into_inner().len()), fault)
}

// Returns whether a list is written as this text.
fn is_written(list: &Acl, text: &[u8]) -> bool {
    let mut room = [0u8; 256];
    let (size, fault) = write(list, &mut room);
    fault.is_none() && size == text.len() && room.starts_with(text)
}

// Returns whether a text spells the list with this written text. Fails if memory runs out.
fn spells(alloc: Global, text: &[u8], written: &[u8]) -> Result<bool, PushFault> {
    match parse_text(alloc, text) {
        Ok(list) => {
            let returned = kept(list.to_text(alloc))?;
            Ok(is_written(&list, written) && returned.as_slice() == written)
        }
        Err(AceTextFault::Memory) => Err(PushFault::Memory),
        Err(_) => Ok(false),
    }
}

// Returns whether a text is refused with this message. Fails if memory runs out.
fn is_refused(alloc: Global, text: &[u8], line: &str) -> Result<bool, PushFault> {
    match parse_text(alloc, text) {
        Ok(_) => Ok(false),
        Err(AceTextFault::Memory) => Err(PushFault::Memory),
        Err(fault) => is_displayed_as(alloc, &fault, line),
    }
}

/// Reads each text of `SPELLED`, and writes its list again.
pub fn texts_spell_their_lists(rt: &impl Abort, alloc: Global) -> Result<(), PushFault> {
    for (text, written) in &SPELLED {
        assert!(rt; spells(alloc, text, written)?);
    }
    Ok(())
}

/// Reads each text of `REFUSED`, and compares the message with that of the row.
pub fn texts_that_spell_no_list_are_refused(
    rt: &impl Abort,
    alloc: Global,
) -> Result<(), PushFault> {
    for (text, line) in &REFUSED {
        assert!(rt; is_refused(alloc, text, line)?, "{line}");
    }
    Ok(())
}

// Returns how many ACEs a text spells within a profile.
fn spelled_within(alloc: Global, text: &[u8], profile: Profile) -> Result<usize, AceTextFault> {
    Ok(parse_text_with(alloc, text, profile)?.len())
}

// In a buffer of n bytes the fault has n, and the buffer holds the first n bytes of the text.
#[test]
fn a_text_is_written_up_to_the_failure(rt: HostRuntime) {
    let text = b"ALLOW DIR|GROUP READ_DATA|WRITE_DATA  two words \nDENY - - a\n".as_slice();
    let list = match parse_text(rt.alloc(), text) {
        Ok(list) => list,
        Err(fault) => {
            assert!(rt; fault == AceTextFault::Memory);
            return;
        }
    };
    for size in 0..text.len() {
        let mut room = [0u8; 128];
        assert!(rt; write(&list, &mut room[..size]) == (size, Some(size as u64)));
        assert!(rt; &room[..size] == &text[..size]);
    }
}

// Returns how many ACEs a text spells, and their weight.
fn size_of(alloc: Global, text: &[u8]) -> Result<(usize, u32), AceTextFault> {
    let list = parse_text(alloc, text)?;
    Ok((list.len(), list.weight()))
}

// The parts of a text and how often each is repeated; the size of the list that the text spells; a line that is added;
// and the fault of the text with that line.
type Long = (
    &'static [(usize, &'static [u8])],
    (usize, u32),
    &'static [u8],
    AceTextFault,
);

// The limits of a list, and the fault at the line that exceeds them.
static PAST_LIMITS: [Long; 2] = [
    (
        &[(65_536, b"ALLOW - READ_DATA a\n")],
        (65_536, 65_536),
        b"x\n",
        AceTextFault::TooManyAces {
            line: 65_537,
            column: 1,
        },
    ),
    (
        &[(32_768, b"ALLOW - READ_DATA|READ_DATA|EXECUTE a\n")],
        (32_768, 65_536),
        b"ALLOW - EXECUTE ",
        AceTextFault::TooHeavy {
            line: 32_769,
            column: 9,
        },
    ),
];

static LONG_LINES: [Long; 1] = [(
    &[
        (500, b"# comment "),
        (1, b"\nALLOW - "),
        (500, b"READ_DATA|"),
        (1, b"EXECUTE a"),
    ],
    (1, 2),
    b"@",
    AceTextFault::SpecialWho {
        line: 2,
        column: 5_017,
    },
)];

fn text_of(alloc: Global, parts: &[(usize, &[u8])]) -> Result<Vec<u8>, AllocError> {
    let mut text = Vec::new(alloc);
    for (count, part) in parts {
        text.extend_from_slice(&part.repeat(alloc, *count)?)?;
    }
    Ok(text)
}

// Returns whether a text spells a list of this size, and has this fault with one more line.
fn is_long(alloc: Global, (parts, size, added, fault): Long) -> Result<bool, AllocError> {
    let mut text = text_of(alloc, parts)?;
    let is_list = size_of(alloc, &text) == Ok(size);
    text.extend_from_slice(added)?;
    Ok(is_list && size_of(alloc, &text) == Err(fault))
}

mod ample {
    use super::*;

    // A name of a right outside the profile is refused as no name.
    #[test]
    fn a_profile_refuses_the_names_that_it_lacks(rt: HostRuntime) {
        let inherited = b"ALLOW INHERITED READ_DATA bob".as_slice();
        let retention = b"ALLOW - WRITE_RETENTION bob".as_slice();
        for text in [inherited, retention] {
            assert!(rt; spelled_within(rt.alloc(), text, Profile::FULL) == Ok(1));
        }
        let flag = AceTextFault::Flag { line: 1, column: 7 };
        assert!(rt; spelled_within(rt.alloc(), inherited, Profile::NARROW) == Err(flag));
        let mask = AceTextFault::Mask { line: 1, column: 9 };
        assert!(rt; spelled_within(rt.alloc(), retention, Profile::NARROW) == Err(mask));
    }

    #[test]
    fn texts_past_the_limits_are_refused(rt: HostRuntime) {
        for row in PAST_LIMITS {
            assert!(rt; is_long(rt.alloc(), row) == Ok(true), "{}", row.3);
        }
    }

    #[test]
    fn a_line_may_be_longer_than_4096_bytes(rt: HostRuntime) {
        for row in LONG_LINES {
            assert!(rt; is_long(rt.alloc(), row) == Ok(true), "{}", row.3);
        }
    }
}
