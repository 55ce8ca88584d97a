//! Bytes that spell a list, and bytes that have a fault. The offsets are those of the fields in the layout of RFC 4506,
//! sections 4.2, 4.10 and 4.13, over RFC 8881, section 6.2.1; the limits and the reasons are those of
//! docs/reference/formats.md.

use super::harness::is_displayed_as;
use super::readers::ONE;
use acl_lists_for_tests::kept;
use acl_nfs4::*;
use std::alloc::{AllocError, Global};
use std::process::Abort;

fn fault(offset: u64, reason: Reason) -> Option<Fault> {
    Some(Fault { offset, reason })
}

// Returns the list with its bytes replaced from a place on.
fn with(at: usize, bytes: &[u8]) -> [u8; 44] {
    let mut whole = [0u8; 44];
    for (to, from) in whole.iter_mut().zip(ONE) {
        *to = from;
    }
    for (to, from) in whole.iter_mut().skip(at).zip(bytes) {
        *to = *from;
    }
    whole
}

fn check_one(rt: &impl Abort, list: &AclView<'_>) {
    let mut aces = list.aces();
    let Some(ace) = aces.next() else {
        assert!(rt; false, "one ACE");
        return;
    };
    assert!(rt; (ace.kind, ace.flags, ace.mask.bits()) == (Kind::Allow, Flags::NONE, 1));
    assert!(rt; ace.who == b"EVERYONE@".as_slice());
    assert!(rt; ace.principal() == Principal::Everyone);
    assert!(rt; aces.next().is_none());
}

#[test]
fn a_list_at_the_front_is_found(rt: HostRuntime) -> Result<(), Fault> {
    let (empty, len) = AclView::parse(&[0, 0, 0, 0, 9])?;
    assert!(rt; len == 4);
    assert!(rt; empty.aces().next().is_none());
    let (list, len) = AclView::parse(&ONE)?;
    assert!(rt; len == 32);
    check_one(&rt, &list);
    Ok(())
}

// A place, the bytes from there on, and the fault of the list with these bytes.
static DAMAGED: [(usize, &[u8], u64, Reason); 12] = [
    (4, &[0, 0, 0, 2], 4, Reason::AuditOrAlarm),
    (4, &[0, 0, 0, 3], 4, Reason::AuditOrAlarm),
    (4, &[0, 0, 0, 4], 4, Reason::AceType),
    (8, &[0, 0, 1, 0], 8, Reason::FlagBits),
    (12, &[0, 0, 8, 0], 12, Reason::MaskBits),
    (16, &[0, 0, 0, 0], 16, Reason::WhoLength),
    (16, &[0, 0, 4, 1], 16, Reason::WhoLength),
    (16, b"\0\0\0\x0cINTERACTIVE@", 20, Reason::SpecialWho),
    (16, b"\0\0\0\x01\xff\0\0\0", 20, Reason::WhoUtf8),
    (16, b"\0\0\0\x01\x09\0\0\0", 20, Reason::WhoControl),
    (4, &[0, 0, 0, 2, 0, 0, 1, 0], 4, Reason::AuditOrAlarm),
    (29, &[0, 0, 1], 29, Reason::Padding),
];

// Each reason for which a field is refused, at the first byte of the field.
#[test]
fn each_fault_is_reported_at_the_first_byte_of_its_field(rt: HostRuntime) {
    for (at, bytes, offset, reason) in DAMAGED {
        let found = AclView::parse(&with(at, bytes)).err();
        assert!(rt; found == fault(offset, reason), "{reason:?}");
    }
    assert!(rt; AclView::parse(&[0, 1, 0, 1]).err() == fault(0, Reason::TooManyAces));
}

// Returns where the field begins in which a list of this many bytes is cut short.
fn cut_at(length: usize) -> u64 {
    match length {
        0..=3 => 0,
        4..=7 => 4,
        8..=11 => 8,
        12..=15 => 12,
        16..=19 => 16,
        20..=28 => 20,
        _ => 29,
    }
}

// The list is cut short at each length, and has one byte more.
#[test]
fn a_list_that_is_cut_short_is_refused_as_truncated(rt: HostRuntime) {
    for length in 0..32usize {
        let (cut, _) = ONE.split_at(length);
        let truncated = fault(cut_at(length), Reason::Truncated);
        let found = (AclView::parse(cut).err(), AclView::parse_whole(cut).err());
        assert!(rt; found == (truncated, truncated), "{length}");
    }
    let whole = with(0, &[]);
    let (longer, _) = whole.split_at(33);
    assert!(rt; AclView::parse(longer).is_ok_and(|(_, len)| len == 32));
    assert!(rt; AclView::parse_whole(longer).err() == fault(32, Reason::TrailingBytes));
    assert!(rt; AclView::parse_whole(&ONE).is_ok());
}

// Returns a list that has ALLOW with this mask for EVERYONE@ this many times.
fn repeated(alloc: Global, count: u32, mask: u32) -> Result<Vec<u8>, AllocError> {
    let mut bytes = Vec::new(alloc);
    bytes.extend_from_slice(&count.to_be_bytes())?;
    for _ in 0..count {
        bytes.extend_from_slice(&[0; 8])?;
        bytes.extend_from_slice(&mask.to_be_bytes())?;
        bytes.extend_from_slice(b"\0\0\0\x09EVERYONE@\0\0\0")?;
    }
    Ok(bytes)
}

// Checks the answer for a list that has this many ACEs with one mask.
fn check_weight(
    rt: &impl Abort,
    bytes: &[u8],
    profile: Profile,
    count: u32,
    expected: Option<Fault>,
) {
    let found = AclView::parse_whole_with(bytes, profile);
    assert!(rt;
        expected.is_some() || found.is_ok_and(|view| view.aces().count() == count as usize)
    );
    let found = AclView::parse_with(bytes, profile).err();
    assert!(rt; found == expected, "{count}");
}

/// Checks that the weight of a list is limited, and that the bits of a mask are judged before the weight.
pub fn the_weight_of_a_list_is_limited(rt: &impl Abort, alloc: Global) -> Result<(), PushFault> {
    for (profile, count, mask, expected) in [
        (Profile::FULL, 4_096, 0x001f_07ff, None),
        (
            Profile::FULL,
            4_097,
            0x001f_07ff,
            fault(114_700, Reason::TooHeavy),
        ),
        (
            Profile::NARROW,
            4_096,
            0x001f_07ff,
            fault(12, Reason::MaskBits),
        ),
        (Profile::NARROW, 4_681, 0x001f_01ff, None),
        (
            Profile::NARROW,
            4_682,
            0x001f_01ff,
            fault(131_080, Reason::TooHeavy),
        ),
    ] {
        let bytes = kept(repeated(alloc, count, mask))?;
        check_weight(rt, &bytes, profile, count, expected);
    }
    Ok(())
}

// Checks the answer for a list under the narrow profile, and that it is a list under the full profile.
fn is_narrowed(whole: &[u8], narrow: Option<Fault>) -> bool {
    AclView::parse_with(whole, Profile::NARROW).err() == narrow
        && AclView::parse_whole_with(whole, Profile::NARROW).err() == narrow
        && AclView::parse_with(whole, Profile::FULL).is_ok()
        && AclView::parse_whole(whole).is_ok()
}

// The list of one ACE with words replaced, under the narrow profile and under the full profile.
#[test]
fn a_profile_refuses_the_bits_that_it_lacks(rt: HostRuntime) {
    let rows: [(usize, &[u8], Option<Fault>); 6] = [
        (12, &[0, 0, 2, 0], fault(12, Reason::MaskBits)),
        (12, &[0, 0, 4, 0], fault(12, Reason::MaskBits)),
        (12, &[0, 0x1f, 1, 0xff], None),
        (8, &[0, 0, 0, 0x80], fault(8, Reason::FlagBits)),
        (8, &[0, 0, 0, 0x40], None),
        (8, &[0, 0, 0, 0x7f], None),
    ];
    for (at, bytes, narrow) in rows {
        let longer = with(at, bytes);
        let (whole, _) = longer.split_at(32);
        assert!(rt; is_narrowed(whole, narrow), "{at}");
    }
}

static LINES: [(Reason, &str); 15] = [
    (Reason::Truncated, "Truncated at byte 7"),
    (Reason::TooManyAces, "TooManyAces at byte 7"),
    (Reason::AuditOrAlarm, "AuditOrAlarm at byte 7"),
    (Reason::AceType, "AceType at byte 7"),
    (Reason::FlagBits, "FlagBits at byte 7"),
    (Reason::MaskBits, "MaskBits at byte 7"),
    (Reason::TooHeavy, "TooHeavy at byte 7"),
    (Reason::WhoLength, "WhoLength at byte 7"),
    (Reason::WhoUtf8, "WhoUtf8 at byte 7"),
    (Reason::WhoControl, "WhoControl at byte 7"),
    (Reason::SpecialWho, "SpecialWho at byte 7"),
    (Reason::Padding, "Padding at byte 7"),
    (Reason::TrailingBytes, "TrailingBytes at byte 7"),
    (Reason::Read, "Read at byte 7"),
    (Reason::Memory, "Memory at byte 7"),
];

static MASKS: [(&str, Option<u32>); 10] = [
    ("-", Some(0)),
    ("READ_DATA", Some(1)),
    ("LIST_DIRECTORY", Some(1)),
    ("ADD_FILE|LIST_DIRECTORY", Some(3)),
    ("EXECUTE|EXECUTE|SYNCHRONIZE", Some(0x0010_0020)),
    ("", None),
    ("-|EXECUTE", None),
    ("EXECUTE|", None),
    ("execute", None),
    ("NOTHING", None),
];

#[test]
fn masks_are_read_by_their_names(rt: HostRuntime) {
    for (field, bits) in MASKS {
        let found = read_mask(field.as_bytes()).map(|mask| mask.bits());
        assert!(rt; found == bits, "{field}");
    }
}

mod ample {
    use super::*;

    #[test]
    fn each_fault_has_its_message(rt: HostRuntime) {
        for (reason, line) in LINES {
            let fault = Fault { offset: 7, reason };
            assert!(rt;
                is_displayed_as(rt.alloc(), &fault, line) == Ok(true),
                "{line}"
            );
        }
    }
}
