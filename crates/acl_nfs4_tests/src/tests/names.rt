//! The names and the numbers of RFC 8881: those of rights (section 6.2.1.3.1), of flags (section 6.2.1.4.1), and of the
//! special identifiers (section 6.2.1.5). The tests of `acl_perm` compare the table of the rights with the standard.

use acl_nfs4::*;
use acl_perm::internal::RIGHTS;
use std::alloc::Global;
use std::process::Abort;

fn names(number: u32, name: &str) -> bool {
    match read_mask(name.as_bytes()) {
        Some(mask) => mask.bits() == number,
        None => false,
    }
}

fn is_first_name(number: u32, name: &str) -> bool {
    match Mask::new(number) {
        Some(mask) => bit_name(mask) == Some(name),
        None => false,
    }
}

#[test]
fn each_right_has_its_name_and_number(rt: HostRuntime) {
    for row in &RIGHTS {
        assert!(rt; names(row.bit, row.name), "{}", row.name);
        assert!(rt; is_first_name(row.bit, row.name), "{}", row.name);
        if let Some(second) = row.second {
            assert!(rt; names(row.bit, second), "{second}");
        }
    }
}

// The flags of RFC 8881, section 6.2.1.4.1, and a line of a text that names each of them.
static FLAGS: [(u8, &str); 9] = [
    (0x01, "ALLOW FILE - a"),
    (0x02, "ALLOW DIR - a"),
    (0x04, "ALLOW NOPROP - a"),
    (0x08, "ALLOW INHERITONLY - a"),
    (0x10, "ALLOW SUCCESS - a"),
    (0x20, "ALLOW FAILED - a"),
    (0x40, "ALLOW GROUP - a"),
    (0x80, "ALLOW INHERITED - a"),
    (0, "ALLOW - - a"),
];

fn has_flags(list: &Acl, flags: u8) -> bool {
    match list.aces().next() {
        Some(ace) => ace.flags.bits() == flags,
        None => false,
    }
}

fn is_line_of_flags(alloc: Global, line: &str, flags: u8) -> Result<bool, AceTextFault> {
    match parse_text(alloc, line.as_bytes()) {
        Ok(list) => Ok(has_flags(&list, flags)),
        Err(fault) => Err(fault),
    }
}

// A who, and whom it names without a flag and with IDENTIFIER_GROUP (RFC 8881, section 6.2.1.5).
static WHOS: [(&[u8], Principal<'static>, Principal<'static>); 6] = [
    (b"OWNER@", Principal::Owner, Principal::Owner),
    (b"GROUP@", Principal::Group, Principal::Group),
    (b"EVERYONE@", Principal::Everyone, Principal::Everyone),
    (
        b"bob",
        Principal::User(b"bob"),
        Principal::GroupNamed(b"bob"),
    ),
    (
        b"OWNER",
        Principal::User(b"OWNER"),
        Principal::GroupNamed(b"OWNER"),
    ),
    (
        b"EVERYONE@x",
        Principal::User(b"EVERYONE@x"),
        Principal::GroupNamed(b"EVERYONE@x"),
    ),
];

// Returns whether a who with these flags names this principal.
fn is_principal(who: &[u8], flags: u32, principal: Principal<'_>) -> bool {
    let Some(flags) = Flags::new(flags) else {
        return false;
    };
    let ace = AceRef {
        kind: Kind::Allow,
        flags,
        mask: Mask::NONE,
        who,
    };
    ace.principal() == principal
}

// Flags, and whether an ACE with them applies to the object itself (RFC 8881, section 6.2.1.4.1).
static TAKING_PART: [(u32, bool); 6] = [
    (0, true),
    (0x08, false),
    (0x0b, false),
    (0xf7, true),
    (0xff, false),
    (0x40, true),
];

fn takes_part(flags: u32, kind: Kind) -> Option<bool> {
    let ace = AceRef {
        kind,
        flags: Flags::new(flags)?,
        mask: Mask::NONE,
        who: b"bob",
    };
    let key = ace.key();
    Some(ace.takes_part() && key.kind == kind && key.principal == ace.principal())
}

#[test]
fn an_ace_takes_part_unless_it_is_for_new_objects_alone(rt: HostRuntime) {
    for (flags, taken) in TAKING_PART {
        assert!(rt; takes_part(flags, Kind::Deny) == Some(taken), "{flags}");
    }
}

#[test]
fn special_whos_name_the_same_with_each_flag(rt: HostRuntime) {
    for (who, plain, grouped) in WHOS {
        assert!(rt; is_principal(who, 0, plain), "{who:?}");
        assert!(rt; is_principal(who, 0xbf, plain), "{who:?}");
        assert!(rt; is_principal(who, 0x40, grouped), "{who:?}");
    }
}

// A who, and the reason for which a list with it is refused. RFC 8881, section 6.2.1.5, has the special identifiers.
static JUDGED: [(&[u8], Option<Reason>); 14] = [
    (b"\x1f", Some(Reason::WhoControl)),
    (b"\x7f", Some(Reason::WhoControl)),
    (b"\0", Some(Reason::WhoControl)),
    (b"a\x1f", Some(Reason::WhoControl)),
    (b" ", None),
    (b"~", None),
    (b"\xc2\x80", None),
    (b"ANONYMOUS@", Some(Reason::SpecialWho)),
    (b"AUTHENTICATED@", Some(Reason::SpecialWho)),
    (b"SERVICE@", Some(Reason::SpecialWho)),
    (b"INTERACTIVE@", Some(Reason::SpecialWho)),
    (b"NETWORK@", Some(Reason::SpecialWho)),
    (b"DIALUP@", Some(Reason::SpecialWho)),
    (b"BATCH@", Some(Reason::SpecialWho)),
];

// Returns the list of ALLOW READ_DATA for a who of up to 16 bytes, and zero bytes after it.
fn list_with(who: &[u8]) -> [u8; 36] {
    let mut bytes = [0u8; 36];
    bytes[3] = 1;
    bytes[15] = 1;
    bytes[19] = u8::try_from(who.len()).unwrap_or(u8::MAX);
    for (to, from) in bytes.iter_mut().skip(20).zip(who) {
        *to = *from;
    }
    bytes
}

// Checks that a list with this who is refused for this reason, at the first byte of the who. If there is no reason, it
// checks that the list ends after the padding.
fn is_judged(who: &[u8], reason: Option<Reason>) -> bool {
    match AclView::parse(&list_with(who)) {
        Ok((_, len)) => reason.is_none() && len == 24,
        Err(fault) => fault.offset == 20 && reason == Some(fault.reason),
    }
}

#[test]
fn whos_are_plain_text_and_no_other_special_identifier(rt: HostRuntime) {
    for (who, reason) in JUDGED {
        assert!(rt; is_judged(who, reason), "{who:?}");
    }
}

mod ample {
    use super::*;

    #[test]
    fn each_flag_has_its_name(rt: HostRuntime) {
        for (flags, line) in FLAGS {
            assert!(rt;
                is_line_of_flags(rt.alloc(), line, flags) == Ok(true),
                "{line}"
            );
        }
    }
}
