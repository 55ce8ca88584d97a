//! The answers when an ACE is pushed. RFC 3629, sections 3 and 4, says which bytes are UTF-8, and RFC 8881, section
//! 6.2.1.5, has the special identifiers; the limits and the order of the answers are those of
//! docs/reference/formats.md.

use super::harness::is_displayed_as;
use super::rows::{EVERYONE, check_copy, shows};
use acl_lists_for_tests::{ace_of, built, repeated};
use acl_nfs4::PushFault::{
    Memory, SpecialWho, TooHeavy, TooManyAces, WhoControl, WhoLength, WhoUtf8,
};
use acl_nfs4::*;
use std::alloc::Global;
use std::process::Abort;

// Pushes an ACE with this mask and who, and checks the answer and the list after it. The list stays as it was if the
// ACE is refused or memory runs out.
fn check_push(
    rt: &impl Abort,
    alloc: Global,
    mask: u32,
    who: &'static [u8],
    answer: Result<(), PushFault>,
) -> Result<(), PushFault> {
    let row = (Kind::Allow, 0, mask, who);
    let mut list = built(alloc, &[EVERYONE])?;
    if let Some(ace) = ace_of(row) {
        let pushed = list.push(ace);
        assert!(rt; pushed == answer || pushed == Err(Memory));
        let both = [EVERYONE, row];
        let (after, _) = both.split_at(if pushed.is_ok() { 2 } else { 1 });
        assert!(rt; shows(list.aces(), after));
        if pushed == Err(Memory) {
            return pushed;
        }
    }
    Ok(())
}

/// Pushes an ACE with each of nine whos: valid ones, and at least one for each fault of a who.
pub fn a_push_is_judged_by_its_who(rt: &impl Abort, alloc: Global) -> Result<(), PushFault> {
    let rows: [(&'static [u8], Result<(), PushFault>); 9] = [
        (b"", Err(WhoLength)),
        (&[b'a'; 1024], Ok(())),
        (&[0xff; 1025], Err(WhoLength)),
        (b"\xff\x09", Err(WhoUtf8)),
        (b"\x09@", Err(WhoControl)),
        (b"\xc3\xa9\x7f", Err(WhoControl)),
        (b"owner@", Err(SpecialWho)),
        (b"OWNER@x", Ok(())),
        (b"OWNER@", Ok(())),
    ];
    for (who, answer) in rows {
        check_push(rt, alloc, 1, who, answer)?;
    }
    Ok(())
}

// Returns the answer of a list to an ACE with this mask and an empty who.
fn push_nameless(list: &mut Acl, mask: u32) -> Option<Result<(), PushFault>> {
    let ace = ace_of((Kind::Allow, 0, mask, b""))?;
    Some(list.push(ace))
}

fn check_heavy_list(rt: &impl Abort, alloc: Global) -> Result<(), PushFault> {
    let mut heavy = repeated(alloc, 4_096, (Kind::Allow, 0, 0x001f_07ff, b"a"))?;
    assert!(rt; heavy.weight() == 65_536);
    assert!(rt; push_nameless(&mut heavy, 1) == Some(Err(TooHeavy)));
    assert!(rt; push_nameless(&mut heavy, 0) == Some(Err(WhoLength)));
    assert!(rt; heavy.len() == 4_096);
    Ok(())
}

static LINES: [(PushFault, &str); 7] = [
    (TooManyAces, "TooManyAces"),
    (TooHeavy, "TooHeavy"),
    (WhoLength, "WhoLength"),
    (WhoUtf8, "WhoUtf8"),
    (WhoControl, "WhoControl"),
    (SpecialWho, "SpecialWho"),
    (Memory, "out of memory"),
];

mod ample {
    use super::*;

    // The number of ACEs and then the weight are judged before the who.
    #[test]
    fn a_full_list_takes_no_more(rt: HostRuntime) -> Result<(), PushFault> {
        let mut list = repeated(rt.alloc(), 65_536, (Kind::Allow, 0, 0, b"a"))?;
        assert!(rt; push_nameless(&mut list, 1) == Some(Err(TooManyAces)));
        assert!(rt; list.len() == 65_536);
        assert!(rt; list.weight() == 0);
        assert!(rt; check_copy(&rt, rt.alloc(), &list).is_ok());
        check_heavy_list(&rt, rt.alloc())
    }

    #[test]
    fn each_refusal_has_its_message(rt: HostRuntime) {
        for (fault, line) in LINES {
            assert!(rt;
                is_displayed_as(rt.alloc(), &fault, line) == Ok(true),
                "{line}"
            );
        }
    }
}
