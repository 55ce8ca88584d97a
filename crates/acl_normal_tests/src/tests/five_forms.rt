//! The five forms of lists of one ACE, by its flags (the rules of creation in docs/reference/lists.md, over RFC 8881,
//! section 6.2.1.4.1).

use super::harness::READ_DATA;
use acl_lists_for_tests::{ALLOW, built, kept, passes};
use acl_nfs4::{Acl, PushFault};
use acl_normal::*;
use acl_perm::Counted;
use std::alloc::{AllocError, Global};
use std::process::Abort;

// The flags of an ACE that lets alice read, and whether she may read the object, a new file, a new directory, and a new
// file and a new directory in the new directory.
static INHERITED: [(u32, [bool; 5]); 8] = [
    (0x06, [true, false, true, false, false]),
    (0x01, [true, true, false, true, false]),
    (0x03, [true, true, true, true, true]),
    (0x0b, [false, true, true, true, true]),
    (0x05, [true, true, false, false, false]),
    (0x02, [true, false, true, false, true]),
    (0x00, [true, false, false, false, false]),
    (0x80, [true, false, false, false, false]),
];

fn reading(alloc: Global, flags: u32) -> Result<Acl, PushFault> {
    built(alloc, &[(ALLOW, flags, READ_DATA, b"alice".as_slice())])
}

fn forms_of(alloc: Global, flags: u32) -> Result<FiveForms, PushFault> {
    let list = reading(alloc, flags)?;
    kept(normalize_inherit(alloc, &list))
}

// Returns whether the form lets alice read, or is empty if she may not.
fn is_form(form: &Acl, reads: bool, alice: &Acl) -> bool {
    if reads {
        form == alice
    } else {
        form.is_empty()
    }
}

fn are_forms(forms: &FiveForms, reads: &[bool; 5], alice: &Acl) -> bool {
    is_form(&forms.object, reads[0], alice)
        && is_form(&forms.file, reads[1], alice)
        && is_form(&forms.directory, reads[2], alice)
        && is_form(&forms.file_in_directory, reads[3], alice)
        && is_form(&forms.directory_in_directory, reads[4], alice)
}

/// Each list has the five forms that its flags give.
pub fn five_forms(rt: &impl Abort, alloc: Global) -> Result<(), PushFault> {
    let alice = reading(alloc, 0)?;
    for (flags, reads) in &INHERITED {
        assert!(rt; are_forms(&forms_of(alloc, *flags)?, reads, &alice));
    }
    Ok(())
}

#[test]
fn each_of_the_five_forms_has_an_ace_if_its_flags_reach_there(rt: HostRuntime) {
    assert!(rt; passes(five_forms(&rt, rt.alloc())));
}

fn is_same(alloc: Global, forms: &FiveForms, other: &FiveForms) -> Result<bool, AllocError> {
    let copy = forms.copy(alloc)?;
    Ok(copy == *other)
}

/// The five forms of two lists are equal if and only if both lists let alice read at the same paths.
pub fn equal_forms(rt: &impl Abort, alloc: Global) -> Result<(), PushFault> {
    for (flags, reads) in &INHERITED {
        let forms = forms_of(alloc, *flags)?;
        for (other_flags, other_reads) in &INHERITED {
            let other = forms_of(alloc, *other_flags)?;
            assert!(rt; kept(is_same(alloc, &forms, &other))? == (reads == other_reads));
        }
    }
    Ok(())
}

#[test]
fn five_forms_are_equal_if_the_lists_grant_the_same_at_the_five_paths(rt: HostRuntime) {
    assert!(rt; passes(equal_forms(&rt, rt.alloc())));
}

// The five forms of an ACE that only directories inherit, and that they do not pass on: the ACE of alice in the first
// and the third, and three empty lists.
const SPELLED: &[u8; 68] = b"\0\0\0\x01\0\0\0\0\0\0\0\0\0\0\0\x01\0\0\0\x05alice\0\0\0\
    \0\0\0\0\
    \0\0\0\x01\0\0\0\0\0\0\0\0\0\0\0\x01\0\0\0\x05alice\0\0\0\
    \0\0\0\0\0\0\0\0";

// How many bytes of the five forms were written into a buffer, and how many the fault reports.
fn written(forms: &FiveForms, room: &mut [u8]) -> (usize, Option<u64>) {
    let size = room.len();
    let mut sink = Counted::new(room);
    let answer = forms.encode(&mut sink);
    let left = sink.into_inner().len();
    (
        size.saturating_sub(left),
        answer.err().map(|fault| fault.written),
    )
}

/// In a buffer of n bytes, the first n bytes are written and the fault reports n.
pub fn cut_forms(rt: &impl Abort, alloc: Global) -> Result<(), PushFault> {
    let forms = forms_of(alloc, 0x06)?;
    for size in 0..SPELLED.len() {
        let mut room = [0u8; 68];
        assert!(rt; written(&forms, &mut room[..size]) == (size, Some(size as u64)));
        assert!(rt; &room[..size] == &SPELLED[..size]);
    }
    let mut room = [0u8; 68];
    assert!(rt; written(&forms, &mut room) == (68, None));
    assert!(rt; &room == SPELLED);
    Ok(())
}

#[test]
fn encode_of_five_forms_ends_at_the_write_that_fails(rt: HostRuntime) {
    assert!(rt; passes(cut_forms(&rt, rt.alloc())));
}

/// The empty list takes 4 bytes, and an ACE of alice takes 24 more.
pub fn lengths(rt: &impl Abort, alloc: Global) -> Result<(), PushFault> {
    assert!(rt; Acl::new(alloc).encoded_len() == 4);
    assert!(rt; reading(alloc, 0)?.encoded_len() == 28);
    Ok(())
}

#[test]
fn encoded_len_is_the_number_of_bytes_that_spell_a_list(rt: HostRuntime) {
    assert!(rt; passes(lengths(&rt, rt.alloc())));
}
