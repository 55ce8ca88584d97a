//! The tables again with ample memory: no call fails for lack of memory. The files of the tables have their expected
//! values and say where they are from. The mask that is added is worked by hand from POSIX.1e draft 17, section 23.4,
//! and which long texts are refused, and where, from docs/reference/formats.md ("Faults of POSIX texts").

use super::faults::{
    FAULTS, MESSAGES, is_judged, is_refused, is_refused_repeated, is_shown, zeros_are_read,
};
use super::harness::{DEFAULT, Memory, NO_OWNER, WITH_MASK, has_rows};
use super::names::add_each;
use super::samples::{LISTED, is_read, names_of};
use super::worked_lists;
use super::writing::TEXTS;
use acl_perm::Perm;
use acl_posix::*;
use std::alloc::{AllocError, Global};
use std::process::Abort;
use std::test::Fail;

#[test]
fn each_worked_list_gives_its_answers(rt: HostRuntime) {
    worked_lists(&rt, Memory::ample(rt.alloc()));
}

fn push_groups(entries: &mut Vec<Entry>, count: u32) -> Result<(), AllocError> {
    for number in 0..count {
        if let Some(id) = Id::new(number) {
            entries.push(Entry {
                tag: Tag::Group(id),
                perm: Perm::ALL,
            })?;
        }
    }
    Ok(())
}

// Makes a list of a hundred entries.
fn hundred_entries(memory: Memory) -> Result<PosixAcl, AclFault> {
    let mut entries = memory.entries(DEFAULT)?;
    push_groups(&mut entries, 95)?;
    PosixAcl::from_entries(memory.alloc, entries)
}

// Makes a copy of a list, and calculates its mask.
fn masked_copy(memory: Memory) -> Result<PosixAcl, Fail> {
    let acl = memory.acl(NO_OWNER)?;
    let mut added = acl.copy(memory.alloc)?;
    added.calc_mask()?;
    Ok(added)
}

// A list of a hundred entries is copied, and a mask is added to a copy of a short list.
#[test]
fn a_copy_equals_its_list_and_a_copy_can_get_a_mask(rt: HostRuntime) -> Result<(), Fail> {
    let memory = Memory::ample(rt.alloc());
    let acl = hundred_entries(memory)?;
    let copy = acl.copy(memory.alloc)?;
    assert!(rt; copy.entries().len() == 100);
    assert!(rt; copy == acl);
    let added = masked_copy(memory)?;
    assert!(rt; added != acl);
    assert!(rt; has_rows(&added, WITH_MASK));
    Ok(())
}

fn check_texts(rt: &impl Abort, alloc: Global, names: &Names) {
    for (text, form, wanted) in &TEXTS {
        assert!(rt; is_read(alloc, names, text, *form, wanted));
    }
}

#[test]
fn each_text_is_read_and_written_again(rt: HostRuntime) -> Result<(), Fail> {
    let names = names_of(rt.alloc()).ok_or("names are added")?;
    check_texts(&rt, rt.alloc(), &names);
    Ok(())
}

fn check_faults(rt: &impl Abort, alloc: Global, names: &Names) {
    for (text, wanted) in FAULTS {
        assert!(rt; is_refused(alloc, names, text, wanted), "{wanted}");
    }
}

#[test]
fn the_first_fault_of_a_text_is_reported(rt: HostRuntime) -> Result<(), Fail> {
    let names = names_of(rt.alloc()).ok_or("names are added")?;
    check_faults(&rt, rt.alloc(), &names);
    let nobody = Names::new(rt.alloc());
    let unknown = TextFault::UnknownName { line: 5, column: 6 };
    assert!(rt; is_refused(rt.alloc(), &nobody, LISTED, unknown));
    Ok(())
}

#[test]
fn the_message_of_an_invalid_text_names_its_cause(rt: HostRuntime) {
    for (fault, message) in MESSAGES {
        assert!(rt; is_shown(rt.alloc(), fault, message), "{message}");
    }
}

#[test]
fn each_beginning_of_a_text_is_read_or_has_a_fault_in_its_lines(
    rt: HostRuntime,
) -> Result<(), Fail> {
    let names = names_of(rt.alloc()).ok_or("names are added")?;
    for len in 0..=LISTED.len() {
        let (front, _) = LISTED.split_at(len.min(LISTED.len()));
        let fault = parse(rt.alloc(), front, &names).err();
        assert!(rt; is_judged(fault), "{len}");
    }
    Ok(())
}

// An id may begin with a thousand zeros, and a thousand nines are not an id. A text of a million commas is refused at
// the first comma.
#[test]
fn long_texts_are_read_or_refused(rt: HostRuntime) {
    let alloc = rt.alloc();
    assert!(rt; zeros_are_read(alloc));
    let id = TextFault::Id { line: 1, column: 3 };
    assert!(rt; is_refused_repeated(alloc, b"u:", b'9', 1000, b":r--", id));
    let empty = TextFault::EmptyEntry { line: 1, column: 1 };
    assert!(rt; is_refused_repeated(alloc, b"", b',', 1_000_000, b"", empty));
}

#[test]
fn a_name_is_added_once_as_a_user_and_once_as_a_group(rt: HostRuntime) -> Result<(), Fail> {
    let mut names = Names::new(rt.alloc());
    add_each(&rt, &mut names);
    let text = b"u::,u:7a:,g::,g:7a:,m::,o::";
    let wanted = b"u::---,u:1:---,g::---,g:2:---,m::---,o::---";
    assert!(rt; is_read(rt.alloc(), &names, text, AclTextForm::Short, wanted));
    Ok(())
}
