//! The order of names that begin with the same bytes. It is the order of byte strings in Rust (`Ord` for slices, in the
//! documentation of std): byte by byte, and the beginning of a name before the name. That a normal form has each name
//! once follows from docs/reference/lists.md ("The normal form").

use super::harness::{GROUP, READ_DATA};
use acl_lists_for_tests::{ALLOW, ace_of, kept, passes};
use acl_nfs4::{Acl, PushFault};
use acl_normal::normalize;
use std::alloc::Global;
use std::process::Abort;

// The number of bytes with which all names of a list begin: fewer than, as many as and more than those that are
// compared as a number, and as many as fit before eight other bytes.
static STARTS: [usize; 7] = [0, 3, 4, 7, 8, 9, 1016];

// The ends of the names of a list as given and in order: in order already, out of order at the last place, out of order
// at the first place, with names that are there twice, and with names that are the beginning of others.
static ENDS: [(&[&[u8]], &[&[u8]]); 6] = [
    (&[b"a", b"b", b"c"], &[b"a", b"b", b"c"]),
    (&[b"b", b"c", b"a"], &[b"a", b"b", b"c"]),
    (&[b"c", b"a", b"b"], &[b"a", b"b", b"c"]),
    (&[b"b", b"a", b"b", b"a", b"a"], &[b"a", b"b"]),
    (&[b"ab", b"a", b"abc"], &[b"a", b"ab", b"abc"]),
    (
        &[b"1234567b", b"1234567a", b"1234567", b"1234567a"],
        &[b"1234567", b"1234567a", b"1234567b"],
    ),
];

// A list of names with this many equal bytes at the start and these ends.
fn list_of(alloc: Global, start: usize, flags: u32, ends: &[&[u8]]) -> Result<Acl, PushFault> {
    let mut list = Acl::new(alloc);
    for end in ends {
        let mut name = kept(vec![in alloc; b'x'; start])?;
        kept(name.extend_from_slice(end))?;
        if let Some(ace) = ace_of((ALLOW, flags, READ_DATA, &name)) {
            list.push(ace)?;
        }
    }
    Ok(list)
}

fn is_put_in_order(
    alloc: Global,
    start: usize,
    flags: u32,
    given: &[&[u8]],
    wanted: &[&[u8]],
) -> Result<bool, PushFault> {
    let list = list_of(alloc, start, flags, given)?;
    let sorted = list_of(alloc, start, flags, wanted)?;
    let form = kept(normalize(alloc, &list))?;
    Ok(form == sorted)
}

/// In a normal form, users and groups are in the order of their names, each once.
pub fn names(rt: &impl Abort, alloc: Global) -> Result<(), PushFault> {
    for start in &STARTS {
        for (given, wanted) in &ENDS {
            assert!(rt; is_put_in_order(alloc, *start, 0, given, wanted)?);
            assert!(rt; is_put_in_order(alloc, *start, GROUP, given, wanted)?);
        }
    }
    Ok(())
}

#[test]
fn the_normal_form_has_each_name_once_in_order(rt: HostRuntime) {
    assert!(rt; passes(names(&rt, rt.alloc())));
}
