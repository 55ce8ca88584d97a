//! Calls with many entries, to count their instructions: `bench/posix_calls` runs each test alone.

ghost use Rattle.std.specs.Prelude.{◌<◌};

use acl_perm::Perm;
use acl_posix::*;
use std::alloc::{AllocError, Global};

// The step between ids that are in no order. With a step of 1 they are in canonical order.
const LARGE_PRIME: u32 = 7919;

fn push(entries: &mut Vec<Entry>, tag: Tag) -> Result<(), AllocError> {
    let perm = Perm::ALL;
    entries.push(Entry { tag, perm })?;
    Ok(())
}

// Adds users or groups with all ids below a number, in steps of this size.
fn push_each(
    entries: &mut Vec<Entry>,
    is_group: bool,
    count: u32,
    step: u32,
) -> Result<(), AllocError>
    requires { 0 < count }
{
    for number in 0..count {
        if let Some(id) = Id::new(number.wrapping_mul(step) % count) {
            push(
                entries,
                if is_group {
                    Tag::Group(id)
                } else {
                    Tag::User(id)
                },
            )?;
        }
    }
    Ok(())
}

// Adds the entries without a qualifier, and `count` users and as many groups.
fn push_all(entries: &mut Vec<Entry>, count: u32, step: u32) -> Result<(), AllocError>
    requires { 0 < count }
{
    push(entries, Tag::UserObj)?;
    push_each(entries, false, count, step)?;
    push(entries, Tag::GroupObj)?;
    push_each(entries, true, count, step)?;
    push(entries, Tag::Mask)?;
    push(entries, Tag::Other)
}

fn entries_of(alloc: Global, count: u32, step: u32) -> Result<Vec<Entry>, AllocError>
    requires { 0 < count }
{
    let mut entries = Vec::new(alloc);
    push_all(&mut entries, count, step)?;
    Ok(entries)
}

fn acl_of(alloc: Global, count: u32, step: u32) -> Result<PosixAcl, AclFault>
    requires { 0 < count }
{
    let entries = entries_of(alloc, count, step)?;
    PosixAcl::from_entries(alloc, entries)
}

// Returns how often, out of ten thousand times, a user in sixteen groups is granted all permissions. Neither the user
// nor the groups have an entry.
fn count_granted(acl: &PosixAcl) -> usize {
    let (owner, group, user) = (
        Id { value: 4000000001 },
        Id { value: 4000000002 },
        Id { value: 4000000003 },
    );
    let groups = [Id { value: 4000000000 }; 16];
    (0..10000usize)
        .filter(|_| acl.check(owner, group, user, &groups, Perm::ALL))
        .count()
}

// Returns whether an ACL has this number of entries, unless memory runs out.
fn has_len(alloc: Global, count: u32, step: u32, len: usize) -> bool
    requires { 0 < count }
{
    match acl_of(alloc, count, step) {
        Ok(acl) => acl.entries().len() == len,
        Err(_) => true,
    }
}

// Returns whether all ten thousand checks of an ACL grant, unless memory runs out.
fn grants_all(alloc: Global, count: u32) -> bool
    requires { 0 < count }
{
    match acl_of(alloc, count, LARGE_PRIME) {
        Ok(acl) => count_granted(&acl) == 10000,
        Err(_) => true,
    }
}

#[test]
fn the_input_has_1000_entries(rt: HostRuntime) {
    let entries = entries_of(rt.alloc(), 498, LARGE_PRIME);
    assert!(rt; entries.map_or(true, |entries| entries.len() == 1000));
}

#[test]
fn the_input_has_10000_entries(rt: HostRuntime) {
    let entries = entries_of(rt.alloc(), 4998, LARGE_PRIME);
    assert!(rt; entries.map_or(true, |entries| entries.len() == 10000));
}

#[test]
fn an_acl_is_made_of_1000_ordered_entries(rt: HostRuntime) {
    assert!(rt; has_len(rt.alloc(), 498, 1, 1000));
}

#[test]
fn an_acl_is_made_of_10000_ordered_entries(rt: HostRuntime) {
    assert!(rt; has_len(rt.alloc(), 4998, 1, 10000));
}

#[test]
fn an_acl_is_made_of_1000_shuffled_entries(rt: HostRuntime) {
    assert!(rt; has_len(rt.alloc(), 498, LARGE_PRIME, 1000));
}

#[test]
fn an_acl_is_made_of_10000_shuffled_entries(rt: HostRuntime) {
    assert!(rt; has_len(rt.alloc(), 4998, LARGE_PRIME, 10000));
}

#[test]
fn an_acl_of_1000_entries_grants_each_check(rt: HostRuntime) {
    assert!(rt; grants_all(rt.alloc(), 498));
}

#[test]
fn an_acl_of_10000_entries_grants_each_check(rt: HostRuntime) {
    assert!(rt; grants_all(rt.alloc(), 4998));
}
