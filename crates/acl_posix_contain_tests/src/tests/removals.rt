//! What an ACL keeps under a bound, by brute force: all ways to take read out of its entries, each asked about for all
//! requesters in a small world by the access check (acl(5), "ACCESS CHECK ALGORITHM"). In it are two users and two
//! groups that the ACLs name, and one of each that they do not name.

use acl_perm::Perm;
use acl_posix::{Id, Names, PosixAcl, Tag, parse};
use acl_posix_contain::restricted;
use std::alloc::Global;
use std::test::Fail;

const ONE: Id = Id { value: 1 };

const TWO: Id = Id { value: 2 };

const NEW: Id = Id { value: 9 };

const IDS: [Id; 3] = [ONE, TWO, NEW];

static ACLS: [&[u8]; 11] = [
    b"u::r--,g::r--,o::r--",
    b"u::---,g::---,o::r--",
    b"u::r--,g::r--,o::---",
    b"u::r--,u:1:r--,g::---,m::r--,o::r--",
    b"u::r--,u:1:---,g::r--,m::r--,o::r--",
    b"u::r--,g::r--,g:1:---,m::r--,o::r--",
    b"u::r--,g::---,g:1:r--,m::r--,o::---",
    b"u::---,g::r--,g:1:r--,g:2:---,m::r--,o::r--",
    b"u::r--,g::---,g:2:r--,m::---,o::r--",
    b"u::r--,u:1:r--,g::r--,g:1:r--,m::r--,o::r--",
    b"u::r--,u:1:r--,u:2:---,g::r--,g:2:r--,m::r--,o::r--",
];

fn read(alloc: Global, text: &[u8]) -> Result<PosixAcl, Fail> {
    let names = Names::new(alloc);
    Ok(parse(alloc, text, &names)?.access)
}

// Whether an ACL grants read only to whom a bound grants it.
fn is_at_most(acl: &PosixAcl, bound: &PosixAcl) -> bool {
    let sets: [&[Id]; 8] = [
        &[],
        &[ONE],
        &[TWO],
        &[NEW],
        &[ONE, TWO],
        &[ONE, NEW],
        &[TWO, NEW],
        &[ONE, TWO, NEW],
    ];
    for owner in IDS {
        for group in IDS {
            for user in IDS {
                for groups in sets {
                    if acl.check(owner, group, user, groups, Perm::READ)
                        && !bound.check(owner, group, user, groups, Perm::READ)
                    {
                        return false;
                    }
                }
            }
        }
    }
    true
}

// The ACL of which some entries keep read: those whose binary digit of a number is 1.
fn cut(alloc: Global, acl: &PosixAcl, number: u32) -> Result<PosixAcl, Fail> {
    let mut cut = acl.copy(alloc)?;
    let mut digits = number;
    for entry in acl.entries() {
        if digits % 2 == 0 && entry.tag != Tag::Mask {
            cut.set(entry.tag, Perm::NONE)?;
        }
        digits /= 2;
    }
    Ok(cut)
}

// What all removals of read that are at most the bound keep together.
fn together(alloc: Global, acl: &PosixAcl, bound: &PosixAcl) -> Result<PosixAcl, Fail> {
    let mut most = cut(alloc, acl, 0)?;
    let count = acl
        .entries()
        .iter()
        .fold(1u32, |count, _| count.saturating_mul(2));
    for number in 0..count {
        let removal = cut(alloc, acl, number)?;
        if is_at_most(&removal, bound) {
            for entry in removal.entries() {
                if entry.perm == Perm::READ {
                    most.set(entry.tag, Perm::READ)?;
                }
            }
        }
    }
    Ok(most)
}

mod ample {
    use super::*;

    #[test]
    fn an_acl_keeps_what_all_removals_at_most_the_bound_keep(rt: HostRuntime) -> Result<(), Fail> {
        let alloc = rt.alloc();
        for text in ACLS {
            let acl = read(alloc, text)?;
            for limit in ACLS {
                let bound = read(alloc, limit)?;
                let kept = restricted(alloc, &acl, &bound)?;
                assert!(rt; kept == together(alloc, &acl, &bound)? && is_at_most(&kept, &bound));
                assert!(rt; (kept == acl) == acl.excess(&bound).is_none());
            }
        }
        Ok(())
    }
}
