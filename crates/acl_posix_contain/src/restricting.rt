//! The most that an ACL may keep under a bound: permissions are taken out of its entries.
ghost use Rattle.std.specs.Prelude.{◌↔◌, ◌≡◌, IfOk, IsSome};
ghost use Rattle.std.specs.FinMap as set;
ghost use Rattle.acl_posix.specs.Entries.{Entries, pairs};
ghost use Rattle.acl_posix.specs.Excess.{GrantsNothingMore};
ghost use Rattle.acl_posix.specs.Tag.{tag_of};
ghost use Rattle.acl_posix.specs.Valid.{IsValid};
ghost use Rattle.acl_posix_contain.specs.Removal.{GrantsNothingMoreSingly, IsGreatestPosixRemoval, IsPosixRemoval};
ghost use Rattle.acl_posix_contain.specs.internal.Limits.{IsPosixRestricted};

mod limits;

use acl_perm::Perm;
use acl_posix::{Entry, PosixAcl, Tag};
use limits::Limits;
use std::alloc::{AllocError, Global};

/// Takes permissions out of the entries of an ACL until it grants read, write and execute, each by itself, only to whom
/// a bound grants it, and returns the ACL. MASK keeps its permissions. Of all ACLs that are made in this way, it is the
/// one that keeps most (this library's own, over acl(5), "ACCESS CHECK ALGORITHM"). A permission of an entry goes if and
/// only if the entry grants it to somebody whom the bound denies it, so one that MASK lacks stays. It takes time n log n
/// for n entries in both ACLs, and one table of the entries of the ACL. Fails if memory runs out.
///
/// ```rust
/// let names = Names::new(alloc);
/// let acl = parse(alloc, b"u::rw-,u:7:rw-,g::r--,m::rw-,o::r--", &names)?.access;
/// let bound = parse(alloc, b"u::rw-,u:7:r--,g::r--,m::r--,o::---", &names)?.access;
/// let kept = restricted(alloc, &acl, &bound)?;
/// assert!(rt; kept == parse(alloc, b"u::rw-,u:7:r--,g::r--,m::rw-,o::---", &names)?.access);
/// ```
pub fn restricted(alloc: Global, acl: &PosixAcl, bound: &PosixAcl) -> Result<PosixAcl, AllocError>
    // A valid ACL with the same entries without some permissions, which grants at most what the ACL grants, and no more
    // of each permission than the bound.
    ensures valid { IfOk result IsValid }
    ensures removal { IfOk result (IsPosixRemoval acl.now) }
    ensures at_most_list { IfOk result (λ kept. GrantsNothingMore kept acl.now) }
    ensures at_most_bound { IfOk result (λ kept. GrantsNothingMoreSingly kept bound.now) }
    // Each other such ACL is made of the result by taking out more, and grants at most what the result grants.
    ensures greatest { IfOk result (IsGreatestPosixRemoval acl.now bound.now) }
    ensures most { IfOk result (λ kept. (other : Entries) → IsPosixRemoval acl.now other
        → GrantsNothingMoreSingly other bound.now → GrantsNothingMore other kept) }
    // The ACL itself if and only if it grants no more of each permission than the bound.
    ensures unchanged { IfOk result (λ kept. (kept ≡ acl.now)
        ↔ GrantsNothingMoreSingly acl.now bound.now) }
{
    without_excess(alloc, acl, bound)
}

// The ACL without the permissions that exceed the bound.
fn without_excess(alloc: Global, acl: &PosixAcl, bound: &PosixAcl) -> Result<PosixAcl, AllocError>
    ensures valid { IsValid acl.now }
    ensures kept { IfOk result (IsPosixRestricted acl.now bound.now) }
{
    let entries = acl.entries();
    let mut kept = acl.copy(alloc)?;
    take_excess(&mut kept, entries, acl, bound);
    Ok(kept)
}

// Takes the permissions that exceed the bound out of a copy of the ACL.
fn take_excess(kept: &mut PosixAcl, entries: &[Entry], acl: &PosixAcl, bound: &PosixAcl)
    requires entries { pairs entries.now ≡ set.entries acl.now }
    requires valid { IsValid acl.now }
    requires copy { kept.old ≡ acl.now }
    ensures { IsPosixRestricted acl.now bound.now kept.new }
{
    let limits = Limits::of(acl, bound);
    for entry in entries {
        put(kept, entry.tag, limits.kept(acl, bound, *entry));
    }
}

// Sets the permissions of an entry.
fn put(acl: &mut PosixAcl, tag: Tag, perm: Perm)
    requires { IsSome (set.get acl.old (tag_of tag)) }
    ensures { acl.new ≡ set.insert acl.old (tag_of tag) perm.bits }
{
    // An entry that is there needs no memory.
    let _done = acl.set(tag, perm);
}
