//! Sorts entries into canonical order.
ghost use Rattle.std.specs.Prelude.{◌≡◌, ◌↔◌, true, IfErr, IfOk, IsOk, IsTrue, OnOk};
ghost use Rattle.acl_posix.specs.declared.fault.AclFault.TheVariants.{Memory};
ghost use Rattle.acl_posix.specs.Tag.{tag_of};
ghost use Rattle.acl_posix.specs.Entries.{as_set, IsSorted, pairs};
ghost use Rattle.acl_posix.specs.Valid.{is_refusal, IsDistinct, IsFaultOf};
ghost use Rattle.acl_posix.specs.internal.RepeatFault.{repeat_fault};

use crate::entry::Entry;
use crate::fault::AclFault;
use crate::packed::{put_keys, rises, sorted_keys};
use crate::sorted::SortedEntries;
use crate::tag::Tag;
use std::alloc::{AllocError, Global};
use std::collections::BTreeMap;

impl SortedEntries {
    /// Returns the entries in canonical order, or the fault of the first entry whose tag an earlier entry has too. If
    /// they are already in that order, this takes no memory.
    pub(crate) fn from_entries(
        alloc: Global,
        entries: Vec<Entry>,
    ) -> Result<SortedEntries, AclFault>
        ensures set { IfOk result (λ sorted. sorted ≡ as_set (pairs entries.items)) }
        ensures distinct { OnOk result (IsDistinct (pairs entries.items)) }
        ensures fault { IfErr result (IsFaultOf (pairs entries.items)) }
        ensures accepts { IsDistinct (pairs entries.items)
            → IfErr result (λ fault. fault ≡ Memory) }
        ensures no_memory { IsSorted (pairs entries.items) → IsOk result }
    {
        if is_in_order(&entries) {
            return Ok(SortedEntries { items: entries });
        }
        let mut items = entries;
        let keys = sorted_keys(alloc, &items)?;
        if !rises(&keys) {
            return Err(first_repeat(alloc, &items)?);
        }
        put_keys(&keys, &mut items)?;
        Ok(SortedEntries { items })
    }
}

/// Returns whether the entries are in canonical order, so that no tag and qualifier occur twice.
fn is_in_order(entries: &[Entry]) -> bool
    ensures { IsTrue result ↔ IsSorted (pairs entries.now) }
{
    entries.is_sorted_by(|a, b| a.tag < b.tag)
}

/// Returns the fault of the first entry whose tag an earlier entry has too.
fn first_repeat(alloc: Global, entries: &[Entry]) -> Result<AclFault, AllocError>
    requires { IsDistinct (pairs entries.now) → ⊥ }
    ensures fault { IfOk result (IsFaultOf (pairs entries.now)) }
    ensures refuses { IfOk result (λ fault. is_refusal fault ≡ true) }
{
    let mut seen = BTreeMap::new(alloc);
    for (place, entry) in entries.iter().enumerate() {
        if seen.insert(entry.tag, entry.perm)?.is_some() {
            return Ok(repeated(entry.tag, place));
        }
    }
    unreachable!()
}

/// Returns `Duplicate` for USER and GROUP, and `Multi` for every other tag.
fn repeated(tag: Tag, place: usize) -> AclFault
    ensures { result ≡ repeat_fault (tag_of tag) place }
{
    if tag.is_named() {
        AclFault::Duplicate(place)
    } else {
        AclFault::Multi(place)
    }
}
