//! The ACL of a list of raw entries.
ghost use Rattle.std.specs.Prelude.{◌≡◌, IfErr, IfOk, OnOk};
ghost use Rattle.acl_posix.specs.declared.fault.AclFault.TheVariants.{Memory};
ghost use Rattle.acl_posix.specs.declared.raw_entry.EntriesFault.TheVariants.{Acl};
ghost use Rattle.acl_posix.specs.Entries.{as_set, pairs};
ghost use Rattle.acl_posix.specs.MissingMask.{IsFaultOfRawWithMask, IsValidWithMask, with_missing_mask};
ghost use Rattle.acl_posix.specs.RawEntries.{AreEntries, IsFaultOfRaw, IsValidRaw, raw_pairs};

use crate::acl::PosixAcl;
use crate::entry::Entry;
use crate::raw_entry::{EntriesFault, RawEntry};
use std::alloc::Global;

impl PosixAcl {
    /// Returns the ACL of raw entries, in any order, if and only if their numbers are those of entries that are a valid
    /// list, unless memory runs out. Fails with `Entry` and a place if the numbers there are not those of an entry; the
    /// first such place is reported. Otherwise fails with `Acl` and the fault that `from_entries` returns, or that
    /// memory ran out. It takes time in n log n, and linear time if the entries are in canonical order.
    ///
    /// ```rust
    /// let mut raws = Vec::new(alloc);
    /// for (tag, perm) in [(1, 6), (3, 4), (6, 0)] {
    ///     raws.push(RawEntry { tag, id: 0, perm })?;
    /// }
    /// let acl = PosixAcl::from_raw(alloc, &raws)?;
    /// assert!(rt; acl.mode().bits == 0o640);
    /// ```
    pub fn from_raw(alloc: Global, raws: &[RawEntry]) -> Result<PosixAcl, EntriesFault>
        ensures valid { OnOk result (IsValidRaw raws.now) }
        ensures entries { IfOk result (λ acl. acl ≡ as_set (raw_pairs raws.now)) }
        ensures fault { IfErr result (IsFaultOfRaw raws.now) }
        ensures accepts { IsValidRaw raws.now → IfErr result (λ fault. fault ≡ Acl Memory) }
    {
        let entries = read_entries(alloc, raws)?;
        Ok(PosixAcl::from_entries(alloc, entries)?)
    }

    /// Returns what `from_raw` returns for the entries with the MASK that they lack, as `from_entries_with_mask` adds
    /// it. Fails as `from_raw` does, but never with `Miss` of MASK.
    pub fn from_raw_with_mask(alloc: Global, raws: &[RawEntry]) -> Result<PosixAcl, EntriesFault>
        ensures valid { OnOk result (IsValidWithMask raws.now) }
        ensures entries { IfOk result
            (λ acl. acl ≡ as_set (with_missing_mask (raw_pairs raws.now))) }
        ensures fault { IfErr result (IsFaultOfRawWithMask raws.now) }
        ensures accepts { IsValidWithMask raws.now → IfErr result (λ fault. fault ≡ Acl Memory) }
    {
        let entries = read_entries(alloc, raws)?;
        Ok(PosixAcl::from_entries_with_mask(alloc, entries)?)
    }
}

/// Returns the entries of the numbers, in their order, or the first entry with wrong numbers.
pub(crate) fn read_entries(alloc: Global, raws: &[RawEntry]) -> Result<Vec<Entry>, EntriesFault>
    ensures entries { IfOk result (λ entries. pairs entries.items ≡ raw_pairs raws.now) }
    ensures valid { OnOk result (AreEntries raws.now) }
    ensures fault { IfErr result (IsFaultOfRaw raws.now) }
    ensures numbers { IfErr result (IsFaultOfRawWithMask raws.now) }
    ensures accepts { AreEntries raws.now → IfErr result (λ fault. fault ≡ Acl Memory) }
{
    let mut entries = Vec::with_capacity(alloc, raws.len())?;
    for (place, raw) in raws.iter().enumerate() {
        match raw.entry() {
            Ok(entry) => entries.push(entry)?,
            Err(fault) => return Err(EntriesFault::Entry(place, fault)),
        }
    }
    Ok(entries)
}
