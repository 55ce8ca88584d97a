//! Entries in canonical order.
ghost use Rattle.std.specs.Prelude.{◌≡◌, All, IfOk};
ghost use Rattle.std.specs.FinMap as set;
ghost use Rattle.acl_posix.specs.Entries.{IsEntry, IsSorted, pairs};
ghost use Rattle.acl_posix.specs.Create.{of_mode};

use crate::entry::Entry;
use crate::tag::Tag;
use acl_perm::Mode;
use std::alloc::{AllocError, Global};
use std::marker::Model;

/// Entries in canonical order, in which no tag and qualifier occur twice. Clauses see them as a map from tags to
/// permissions.
#[derive(Debug, Drop)]
pub(crate) struct SortedEntries {
    pub(crate) items: Vec<Entry>,
}

impl Model for SortedEntries {
    ghost use Rattle.acl_posix.specs.internal.TagCode.{coded_entries};
    ghost use Rattle.acl_posix.specs.Entries.{as_set, Entries, IsSorted, pairs};

    ghost Value = { Entries };

    ghost coded = { coded_entries };

    ghost view = { λ entries. as_set (pairs entries.items.items) };

    ghost invariant = { λ entries. IsSorted (pairs entries.items.items) };
}

impl SortedEntries {
    /// Returns the three entries of a mode, with one allocation. Fails if memory runs out.
    pub(crate) fn of_mode(alloc: Global, mode: Mode) -> Result<SortedEntries, AllocError>
        ensures { IfOk result (λ entries. entries ≡ of_mode mode.bits) }
    {
        let owner = Entry {
            tag: Tag::UserObj,
            perm: mode.owner(),
        };
        let group = Entry {
            tag: Tag::GroupObj,
            perm: mode.group(),
        };
        let others = Entry {
            tag: Tag::Other,
            perm: mode.others(),
        };
        let items = Vec::from_slice(alloc, &[owner, group, others])?;
        Ok(SortedEntries { items })
    }

    /// Returns a copy of the entries, with one allocation. Fails if memory runs out.
    pub(crate) fn copy(&self, alloc: Global) -> Result<SortedEntries, AllocError>
        ensures { IfOk result (λ entries. entries ≡ self.now) }
    {
        let items = Vec::from_slice(alloc, &self.items)?;
        Ok(SortedEntries { items })
    }

    /// Returns the entries, in canonical order.
    pub(crate) fn as_slice(&self) -> &[Entry]
        ensures entries { pairs result.now ≡ set.entries self.now }
        ensures sorted { IsSorted (pairs result.now) }
        ensures within { All IsEntry (pairs result.now) }
    {
        &self.items
    }
}
