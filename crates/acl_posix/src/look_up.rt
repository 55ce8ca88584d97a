//! The permissions of a tag in sorted entries.
ghost use Rattle.std.specs.FinMap as set;
ghost use Rattle.acl_posix.specs.Tag.{tag_of};
ghost use Rattle.acl_posix.specs.internal.Search.{IsPlaceOf};

use crate::entry::Entry;
use crate::entry_set::EntrySet;
use crate::sorted::SortedEntries;
use crate::tag::Tag;

impl EntrySet for SortedEntries {
    ghost entries = { λ entries. entries };

    fn count(&self) -> usize {
        self.as_slice().len()
    }

    fn entry_at(&self, place: usize) -> Entry {
        self.as_slice()[place]
    }
}

impl SortedEntries {
    /// Returns the place of the entry of a tag, or the place where it would be inserted.
    pub(crate) fn place_of(&self, tag: Tag) -> Result<usize, usize>
        ensures { IsPlaceOf (set.keys self.now) (tag_of tag) result }
    {
        self.as_slice()
            .binary_search_by_key(&tag, |entry| entry.tag)
    }
}
