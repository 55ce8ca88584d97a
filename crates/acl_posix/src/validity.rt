//! Which tags a valid list needs.
ghost use Rattle.std.specs.Prelude.{◌≡◌};
ghost use Rattle.std.specs.List.{list_any};
ghost use Rattle.acl_posix.specs.Tag.{is_named, tag_of};
ghost use Rattle.acl_posix.specs.internal.Required.{is_required, lacks_mask_for};

use crate::entry::Entry;
use crate::entry_set::EntrySet;
use crate::sorted::SortedEntries;
use crate::tag::Tag;

impl SortedEntries {
    /// Returns whether a valid list is not valid without the entry of a tag.
    pub(crate) fn needs(&self, tag: Tag) -> bool
        ensures { result ≡ is_required self.now (tag_of tag) }
    {
        match tag {
            Tag::UserObj | Tag::GroupObj | Tag::Other => true,
            Tag::User(_) | Tag::Group(_) => false,
            Tag::Mask => self.any_named(),
        }
    }

    /// Returns whether a valid list lacks the MASK that it needs to get an entry of a tag.
    pub(crate) fn lacks_mask_for(&self, tag: Tag) -> bool
        ensures { result ≡ lacks_mask_for self.now (tag_of tag) }
    {
        tag.is_named() && !self.has(Tag::Mask)
    }
}

/// Returns whether there is a USER or GROUP entry.
pub(crate) fn any_entry_named(entries: &[Entry]) -> bool
    ensures { result ≡ list_any (λ entry. is_named (tag_of entry.tag)) entries.now }
{
    entries.iter().any(|entry| entry.tag.is_named())
}
