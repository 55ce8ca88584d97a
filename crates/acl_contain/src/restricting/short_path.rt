//! The five paths of creations that show what a list grants at all paths.
ghost use Rattle.std.specs.Prelude.{◌≡◌};
ghost use Rattle.acl_normal.specs.Common.{IfOk, ace, aces_in};
ghost use Rattle.acl_contain.specs.internal.InPlace.{all_in_place, in_place, put_back, takes_part_at};

use acl_nfs4::{AceRef, Flags};
use acl_perm::Mask;
use std::alloc::{AllocError, Global};

/// The object itself, or a new object at most two steps below it.
#[derive(Clone, Copy)]
pub(crate) enum ShortPath {
    Object,
    NewFile,
    NewDirectory,
    FileInDirectory,
    DirectoryInDirectory,
}

impl ShortPath {
    // Whether an ACE of the list, with these flags, takes part at the path.
    #[tactic(auto, using(acl_eval::proofs::Bits::single_bits))]
    fn is_part(self, flags: Flags) -> bool
        ensures { result ≡ takes_part_at self flags.bits }
    {
        let goes_on = !flags.contains(Flags::NO_PROPAGATE_INHERIT);
        match self {
            ShortPath::Object => !flags.is_inherit_only(),
            ShortPath::NewFile => flags.contains(Flags::FILE_INHERIT),
            ShortPath::NewDirectory => flags.contains(Flags::DIRECTORY_INHERIT),
            ShortPath::FileInDirectory => flags.contains(Flags::FILE_INHERIT) && goes_on,
            ShortPath::DirectoryInDirectory => flags.contains(Flags::DIRECTORY_INHERIT) && goes_on,
        }
    }

    // The ACE as it takes part at the path, and without rights if it takes no part there.
    fn in_place<'a>(self, item: AceRef<'a>) -> AceRef<'a>
        ensures { ace result ≡ in_place self (ace item.entry) }
    {
        AceRef {
            flags: item.flags.difference(Flags::INHERIT_ONLY),
            mask: if self.is_part(item.flags) {
                item.mask
            } else {
                Mask::NONE
            },
            ..item
        }
    }

    /// Returns the list at the path, with each ACE at the place that it has in the source. An ACE that takes no part
    /// there has no rights.
    pub(crate) fn list<'a>(
        self,
        alloc: Global,
        aces: &[AceRef<'a>],
    ) -> Result<Vec<AceRef<'a>>, AllocError>
        ensures { IfOk result (λ list. aces_in list.items ≡ all_in_place self (aces_in aces.now)) }
    {
        let mut list = Vec::with_capacity(alloc, aces.len())?;
        for item in aces {
            list.push(self.in_place(*item))?;
        }
        Ok(list)
    }

    /// Returns the ACE with the rights that it kept at the path, if it takes part there.
    pub(crate) fn put_back<'a>(self, item: AceRef<'a>, cut: AceRef<'a>) -> AceRef<'a>
        ensures { ace result ≡ put_back self (ace item.entry) (ace cut.entry) }
    {
        if self.is_part(item.flags) {
            AceRef {
                mask: cut.mask,
                ..item
            }
        } else {
            item
        }
    }
}
