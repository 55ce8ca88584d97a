//! An entry of a list: a tag and its permissions.
ghost use Rattle.std.specs.Prelude.{◌≡◌, option_map};
ghost use Rattle.acl_posix.specs.Entries.{pair_of};
ghost use Rattle.acl_posix.specs.Mask.{masked_by};

use crate::tag::Tag;
use acl_perm::Perm;

/// A tag and its permissions (POSIX.1e draft 17, section 23.1.2).
#[derive(Clone, Copy, Debug, PartialEq, Eq, PartialOrd, Ord, Hash)]
pub struct Entry {
    /// Whom the entry is for.
    pub tag: Tag,
    /// The permissions, before a mask.
    pub perm: Perm,
}

impl Entry {
    /// Returns the permissions that a mask leaves, if there is a mask, and all otherwise.
    pub(crate) fn masked_by(self, mask: Option<Perm>) -> Perm
        ensures { result.bits ≡ masked_by (option_map (λ perm. perm.bits) mask) (pair_of self) }
    {
        match mask {
            Some(mask) if self.tag.is_masked() => self.perm.intersection(mask),
            _ => self.perm,
        }
    }
}
