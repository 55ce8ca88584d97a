//! Tags, and their canonical order.
ghost use Rattle.std.specs.Prelude.{◌≡◌, refl};
ghost use Rattle.std.proofs.Common.{rules};
ghost use Rattle.std.specs.Cmp.{partial_order_from_agreeing_total};
ghost use Rattle.std.specs.Cmp.Rules.{comparing};
ghost use Rattle.std.specs.Ordering.{as_partial_cmp};
ghost use Rattle.acl_posix.specs.Tag.{is_masked, is_named, name_of, qualifier, rank, tag_of};
ghost use Rattle.acl_posix.specs.internal.TagCode.{code_cmp, codes_total};

use crate::id::Id;
use std::cmp::Ordering;

/// Whom an entry is for: a tag type, and the qualifier of a user or a group. Tags are in canonical order: USER_OBJ,
/// USER by id, GROUP_OBJ, GROUP by id, MASK, OTHER (POSIX.1e draft 17, section 23.1.2).
#[derive(Clone, Copy, Debug, PartialEq, Eq, Hash)]
pub enum Tag {
    /// The owner of the file.
    UserObj,
    /// The user with this id.
    User(Id),
    /// The owning group of the file.
    GroupObj,
    /// The group with this id.
    Group(Id),
    /// The mask: the most that users and groups can have.
    Mask,
    /// Everyone whom no other entry matches.
    Other,
}

impl PartialOrd for Tag {
    ghost partial_cmp = { as_partial_cmp code_cmp };

    ghost laws = { partial_order_from_agreeing_total code_cmp codes_total (λ x y. refl)
        (Prim.search (comparing, rules)) };

    fn partial_cmp(&self, other: &Tag) -> Option<Ordering> {
        Some(self.cmp(other))
    }
}

impl Ord for Tag {
    ghost cmp = { code_cmp };

    ghost total = { codes_total };

    ghost matches_partial_cmp = { Prim.search (comparing, rules) };

    ghost matches_eq = { Prim.search (comparing, rules) };

    fn cmp(&self, other: &Tag) -> Ordering {
        match self.rank().cmp(&other.rank()) {
            Ordering::Equal => self.qualifier().cmp(&other.qualifier()),
            order => order,
        }
    }
}

impl Tag {
    /// Returns the name of the tag type in the standard, without the qualifier. It takes constant time.
    pub fn name(&self) -> &'static str
        ensures { result.now ≡ name_of (tag_of self.now) }
    {
        match self {
            Tag::UserObj => "USER_OBJ",
            Tag::User(_) => "USER",
            Tag::GroupObj => "GROUP_OBJ",
            Tag::Group(_) => "GROUP",
            Tag::Mask => "MASK",
            Tag::Other => "OTHER",
        }
    }

    /// Returns whether the tag has a qualifier, that is, is USER or GROUP.
    pub(crate) fn is_named(self) -> bool
        ensures { result ≡ is_named (tag_of self) }
    {
        matches!(self, Tag::User(_) | Tag::Group(_))
    }

    /// Returns whether the mask limits the entry of the tag, that is, the tag is USER, GROUP_OBJ or GROUP.
    pub(crate) fn is_masked(self) -> bool
        ensures { result ≡ is_masked (tag_of self) }
    {
        matches!(self, Tag::User(_) | Tag::GroupObj | Tag::Group(_))
    }

    /// Returns the place of the tag type in the canonical order.
    pub(crate) fn rank(self) -> u8
        ensures { result ≡ rank (tag_of self) }
    {
        match self {
            Tag::UserObj => 0,
            Tag::User(_) => 1,
            Tag::GroupObj => 2,
            Tag::Group(_) => 3,
            Tag::Mask => 4,
            Tag::Other => 5,
        }
    }

    /// Returns the qualifier, or 0 if there is none.
    pub(crate) fn qualifier(self) -> u32
        ensures { result ≡ qualifier (tag_of self) }
    {
        match self {
            Tag::User(id) | Tag::Group(id) => id.value,
            Tag::UserObj | Tag::GroupObj | Tag::Mask | Tag::Other => 0,
        }
    }
}
