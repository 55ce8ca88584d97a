//! The list in which a group stands for each unknown special identifier.
ghost use Rattle.std.specs.Prelude.{[], false, ◌≡◌, ◌+◌, ◌<◌, ◌≤◌, ◌++◌, ◌∷◌, IfErr, IfOk, List, None, OnOk, count_ones, length, map};
ghost use Rattle.acl_nfs4.specs.Ace.{ace};
ghost use Rattle.acl_nfs4.specs.AccessPart.{IsAnyWho};
ghost use Rattle.acl_nfs4.specs.Limits.{most_aces, most_weight};
ghost use Rattle.acl_nfs4.specs.Spelling.{weight};
ghost use Rattle.acl_nfs4.specs.UnknownGroups as spec;
ghost use Rattle.acl_nfs4.specs.UnknownGroups.{HasFreeNames, IsGroupsFault, first_misnamed, first_taken, is_misnamed, is_stand_in, has_taken_name, with_stand_in};
ghost use Rattle.acl_nfs4.specs.declared.ace.AceRef.{AceRef};
ghost use Rattle.acl_nfs4.specs.internal.PartReading.{CanBePart, HasUnknownNames};

use crate::ace::AceRef;
use crate::list::acl::Acl;
use crate::who::{is_account_after, is_unknown_special};
use crate::xdr::access_part::{AccessPart, flags_kept};
use std::alloc::{AllocError, Global};
use std::collections::BTreeSet;
use thiserror::Error;

/// Why no groups stand for the unknown special identifiers of a list.
#[derive(Clone, Copy, Debug, PartialEq, Eq, Error)]
pub enum GroupsFault {
    /// The ACE at this place, from 0, has an unknown special identifier that is not valid as the name of a group once
    /// the suffix follows it.
    #[error("Name at ACE {0}")]
    Name(usize),
    /// The ACE at this place, from 0, is for a group that has the name of an unknown special identifier with the
    /// suffix.
    #[error("Merged at ACE {0}")]
    Merged(usize),
    /// Memory ran out.
    #[error("out of memory")]
    Memory,
}

impl From<AllocError> for GroupsFault {
    ghost use Rattle.std.specs.Prelude.{◌≡◌};
    ghost use Rattle.acl_nfs4.specs.declared.xdr.unknown_groups.GroupsFault.TheVariants.{Memory};

    ghost from_gives = { λ _ fault. fault ≡ Memory };

    fn from(_: AllocError) -> GroupsFault {
        GroupsFault::Memory
    }
}

impl<'a> AccessPart<'a> {
    /// Returns the list of the ACEs that are kept, in which a group stands for each unknown special identifier: its
    /// name is the identifier followed by the suffix, and its ACEs have IDENTIFIER_GROUP set. All else stays. A
    /// requester of whom it is known which identifiers match has the groups of these identifiers. Fails with `Name` for
    /// the first ACE whose identifier with the suffix is not the name of a group: it is too long, is not valid as a
    /// who, or ends in `@`. Otherwise fails with `Merged` for the first ACE of another group that has such a name.
    /// Takes time n log n.
    ///
    /// ```rust
    /// let bytes = b"\0\0\0\x01\0\0\0\0\0\0\0\0\0\0\0\x01\0\0\0\x04NOW@";
    /// let part = AccessPart::parse_whole(alloc, bytes)?;
    /// let list = part.with_groups(alloc, b"?")?;
    /// assert!(rt; list == parse_text(alloc, b"ALLOW GROUP READ_DATA NOW@?")?);
    /// ```
    pub fn with_groups(&self, alloc: Global, suffix: &[u8]) -> Result<Acl, GroupsFault>
        ensures ok { IfOk result (λ list. list ≡ spec.with_groups suffix.now self.now.kept) }
        ensures free { OnOk result (HasFreeNames suffix.now self.now.kept) }
        ensures fault { IfErr result (IsGroupsFault suffix.now self.now.kept) }
    {
        let aces = &self.aces;
        if let Some(place) = first_misnamed(aces, suffix) {
            return Err(GroupsFault::Name(place));
        }
        let names = unknown_names(alloc, aces)?;
        if let Some(place) = first_taken(&names, aces, suffix) {
            return Err(GroupsFault::Merged(place));
        }
        Ok(list_of(alloc, aces, suffix)?)
    }
}

// Returns the place of the first ACE that gets no name.
fn first_misnamed(aces: &[AceRef<'_>], suffix: &[u8]) -> Option<usize>
    requires { CanBePart aces.now }
    ensures { result ≡ first_misnamed suffix.now (map ace aces.now) }
{
    for (place, item) in aces.iter().enumerate() {
        if is_misnamed(item, suffix) {
            return Some(place);
        }
    }
    None
}

// Returns whether the ACE has an unknown special identifier, which with the suffix is not the name of a group.
fn is_misnamed(item: &AceRef<'_>, suffix: &[u8]) -> bool
    requires { IsAnyWho item.now.who.now }
    ensures { result ≡ is_misnamed suffix.now (ace item.now) }
{
    is_unknown_special(item.who) && !is_account_after(item.who, suffix)
}

// Returns the unknown special identifiers of the ACEs.
fn unknown_names<'a>(alloc: Global, aces: &[AceRef<'a>]) -> Result<BTreeSet<&'a [u8]>, AllocError>
    ensures { IfOk result (λ names. HasUnknownNames names aces.now) }
{
    let mut names = BTreeSet::new(alloc);
    for item in aces {
        if item.is_unknown() {
            names.insert(item.who)?;
        }
    }
    Ok(names)
}

// Returns the place of the first ACE that is for a group whose name is one of these names with the suffix.
fn first_taken(names: &BTreeSet<&[u8]>, aces: &[AceRef<'_>], suffix: &[u8]) -> Option<usize>
    requires { HasUnknownNames names.now aces.now }
    ensures { result ≡ first_taken suffix.now (map ace aces.now) }
{
    for (place, item) in aces.iter().enumerate() {
        if has_taken_name(names, item, suffix) {
            return Some(place);
        }
    }
    None
}

fn has_taken_name(names: &BTreeSet<&[u8]>, item: &AceRef<'_>, suffix: &[u8]) -> bool
    ensures { (list : List AceRef) → HasUnknownNames names.now list
        → result ≡ has_taken_name suffix.now (map ace list) (ace item.now) }
{
    item.flags.is_group() && !item.is_unknown() && has_stand_in(names, item.who, suffix)
}

fn has_stand_in(names: &BTreeSet<&[u8]>, name: &[u8], suffix: &[u8]) -> bool
    ensures { (list : List AceRef) → HasUnknownNames names.now list
        → result ≡ is_stand_in suffix.now (map ace list) name.now }
{
    match name.strip_suffix(suffix) {
        Some(front) => names.contains(front),
        None => false,
    }
}

// Returns the list with a group for each unknown special identifier.
fn list_of(alloc: Global, aces: &[AceRef<'_>], suffix: &[u8]) -> Result<Acl, AllocError>
    requires part { CanBePart aces.now }
    requires named { first_misnamed suffix.now (map ace aces.now) ≡ None }
    ensures { IfOk result (λ list. list ≡ spec.with_groups suffix.now (map ace aces.now)) }
{
    let mut list = Acl::new(alloc);
    for item in aces {
        push_group(alloc, &mut list, item, suffix)?;
    }
    Ok(list)
}

// Adds the ACE, with a group if its who is an unknown special identifier.
fn push_group(
    alloc: Global,
    list: &mut Acl,
    item: &AceRef<'_>,
    suffix: &[u8],
) -> Result<(), AllocError>
    requires room { length list.old < most_aces }
    requires light { weight list.old + count_ones item.now.mask.bits ≤ most_weight }
    requires any { IsAnyWho item.now.who.now }
    requires named { is_misnamed suffix.now (ace item.now) ≡ false }
    ensures { OnOk result (list.new ≡ list.old ++ with_stand_in suffix.now (ace item.now) ∷ []) }
{
    if !is_unknown_special(item.who) {
        return list.append(*item);
    }
    let mut name = Vec::from_slice(alloc, item.who)?;
    name.extend_from_slice(suffix)?;
    list.append(AceRef {
        flags: flags_kept(item.flags, item.who),
        who: &name,
        ..*item
    })
}
