//! A valid access control list, and its calls.
ghost use Rattle.std.specs.Prelude.{◌≡◌, All, IfErr, IfOk, IfSome, IsNone, IsOk, IsSome, IsTrue, OnErr, OnOk, option_map};
ghost use Rattle.std.specs.FinMap as set;
ghost use Rattle.acl_posix.specs.declared.fault.AclFault.{AclFault as Fault};
ghost use Rattle.acl_posix.specs.declared.fault.AclFault.TheVariants.{Memory};
ghost use Rattle.acl_posix.specs.Tag.{mask, tag_of};
ghost use Rattle.acl_posix.specs.Entries.{as_set, IsEntry, IsSorted, pair_of, pairs};
ghost use Rattle.acl_posix.specs.Valid.{is_refusal, IsFaultOf, IsFaultOfSet, IsRefusedWith, IsValid, IsValidList};
ghost use Rattle.acl_posix.specs.Mode.{chmoded, mode_of};
ghost use Rattle.acl_posix.specs.Mask.{effective_of, with_mask};
ghost use Rattle.acl_posix.specs.Check.{grants, ids};
ghost use Rattle.acl_posix.specs.Deciding.{decider, is_masked_off};
ghost use Rattle.acl_posix.specs.Create.{of_mode};
ghost use Rattle.acl_posix.specs.Excess.{GrantsNothingMore, IsLowestRequest, IsPosixExcess};
ghost use Rattle.acl_posix.specs.Equal.{same_entry};
ghost use Rattle.std.specs.Cmp.Lexicographic.{pointwise};

use crate::check::AccessCheck;
use crate::deciding::{Deciding, EntryDecision};
use crate::difference::PosixDifference;
use crate::entry::Entry;
use crate::entry_set::EntrySet;
use crate::excess::Excess;
use crate::fault::AclFault;
use crate::id::Id;
use crate::sorted::SortedEntries;
use crate::tag::Tag;
use acl_perm::{Mode, Perm};
use std::alloc::{AllocError, Global};
use std::marker::Model;

/// A valid access control list (acl(5), "VALID ACLs"): a set of entries in which no tag and qualifier occur twice, kept
/// in canonical order. Clauses see it as a map from tags and qualifiers to permissions.
#[derive(Debug, Drop)]
pub struct PosixAcl {
    entries: SortedEntries,
}

impl Model for PosixAcl {
    ghost use Rattle.acl_posix.specs.Entries.{Entries};
    ghost use Rattle.acl_posix.specs.internal.TagCode.{coded_entries};
    ghost use Rattle.acl_posix.specs.Valid.{IsValid};

    ghost Value = { Entries };

    ghost coded = { coded_entries };

    ghost view = { λ acl. acl.entries };

    ghost invariant = { λ acl. IsValid acl.entries };
}

impl PartialEq for PosixAcl {
    ghost use Rattle.std.specs.Prelude.{◌≡◌, ◌↔◌, IsTrue};
    ghost use Rattle.std.specs.Cmp.{partial_equiv_from_equiv};
    ghost use Rattle.acl_posix.specs.Equal.{same_set};
    ghost use Rattle.acl_posix.specs.internal.Equivalences.{same_set_equiv};

    ghost eq = { same_set };

    ghost laws = { partial_equiv_from_equiv same_set_equiv };

    /// Returns whether the two ACLs have the same entries. It takes no memory and linear time.
    fn eq(&self, other: &PosixAcl) -> bool
        ensures value { result ≡ same_set self.now other.now }
        ensures exact { IsTrue result ↔ (self.now ≡ other.now) }
    {
        are_same(self.entries(), other.entries())
    }
}

impl Eq for PosixAcl {
    ghost use Rattle.acl_posix.specs.internal.Equivalences.{same_set_equiv};

    ghost laws = { same_set_equiv };
}

impl PosixAcl {
    /// Returns the ACL of these entries, in any order, if and only if they are a valid list (acl(5), "VALID ACLs"),
    /// unless memory runs out. Fails with `Multi` or `Duplicate` and a place if the entry there has the tag and
    /// qualifier of an earlier entry; the first such entry is reported. Otherwise fails with `Miss` of the first absent
    /// of USER_OBJ, GROUP_OBJ, OTHER, and of MASK if there is a USER or GROUP entry. It takes time in n log n and one
    /// allocation for n numbers. If two entries have the same tag and qualifier, it also takes a map of at most n
    /// entries. If the entries are in canonical order, it takes linear time and no memory.
    ///
    /// ```rust
    /// let perm = Perm::ALL;
    /// let mut entries = Vec::new(alloc);
    /// for tag in [Tag::Other, Tag::UserObj, Tag::GroupObj] {
    ///     entries.push(Entry { tag, perm })?;
    /// }
    /// let acl = PosixAcl::from_entries(alloc, entries)?;
    /// assert!(rt; acl.mode().bits == 0o777);
    /// ```
    pub fn from_entries(alloc: Global, entries: Vec<Entry>) -> Result<PosixAcl, AclFault>
        ensures valid { OnOk result (IsValidList (pairs entries.items)) }
        ensures entries { IfOk result (λ acl. acl ≡ as_set (pairs entries.items)) }
        ensures fault { IfErr result (IsFaultOf (pairs entries.items)) }
        ensures accepts { IsValidList (pairs entries.items)
            → IfErr result (λ fault. fault ≡ Memory) }
        ensures refused { (fault : Fault)
            → IsTrue (is_refusal fault) → IsFaultOf (pairs entries.items) fault
            → IsRefusedWith result fault }
        ensures no_memory { IsSorted (pairs entries.items)
            → IfErr result (λ fault. IsTrue (is_refusal fault)) }
    {
        let entries = SortedEntries::from_entries(alloc, entries)?;
        match entries.missing() {
            Some(tag) => Err(AclFault::Miss(tag)),
            None => Ok(PosixAcl { entries }),
        }
    }

    /// Returns the entries in canonical order: USER_OBJ, USER by id, GROUP_OBJ, GROUP by id, MASK, OTHER. Constant
    /// time.
    pub fn entries(&self) -> &[Entry]
        ensures entries { pairs result.now ≡ set.entries self.now }
        ensures within { All IsEntry (set.entries self.now) }
        ensures valid { IsValid self.now }
    {
        self.entries.as_slice()
    }

    /// Returns another ACL with the same entries. Fails if memory runs out. Linear time; one table of their number.
    pub fn copy(&self, alloc: Global) -> Result<PosixAcl, AllocError>
        ensures { IfOk result (λ acl. acl ≡ self.now) }
    {
        let entries = self.entries.copy(alloc)?;
        Ok(PosixAcl { entries })
    }

    /// Returns the three entries of a mode: USER_OBJ, GROUP_OBJ and OTHER with its bits (acl(5), "CORRESPONDENCE
    /// BETWEEN ACL ENTRIES AND FILE PERMISSION BITS"). Fails if memory runs out. Constant time; one table of three
    /// entries.
    #[tactic(auto, using(crate::proofs::sorted::OneEntry::three_valid))]
    pub fn of_mode(alloc: Global, mode: Mode) -> Result<PosixAcl, AllocError>
        ensures { IfOk result (λ acl. acl ≡ of_mode mode.bits) }
    {
        let entries = SortedEntries::of_mode(alloc, mode)?;
        Ok(PosixAcl { entries })
    }

    /// Returns the permissions of the entry with a tag and qualifier, if there is one. It takes no memory and
    /// logarithmic time.
    pub fn get(&self, tag: Tag) -> Option<Perm>
        ensures { option_map (λ perm. perm.bits) result ≡ set.get self.now (tag_of tag) }
    {
        self.entries.get(tag)
    }

    /// Sets the permissions of the entry with a tag and qualifier, and adds the entry if there is none; a call that
    /// fails changes nothing. The list stays valid: fails with `Miss(Mask)` if this would add a USER or GROUP entry to
    /// a list without MASK, and with `Memory` if memory runs out, which can happen only if an entry is added. Linear
    /// time; logarithmic time if the entry exists.
    pub fn set(&mut self, tag: Tag, perm: Perm) -> Result<(), AclFault>
        ensures ok { OnOk result (self.new ≡ set.insert self.old (tag_of tag) perm.bits) }
        ensures err { OnErr result (self.new ≡ self.old) }
        ensures fault { IfErr result
            (IsFaultOfSet (set.insert self.old (tag_of tag) perm.bits)) }
        ensures no_memory { IsSome (set.get self.old (tag_of tag)) → IsOk result }
        ensures valid { IsValid self.new }
    {
        // A valid list without a MASK has no USER or GROUP entry, so this one would be added.
        if self.entries.lacks_mask_for(tag) {
            return Err(AclFault::Miss(Tag::Mask));
        }
        Ok(self.entries.insert(tag, perm)?)
    }

    /// Removes the entry with a tag and qualifier, and does nothing if there is none; a call that fails changes
    /// nothing. The list stays valid: fails with `Miss` of the tag if the tag is USER_OBJ, GROUP_OBJ or OTHER, or is
    /// MASK and there is a USER or GROUP entry. It takes no memory and linear time.
    pub fn remove(&mut self, tag: Tag) -> Result<(), AclFault>
        ensures ok { OnOk result (self.new ≡ set.remove self.old (tag_of tag)) }
        ensures err { OnErr result (self.new ≡ self.old) }
        ensures fault { IfErr result (IsFaultOfSet (set.remove self.old (tag_of tag))) }
        ensures no_memory { IfErr result (λ fault. IsTrue (is_refusal fault)) }
        ensures valid { IsValid self.new }
    {
        if self.entries.needs(tag) {
            return Err(AclFault::Miss(tag));
        }
        self.entries.remove(tag);
        Ok(())
    }

    /// Returns whether a user who is in these groups is granted all of `want` on an object with this owner and group
    /// (acl(5), "ACCESS CHECK ALGORITHM"). It takes no memory, and time (number of groups + 1) times the logarithm of
    /// the number of entries.
    ///
    /// ```rust
    /// let acl = PosixAcl::of_mode(alloc, Mode { bits: 0o640 })?;
    /// let (owner, group, user) = (Id { value: 0 }, Id { value: 50 }, Id { value: 7 });
    /// let read = Perm { bits: 4 };
    /// assert!(rt; acl.check(owner, group, user, &[group], read));
    /// assert!(rt; !acl.check(owner, group, user, &[], read));
    /// ```
    pub fn check(&self, owner: Id, group: Id, user: Id, groups: &[Id], want: Perm) -> bool
        ensures { result ≡ grants self.now
            (record { user = owner.value; group = group.value })
            (record { user = user.value; groups = ids groups.now })
            want.bits }
    {
        self.entries.grants(owner, group, user, groups, want)
    }

    /// Returns how the request that `check` answers is decided (acl(5), "ACCESS CHECK ALGORITHM"): by USER_OBJ for the
    /// owner; otherwise by the USER entry of the user; otherwise, if entries of groups match, by the first of them in
    /// canonical order that has all that is requested; otherwise by OTHER. It takes no memory, and time number of
    /// groups times number of entries.
    ///
    /// ```rust
    /// let acl = PosixAcl::of_mode(alloc, Mode { bits: 0o640 })?;
    /// let (owner, group, user) = (Id { value: 0 }, Id { value: 50 }, Id { value: 7 });
    /// let decision = acl.deciding(owner, group, user, &[group], Perm { bits: 4 });
    /// assert!(rt; decision.granted && decision.entry == Some(Tag::GroupObj));
    /// let decision = acl.deciding(owner, group, user, &[group], Perm { bits: 2 });
    /// assert!(rt; !decision.granted && decision.entry == None);
    /// ```
    pub fn deciding(
        &self,
        owner: Id,
        group: Id,
        user: Id,
        groups: &[Id],
        want: Perm,
    ) -> EntryDecision
        ensures granted { result.granted ≡ grants self.now
            (record { user = owner.value; group = group.value })
            (record { user = user.value; groups = ids groups.now })
            want.bits }
        ensures entry { option_map tag_of result.entry ≡ decider self.now
            (record { user = owner.value; group = group.value })
            (record { user = user.value; groups = ids groups.now })
            want.bits }
        ensures masked { result.masked ≡ is_masked_off self.now
            (record { user = owner.value; group = group.value })
            (record { user = user.value; groups = ids groups.now })
            want.bits }
    {
        self.entries.decision(owner, group, user, groups, want)
    }

    /// Returns a requester and an object for which this ACL grants a request that `second` denies, or `None` if
    /// whatever this ACL grants `second` grants too: every set of permissions, to every user with any groups, on every
    /// object. The request of the difference is the lowest number for which there is one; the requester is one of those
    /// for whom there is. It takes no memory, and time n log n for n entries in both ACLs.
    ///
    /// ```rust
    /// let first = PosixAcl::of_mode(alloc, Mode { bits: 0o644 })?;
    /// let second = PosixAcl::of_mode(alloc, Mode { bits: 0o640 })?;
    /// assert!(rt; second.excess(&first).is_none());
    /// let found = first.excess(&second).ok_or("others may read")?;
    /// assert!(rt; found.request == Perm::READ && found.groups == FewGroups::None);
    /// ```
    pub fn excess(&self, second: &PosixAcl) -> Option<PosixDifference>
        ensures none { IsNone result → GrantsNothingMore self.now second.now }
        ensures some { IfSome result (IsPosixExcess self.now second.now) }
        ensures lowest { IfSome result (IsLowestRequest self.now second.now) }
    {
        self.entries.difference(&second.entries)
    }

    /// Returns the file mode bits: USER_OBJ, then MASK or, if there is no MASK, GROUP_OBJ, then OTHER. It takes no
    /// memory and logarithmic time.
    pub fn mode(&self) -> Mode
        ensures { result.bits ≡ mode_of self.now }
    {
        self.entries.mode_bits()
    }

    /// Sets the file mode bits: USER_OBJ, MASK or, if there is no MASK, GROUP_OBJ, and OTHER, and changes no other
    /// entry. It takes no memory and logarithmic time.
    ///
    /// ```rust
    /// let mut acl = PosixAcl::of_mode(alloc, Mode { bits: 0o644 })?;
    /// acl.chmod(Mode { bits: 0o600 });
    /// assert!(rt; acl.get(Tag::GroupObj) == Some(Perm::NONE));
    /// ```
    pub fn chmod(&mut self, mode: Mode)
        ensures { self.new ≡ chmoded self.old mode.bits }
    {
        self.entries.set_mode(mode);
    }

    /// Returns the effective permissions of an entry: for a USER, GROUP_OBJ or GROUP entry those that MASK has too, if
    /// there is a MASK, and for any other entry all. It takes no memory and constant time, because MASK is the last
    /// entry but one, and an ACL without MASK has three entries.
    pub fn effective(&self, entry: Entry) -> Perm
        ensures { result.bits ≡ effective_of self.now (pair_of entry) }
    {
        entry.masked_by(self.mask())
    }

    /// Returns the permissions of MASK, if there is one.
    pub(crate) fn mask(&self) -> Option<Perm>
        ensures { option_map (λ perm. perm.bits) result ≡ set.get self.now mask }
    {
        let entries = self.entries.as_slice();
        // If there is a MASK, it is before the last entry, which is OTHER. A list without MASK has three entries, so
        // the look-up below takes constant time too.
        if let Some(entry) = entries.get(entries.len().saturating_sub(2)) {
            if let Tag::Mask = entry.tag {
                return Some(entry.perm);
            }
        }
        self.entries.get(Tag::Mask)
    }

    /// Sets MASK to the union of the permissions of all USER, GROUP_OBJ and GROUP entries, and adds it if it is absent;
    /// a call that fails changes nothing. Only adding it takes memory, and may move the entries once. Fails if memory
    /// runs out. It takes linear time.
    pub fn calc_mask(&mut self) -> Result<(), AllocError>
        ensures ok { OnOk result (self.new ≡ with_mask self.old) }
        ensures err { OnErr result (self.new ≡ self.old) }
        ensures no_memory { IsSome (set.get self.old mask) → IsOk result }
    {
        self.entries.set_mask()
    }
}

fn are_same(one: &[Entry], other: &[Entry]) -> bool
    ensures { result ≡ pointwise same_entry (pairs one.now) (pairs other.now) }
{
    one == other
}
