//! Valid ACLs in the memory of a caller, as raw entries in canonical order.
ghost use Rattle.std.specs.Prelude.{◌≡◌, ◌<◌, get_or, length, option_map, IfErr, IfOk, IfSome, IsNone, IsOk, OnOk};
ghost use Rattle.std.specs.FinMap as set;
ghost use Rattle.acl_posix.specs.Check.{grants};
ghost use Rattle.acl_posix.specs.Deciding.{decider, is_masked_off};
ghost use Rattle.acl_posix.specs.Entries.{as_set, IsSorted, pair_of};
ghost use Rattle.acl_posix.specs.Excess.{GrantsNothingMore, IsLowestRequest, IsPosixExcess};
ghost use Rattle.acl_posix.specs.Mode.{mode_of};
ghost use Rattle.acl_posix.specs.RawEntries.{AreEntries, raw_pairs};
ghost use Rattle.acl_posix.specs.Tag.{tag_of};
ghost use Rattle.acl_posix.specs.View.{IsCanonical, IsFaultOfView, IsFirstStop, IsFoundAt};

use crate::check::AccessCheck;
use crate::deciding::{Deciding, EntryDecision};
use crate::difference::PosixDifference;
use crate::entry::Entry;
use crate::entry_set::EntrySet;
use crate::excess::Excess;
use crate::group_answers::GroupAnswers;
use crate::id::Id;
use crate::raw_entry::RawEntry;
use crate::tag::Tag;
use crate::view_fault::ViewFault;
use acl_perm::{Mode, Perm};
use std::marker::Model;

/// A valid ACL (acl(5), "VALID ACLs") that borrows raw entries in canonical order. Clauses see it as a map from tags
/// and qualifiers to permissions. No call takes memory.
#[derive(Debug, Drop)]
pub struct EntriesView<'a> {
    raws: &'a [RawEntry],
}

impl<'a> Model for EntriesView<'a> {
    ghost use Rattle.acl_posix.specs.Entries.{as_set, Entries};
    ghost use Rattle.acl_posix.specs.RawEntries.{raw_pairs};
    ghost use Rattle.acl_posix.specs.View.{AreCanonical};
    ghost use Rattle.acl_posix.specs.internal.TagCode.{coded_entries};

    ghost Value = { Entries };

    ghost coded = { coded_entries };

    ghost view = { λ view. as_set (raw_pairs view.raws.now) };

    ghost invariant = { λ view. AreCanonical view.raws.now };
}

impl<'a> EntriesView<'a> {
    /// Returns the ACL of these entries if and only if their numbers are those of entries in canonical order and no
    /// required entry is absent. Fails with `Entry` and a place if the numbers there are not those of an entry;
    /// otherwise with `Order` and a place if the entry there is not after the entry before it in canonical order, which
    /// it also is not if it has the same tag and qualifier; and otherwise with `Miss` as `PosixAcl::from_entries` does.
    /// The first such place is reported. Linear time.
    ///
    /// ```rust
    /// let raws = [
    ///     RawEntry { tag: 1, id: 0, perm: 6 },
    ///     RawEntry { tag: 3, id: 0, perm: 4 },
    ///     RawEntry { tag: 6, id: 0, perm: 0 },
    /// ];
    /// let acl = EntriesView::new(&raws).ok().ok_or("a valid list")?;
    /// assert!(rt; acl.mode().bits == 0o640);
    /// ```
    pub fn new(raws: &'a [RawEntry]) -> Result<EntriesView<'a>, ViewFault>
        ensures valid { OnOk result (IsCanonical raws.now) }
        ensures entries { IfOk result (λ view. view ≡ as_set (raw_pairs raws.now)) }
        ensures places { IfOk result (λ view. set.entries view ≡ raw_pairs raws.now) }
        ensures fault { IfErr result (IsFaultOfView raws.now) }
        ensures accepts { IsCanonical raws.now → IsOk result }
    {
        are_entries(raws)?;
        if let Some(place) = first_stop(raws) {
            return Err(ViewFault::Order(place));
        }
        let view = EntriesView { raws };
        match view.missing() {
            Some(tag) => Err(ViewFault::Miss(tag)),
            None => Ok(view),
        }
    }

    /// Returns what `PosixAcl::check` returns for this ACL; a group that is no id matches no entry. It takes time
    /// (number of groups + 1) times the logarithm of the number of entries.
    pub fn check(&self, owner: Id, group: Id, user: Id, groups: &[u32], want: Perm) -> bool
        ensures { result ≡ grants self.now
            (record { user = owner.value; group = group.value })
            (record { user = user.value; groups = groups.now })
            want.bits }
    {
        self.grants(owner, group, user, groups, want)
    }

    /// Returns how the request that `check` answers is decided, as `PosixAcl::deciding` does. It takes time number of
    /// groups times number of entries.
    pub fn deciding(
        &self,
        owner: Id,
        group: Id,
        user: Id,
        groups: &[u32],
        want: Perm,
    ) -> EntryDecision
        ensures granted { result.granted ≡ grants self.now
            (record { user = owner.value; group = group.value })
            (record { user = user.value; groups = groups.now })
            want.bits }
        ensures entry { option_map tag_of result.entry ≡ decider self.now
            (record { user = owner.value; group = group.value })
            (record { user = user.value; groups = groups.now })
            want.bits }
        ensures masked { result.masked ≡ is_masked_off self.now
            (record { user = owner.value; group = group.value })
            (record { user = user.value; groups = groups.now })
            want.bits }
    {
        self.decision(owner, group, user, groups, want)
    }

    /// Returns a requester, an object and a request, or `None`, as `PosixAcl::excess` does. It takes time n log n for n
    /// entries in both ACLs.
    pub fn excess(&self, second: &EntriesView) -> Option<PosixDifference>
        ensures none { IsNone result → GrantsNothingMore self.now second.now }
        ensures some { IfSome result (IsPosixExcess self.now second.now) }
        ensures lowest { IfSome result (IsLowestRequest self.now second.now) }
    {
        self.difference(second)
    }

    /// Returns the place of the entry with a tag and qualifier, from 0, if there is one. Logarithmic time.
    pub fn place(&self, tag: Tag) -> Option<usize>
        ensures { IsFoundAt self.now (tag_of tag) result }
    {
        self.place_of(tag.rank(), tag.qualifier())
    }

    /// Returns the file mode bits: USER_OBJ, then MASK or, if there is no MASK, GROUP_OBJ, then OTHER. Logarithmic
    /// time.
    pub fn mode(&self) -> Mode
        ensures { result.bits ≡ mode_of self.now }
    {
        self.mode_bits()
    }
}

impl<'a> EntrySet for EntriesView<'a> {
    ghost entries = { λ entries. entries };

    fn count(&self) -> usize {
        self.raws.len()
    }

    fn entry_at(&self, place: usize) -> Entry {
        entry_in(self.raws, place)
    }
}

impl<'a> AccessCheck for EntriesView<'a> {}

impl<'a> Deciding for EntriesView<'a> {}

impl<'a> GroupAnswers for EntriesView<'a> {}

impl<'a> Excess for EntriesView<'a> {}

/// Fails with the first entry with wrong numbers.
fn are_entries(raws: &[RawEntry]) -> Result<(), ViewFault>
    ensures right { OnOk result (AreEntries raws.now) }
    ensures fault { IfErr result (IsFaultOfView raws.now) }
    ensures accepts { AreEntries raws.now → IsOk result }
{
    for (place, raw) in raws.iter().enumerate() {
        if let Err(fault) = raw.entry() {
            return Err(ViewFault::Entry(place, fault));
        }
    }
    Ok(())
}

/// Returns the place of the first entry that is not after the entry before it.
fn first_stop(raws: &[RawEntry]) -> Option<usize>
    requires { AreEntries raws.now }
    ensures some { IfSome result (IsFirstStop (raw_pairs raws.now)) }
    ensures none { IsNone result → IsSorted (raw_pairs raws.now) }
{
    for place in 1..raws.len() {
        if entry_in(raws, place - 1).tag >= entry_in(raws, place).tag {
            return Some(place);
        }
    }
    None
}

fn entry_in(raws: &[RawEntry], place: usize) -> Entry
    requires entries { AreEntries raws.now }
    requires in_range { place < length raws.now }
    ensures { get_or (raw_pairs raws.now) place (pair_of result) ≡ pair_of result }
{
    match raws[place].entry() {
        Ok(entry) => entry,
        Err(_) => unreachable!(),
    }
}
