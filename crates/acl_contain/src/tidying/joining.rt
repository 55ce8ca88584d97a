//! ACEs that are joined into earlier ones.
ghost use Rattle.std.specs.Prelude.{◌≡◌, ◌+◌, ◌*◌, ◌<◌, ◌^◌, IsTrue};
ghost use Rattle.acl_normal.specs.Common.{IfOk, OnOk, ace, aces_in, false, length, vec_len};
ghost use Rattle.acl_contain.specs.internal.Joining.{AreEndsNoted, HasAdded, HasNumbersOf, IsBarred, IsFreeBelow, IsPass, IsPlain, key_slot, opposing_end, right_slot, right_slots};

use super::numbers::Numbers;
use acl_nfs4::AceRef;
use acl_perm::internal::Bit;
use acl_perm::{Kind, Mask};
use std::alloc::{AllocError, Global};

/// The number of kinds, and of kinds and classes.
const KINDS: usize = 2;

const KINDS_AND_CLASSES: usize = 4;

/// The ACEs that were kept so far, and the ends of some of them. An end is the number of kept ACEs up to the last one
/// that is meant, and 0 if there is none.
#[derive(Drop)]
pub(crate) struct Joining<'a> {
    pub(crate) kept: Vec<AceRef<'a>>,
    /// The ends of the ACEs of each principal and kind.
    pub(crate) keys: Vec<usize>,
    /// The ends of the ACEs that have each right, by kind and class.
    pub(crate) rights: Vec<usize>,
}

impl<'a> Joining<'a> {
    pub(crate) fn new(
        alloc: Global,
        aces: &[AceRef<'a>],
        numbered: &Numbers,
    ) -> Result<Joining<'a>, AllocError>
        requires plain { IsPlain (aces_in aces.now) }
        requires small { 2 * numbered.now.count < 2 ^ 64 }
        ensures { IfOk result (IsPass (aces_in aces.now) numbered.now 0) }
    {
        let kept = Vec::with_capacity(alloc, aces.len())?;
        let keys = vec![in alloc; 0usize; KINDS * numbered.count]?;
        let rights = vec![in alloc; 0usize; KINDS_AND_CLASSES * Bit::COUNT]?;
        Ok(Joining { kept, keys, rights })
    }

    /// Joins the ACE at a place into the last kept one of its kind and principal, if no kept ACE after that is opposed
    /// to it, and keeps it at the end otherwise.
    pub(crate) fn add(
        &mut self,
        aces: &[AceRef<'a>],
        numbered: &Numbers,
        place: usize,
    ) -> Result<(), AllocError>
        requires plain { IsPlain (aces_in aces.now) }
        requires numbers { HasNumbersOf (aces_in aces.now) numbered.now }
        requires small { 2 * numbered.now.count < 2 ^ 64 }
        requires place { place < length aces.now }
        requires pass { IsPass (aces_in aces.now) numbered.now place self.old }
        ensures { OnOk result (IsPass (aces_in aces.now) numbered.now (place + 1) self.new) }
    {
        let item = aces[place];
        let users = item.principal().is_user();
        let slot = key_slot(numbered.numbers[place], item.kind);
        let end = self.keys[slot];
        if end > 0 && !is_barred(&self.rights, item.mask, item.kind, users, end) {
            self.kept[end - 1] = with_rights(self.kept[end - 1], item.mask);
            note(&mut self.rights, item.mask, item.kind, users, end);
        } else {
            self.kept.push(item)?;
            self.keys[slot] = self.kept.len();
            note(
                &mut self.rights,
                item.mask,
                item.kind,
                users,
                self.kept.len(),
            );
        }
        Ok(())
    }
}

// The place of the end of a principal and a kind.
fn key_slot(number: usize, kind: Kind) -> usize
    requires { 2 * number + 1 < 2 ^ 64 }
    ensures { result ≡ key_slot number kind }
{
    KINDS * number + if kind.is_allow() { 1 } else { 0 }
}

// The place of the end of a right of a kind and class.
fn right_slot(bit: usize, kind: Kind, users: bool) -> usize
    requires { bit < 21 }
    ensures { result ≡ right_slot bit kind users }
{
    let class = if users { KINDS } else { 0 };
    KINDS_AND_CLASSES * bit + class + if kind.is_allow() { 1 } else { 0 }
}

// The ACE with more rights.
fn with_rights<'a>(item: AceRef<'a>, mask: Mask) -> AceRef<'a>
    ensures { HasAdded (ace item.entry) mask.bits (ace result) }
{
    AceRef {
        mask: item.mask.union(mask),
        ..item
    }
}

// The end of the ACEs that have a right and may be opposed to an ACE of a kind and class. If two ACEs of users have the
// right, they name different users, because no right of either can go.
fn opposing_end(rights: &[usize], bit: usize, kind: Kind, users: bool) -> usize
    requires bit { bit < 21 }
    requires size { length rights.now ≡ right_slots }
    ensures { result ≡ opposing_end rights.now bit kind users }
{
    let others = rights[right_slot(bit, kind.other(), false)];
    if users {
        others
    } else {
        others.max(rights[right_slot(bit, kind.other(), true)])
    }
}

// Whether an ACE after an end has one of the rights and may be opposed to an ACE of a kind and class.
fn is_barred(rights: &[usize], mask: Mask, kind: Kind, users: bool, end: usize) -> bool
    requires { length rights.now ≡ right_slots }
    ensures barred { IsTrue result → IsBarred rights.now mask.bits kind users end }
    ensures free { result ≡ false → IsFreeBelow 21 rights.now mask.bits kind users end }
{
    for bit in 0..Bit::COUNT {
        if (Bit { bit }).is_in(mask) && opposing_end(rights, bit, kind, users) > end {
            return true;
        }
    }
    false
}

// Notes an end for rights of a kind and class.
fn note(rights: &mut Vec<usize>, mask: Mask, kind: Kind, users: bool, end: usize)
    requires { vec_len rights.old ≡ right_slots }
    ensures { AreEndsNoted 21 rights.old.items mask.bits kind users end rights.new.items }
{
    for bit in 0..Bit::COUNT {
        if (Bit { bit }).is_in(mask) {
            let slot = right_slot(bit, kind, users);
            let most = rights[slot].max(end);
            rights[slot] = most;
        }
    }
}
