//! The rows of a list that was emitted in part, with the places that wait as sets.
ghost use Rattle.std.specs.Prelude.{◌^◌, ◌||◌, ◌↔◌, ◌≡◌, None};
ghost use Rattle.acl_normal.specs.Common.{all_rights, column, false, has_bit, IfOk, is_free, is_users, IsIrreducibleList, IsLowest, IsRowOf, IsTrue, left, nat_cmp, nothing_left, option_map, principal, SameGrants, Some, take_out, true, ℕ};
ghost use Rattle.std.specs.BTreeSet.{contains};
ghost use Rattle.acl_perm.specs.declared.kind.Kind.TheVariants.{Deny, Allow};
ghost use Rattle.acl_normal.specs.Left.{HasFree, KeepsFirsts};
ghost use Rattle.acl_normal.specs.Places.{waits};
ghost use Rattle.acl_normal.specs.internal.Places.{IsBlockedPast, IsClearTo, NoneWaitsTo, SomeWaitsPast};

use crate::mask_rights::{alone, next_right};
use crate::principal_class::Class;
use crate::reduce::reduced_list;
use crate::rows::remaining::Remaining;
use crate::rows::waiting::{slot, waiting_sets};
use acl_nfs4::Acl;
use acl_perm::internal::Bit;
use acl_perm::{Kind, Mask, Principal};
use std::alloc::{AllocError, Global};
use std::collections::BTreeSet;
use std::marker::Model;

/// What is left of a list while its normal form is made (this library's own, over RFC 8881, section 6.2.1): the needed
/// rights that were not emitted yet, by principal, and the places in the given list that still wait with them.
#[derive(Drop)]
pub struct MergedRows<'a> {
    pub(crate) rest: Remaining<'a>,
    /// By kind, class and right, the places that wait.
    pub(crate) waiting: Vec<BTreeSet<usize>>,
}

impl<'a> Model for MergedRows<'a> {
    ghost use Rattle.std.specs.Prelude.{List};
    ghost use Rattle.acl_nfs4.specs.Ace.{Ace};
    ghost use Rattle.acl_normal.specs.internal.rows.Merged.{IsMerged};

    ghost Value = { List Ace };

    ghost view = { λ s. s.rest };

    ghost invariant = { IsMerged };
}

// A bit below 21 that is no right.
const NO_RIGHT: Bit = Bit { bit: 11 };

impl<'a> MergedRows<'a> {
    /// Returns the rows of a list without the rights that play no part. It takes time that is nearly linear in the
    /// bytes of the list. Fails if memory runs out.
    pub fn new(alloc: Global, list: &'a Acl) -> Result<MergedRows<'a>, AllocError>
        // The places are those of the given list, with their kinds, flags and whos.
        ensures places { IfOk result (λ rows. nothing_left rows ≡ nothing_left list.now) }
        // What is left of a principal's right is at the place of the principal's first ACE with the right in the given
        // list.
        ensures firsts { IfOk result (λ rows. KeepsFirsts list.now rows) }
        ensures grants { IfOk result (λ rows. SameGrants all_rights list.now rows) }
        ensures irreducible { IfOk result (λ rows. IsIrreducibleList (left rows)) }
    {
        let reduced = reduced_list(alloc, &list.view())?;
        let waiting = waiting_sets(alloc, &reduced.aces, &reduced.masks)?;
        let rest = Remaining::of(alloc, reduced)?;
        Ok(MergedRows { rest, waiting })
    }

    /// Takes rights of a principal out of what is left. Rights that the principal does not have there are ignored. It
    /// takes no memory.
    pub fn emit(&mut self, p: Principal<'_>, bits: Mask)
        ensures { self.new ≡ take_out (principal p.entry) bits.bits self.old }
    {
        if let Some(row) = self.rest.row_named(p) {
            self.emit_row(row, p, bits);
        }
    }

    /// Returns whether the principal has one of these rights in what is left and is free on it: no ACE before the
    /// principal's own ACE conflicts with it on the right. It takes no memory.
    pub fn is_free(&self, p: Principal<'_>, bits: Mask) -> bool
        ensures { IsTrue result ↔ HasFree self.now (principal p.entry) bits.bits }
    {
        let mut from = 0;
        while let Some(right) = next_right(bits, from) {
            if self.is_free_at(p, right) {
                return true;
            }
            from = right.bit + 1;
        }
        false
    }

    /// Returns the places that wait with a right: the places of the ACEs that still have the right, are of the kind,
    /// and name a user if `users` is true, and otherwise another principal. If `bit` has several rights, the lowest one
    /// counts; if it has none, no place waits. It takes no memory.
    pub fn waiting(&self, kind: Kind, users: bool, bit: Mask) -> &BTreeSet<usize>
        ensures places { (right : ℕ) → IsLowest right bit.bits → (place : ℕ)
            → contains nat_cmp result.now place ≡ waits kind users right self.now place }
        // For no right, the set is empty.
        ensures none { bit.bits ≡ 0 → (place : ℕ) → contains nat_cmp result.now place ≡ false }
    {
        let class = Class::of_users(users);
        match lowest(bit) {
            Some(right) => self.waiting_at(kind, class, right),
            None => self.waiting_at(kind, class, NO_RIGHT),
        }
    }

    /// Takes rights of the principal of a row out of what is left.
    fn emit_row(&mut self, row: usize, p: Principal<'_>, mask: Mask)
        requires { IsRowOf row (principal p) self.old }
        ensures { self.new ≡ take_out (principal p.entry) mask.bits self.old }
    {
        let mut from = 0;
        while let Some(right) = next_right(mask, from) {
            self.emit_bit(row, p, right);
            from = right.bit + 1;
        }
    }

    /// Takes one right of the principal of a row out of what is left, and its place out of the set of places that wait.
    fn emit_bit(&mut self, row: usize, p: Principal<'_>, right: Bit)
        requires { IsRowOf row (principal p) self.old }
        ensures { self.new ≡ take_out (principal p.entry) (2 ^ right.bit) self.old }
    {
        if let Some(place) = self.rest.place_in(row, right) {
            let kind = self.rest.kind_at(place);
            let at = slot(kind, Class::of(p), right);
            let set = &mut self.waiting[at];
            set.remove(&place);
            self.rest.take_out(row, p, alone(right));
        }
    }

    /// Returns whether the principal still has the right and is free on it.
    fn is_free_at(&self, p: Principal<'_>, right: Bit) -> bool
        ensures { result ≡ (is_free (column self.now right.bit) (principal p.entry, Deny)
            || is_free (column self.now right.bit) (principal p.entry, Allow)) }
    {
        match self.rest.source(p, right) {
            None => false,
            Some((kind, place)) => place <= self.last_clear(kind, Class::of(p), right),
        }
    }

    /// Returns the last place at which no waiting ACE before the place conflicts with an ACE of a kind and a class on a
    /// right.
    fn last_clear(&self, kind: Kind, class: Class, right: Bit) -> usize
        ensures clear { IsClearTo kind (is_users class) right.bit self.now result }
        ensures blocked { IsBlockedPast kind (is_users class) right.bit self.now result }
    {
        let others = self.first_waiting(kind.other(), Class::Others, right);
        match class {
            Class::Users => others,
            Class::Others => {
                let users = self.first_waiting(kind.other(), Class::Users, right);
                users.min(others)
            }
        }
    }

    /// Returns the first place that waits in a kind and a class with a right, or the greatest number if none waits.
    fn first_waiting(&self, kind: Kind, class: Class, right: Bit) -> usize
        ensures before { NoneWaitsTo kind (is_users class) right.bit self.now result }
        ensures behind { SomeWaitsPast kind (is_users class) right.bit self.now result }
    {
        match self.waiting_at(kind, class, right).first() {
            Some(place) => *place,
            None => usize::MAX,
        }
    }

    /// Returns the places of the ACEs of a kind and a class that wait with a right. If the bit is no right, no place
    /// waits.
    fn waiting_at(&self, kind: Kind, class: Class, right: Bit) -> &BTreeSet<usize>
        ensures places { (i : ℕ) → contains nat_cmp result.now i
            ≡ waits kind (is_users class) right.bit self.now i }
        ensures none { has_bit all_rights right.bit ≡ false
            → (i : ℕ) → contains nat_cmp result.now i ≡ false }
    {
        &self.waiting[slot(kind, class, right)]
    }
}

// The lowest right of a mask, if it has any.
pub(crate) fn lowest(bits: Mask) -> Option<Bit>
    ensures some { (bit : ℕ) → IsLowest bit bits.bits → option_map (λ right. right.bit) result
        ≡ Some bit }
    ensures none { bits.bits ≡ 0 → result ≡ None }
{
    next_right(bits, 0)
}
