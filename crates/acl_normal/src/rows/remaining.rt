//! What is left of a list while it is emitted: for each row, the rights that were not emitted yet.
ghost use Rattle.std.specs.Prelude.{◌*◌, ◌<◌, ◌≡◌};
ghost use Rattle.acl_normal.specs.Common.{IfNone, IfOk, IfSome, IsRowOf, ace, false, has_bit, is_principal_of, key_here, kind_here, length, mask_here, plain_key, principal, principal_here, principal_of, take_out, vec_len};
ghost use Rattle.acl_normal.specs.Places.{first_at};
ghost use Rattle.acl_normal.specs.internal.rows.Remaining.{HasNumbers, IsRemainder, reduced_aces};
ghost use Rattle.acl_normal.specs.internal.rows.Rows.{IsFirstOfRow, IsNumberOf};
ghost use Rattle.acl_normal.specs.internal.Limits.{list_limit};

use crate::ace_principal::whom;
use crate::rows::numbers::{RowNumbers, find_row};
use acl_nfs4::AceRef;
use acl_perm::internal::Bit;
use acl_perm::{Key, Kind, Mask, Principal};
use std::alloc::{AllocError, Global};
use std::marker::Model;

/// The ACEs of a list, their masks without the rights that play no part, and the rows of their principals.
#[derive(Drop)]
pub struct Reduced<'a> {
    pub aces: Vec<AceRef<'a>>,
    pub masks: Vec<Mask>,
    pub(crate) numbers: RowNumbers,
}

/// What is left of a list while its normal form is emitted. No place is ever moved: a right that is emitted leaves the
/// mask of its row.
#[derive(Drop)]
pub(crate) struct Remaining<'a> {
    pub(crate) aces: Vec<AceRef<'a>>,
    /// By place, the rights that play a part.
    pub(crate) masks: Vec<Mask>,
    /// By place, the row of the principal that the ACE names.
    pub(crate) rows: Vec<usize>,
    /// The places in the order of the principals that their ACEs name.
    pub(crate) order: Vec<usize>,
    /// By row, the rights that were not emitted yet.
    pub(crate) left: Vec<Mask>,
}

impl<'a> Model for Remaining<'a> {
    ghost use Rattle.std.specs.Prelude.{List};
    ghost use Rattle.acl_nfs4.specs.Ace.{Ace};
    ghost use Rattle.acl_normal.specs.internal.rows.Remaining.{remaining_of, IsRemaining};

    ghost Value = { List Ace };

    ghost view = { remaining_of };

    ghost invariant = { IsRemaining };
}

impl<'a> Remaining<'a> {
    /// Returns what is left before anything was emitted: all of the list.
    pub(crate) fn of(alloc: Global, reduced: Reduced<'a>) -> Result<Remaining<'a>, AllocError>
        requires few { vec_len reduced.aces < list_limit }
        requires places { vec_len reduced.masks ≡ vec_len reduced.aces }
        requires reduced { HasNumbers reduced }
        ensures { IfOk result (λ r. r ≡ reduced_aces reduced.entry) }
    {
        let Reduced {
            aces,
            masks,
            numbers,
        } = reduced;
        let left = vec![in alloc; Mask::ALL; aces.len()]?;
        let RowNumbers { rows, order } = numbers;
        Ok(Remaining {
            aces,
            masks,
            rows,
            order,
            left,
        })
    }

    /// Returns the kind of the principal's ACE with the right, and its place.
    pub(crate) fn source(&self, p: Principal<'_>, right: Bit) -> Option<(Kind, usize)>
        ensures { result ≡ first_at right.bit (principal p.entry) self.now }
    {
        let row = self.row_named(p)?;
        let place = self.place_in(row, right)?;
        Some((self.kind_at(place), place))
    }

    /// Returns the row of a principal, if an ACE names the principal. It takes a binary search.
    pub(crate) fn row_named(&self, p: Principal<'_>) -> Option<usize>
        ensures found { IfSome result (λ row. IsRowOf row (principal p.entry) self.now) }
        ensures missing { IfNone result (is_principal_of (principal p.entry) self.now ≡ false) }
    {
        find_row(&self.aces, &self.rows, &self.order, p)
    }

    /// Returns the place of the ACE of a row that still has a right, if there is one. The places of a row are next to
    /// each other in the order of the principals.
    pub(crate) fn place_in(&self, row: usize, right: Bit) -> Option<usize>
        requires { row < length self.now }
        ensures { IsFirstOfRow row right.bit self.now result }
    {
        for at in row..self.len() {
            let place = self.order[at];
            if self.rows[place] != row {
                return None;
            }
            if self.has(place, right) {
                return Some(place);
            }
        }
        None
    }

    /// Returns whether the ACE at a place has a right that was not emitted yet.
    pub(crate) fn has(&self, place: usize, right: Bit) -> bool
        requires { place < length self.now }
        ensures { result ≡ has_bit (mask_here self.now place) right.bit }
    {
        right.is_in(self.mask_at(place))
    }

    /// Returns the rights that the ACE at a place still has.
    pub(crate) fn mask_at(&self, place: usize) -> Mask
        requires { place < length self.now }
        ensures mask { result.bits ≡ mask_here self.now place }
        ensures list { IsRemainder self.now }
    {
        self.masks[place].intersection(self.left[self.rows[place]])
    }

    /// Returns the key with this number. The numbers of keys are in the order of the keys.
    pub(crate) fn key_of(&self, number: usize) -> Key<'a>
        requires { number < 2 * length self.now }
        ensures key { IsNumberOf self.now number (plain_key result) }
        ensures list { IsRemainder self.now }
    {
        let place = self.order[number / 2];
        let aces = &self.aces;
        let kind = if number % 2 == 0 {
            Kind::Deny
        } else {
            Kind::Allow
        };
        Key {
            principal: whom(&aces[place]),
            kind,
        }
    }

    /// Returns the row of the principal that the ACE at a place names.
    pub(crate) fn row_at(&self, place: usize) -> usize
        requires { place < length self.now }
        ensures row { IsRowOf result (principal_here self.now place) self.now }
        ensures list { IsRemainder self.now }
    {
        self.rows[place]
    }

    pub(crate) fn kind_at(&self, place: usize) -> Kind
        requires { place < length self.now }
        ensures { result ≡ kind_here self.now place }
    {
        self.ace_at(place).kind
    }

    /// Returns the ACE at a place, with all rights that play a part.
    pub(crate) fn ace_at(&self, place: usize) -> AceRef<'a>
        requires { place < length self.now }
        ensures { (principal_of (ace result), result.kind) ≡ key_here self.now place }
    {
        let aces = &self.aces;
        aces[place]
    }

    pub(crate) fn len(&self) -> usize
        ensures count { result ≡ length self.now }
        // What is left is a tidy list at every step.
        ensures list { IsRemainder self.now }
    {
        let aces = &self.aces;
        aces.len()
    }

    /// Takes rights of the principal of a row out of what is left of the row.
    pub(crate) fn take_out(&mut self, row: usize, p: Principal<'_>, mask: Mask)
        requires { IsRowOf row (principal p) self.old }
        ensures { self.new ≡ take_out (principal p.entry) mask.bits self.old }
    {
        self.left[row] = self.left[row].difference(mask);
    }
}
