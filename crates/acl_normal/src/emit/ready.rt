//! The keys that are free on some right, by number.
ghost use Rattle.std.specs.Prelude.{◌*◌, ◌<◌, ◌^◌, ◌≡◌, slice_set};
ghost use Rattle.acl_normal.specs.Common.{bit_or, IfNone, IfOk, IfSome, length, OnOk, replicate, slice_index_or, ℕ};
ghost use Rattle.acl_normal.specs.internal.emit.Ready.{IsLeastReady};
ghost use Rattle.acl_normal.specs.internal.Limits.{slice_limit};

use crate::mask_rights::with;
use acl_perm::internal::Bit;
use std::alloc::{AllocError, Global};
use std::cmp::Reverse;
use std::collections::BinaryHeap;
use std::marker::Model;

/// The free rights of each key by the number of the key, and a heap of the numbers that have some, the least first.
#[derive(Drop)]
pub(crate) struct Ready {
    bits: Vec<u32>,
    numbers: BinaryHeap<Reverse<usize>>,
}

/// The number of a key, and its free rights as bits.
#[derive(Clone, Copy)]
pub(crate) struct Numbered {
    pub(crate) number: usize,
    pub(crate) bits: u32,
}

impl Model for Ready {
    ghost use Rattle.std.specs.Prelude.{List, ℕ};

    ghost Value = { List ℕ };

    ghost use Rattle.acl_normal.specs.internal.emit.Heaped.{heaped_bits, IsHeaped};

    ghost view = { heaped_bits };

    ghost invariant = { IsHeaped };
}

impl Ready {
    /// Makes room for the keys of all rows. No key is free at first.
    pub(crate) fn new(alloc: Global, rows: usize) -> Result<Ready, AllocError>
        requires { rows < slice_limit }
        ensures { IfOk result (λ r. r ≡ replicate (2 * rows) 0) }
    {
        Ok(Ready {
            bits: Vec::from_elem(alloc, 0, 2 * rows)?,
            numbers: BinaryHeap::new(alloc),
        })
    }

    /// Marks the key with this number as free on a right.
    pub(crate) fn add(&mut self, number: usize, right: Bit) -> Result<(), AllocError>
        requires { number < length self.old }
        ensures { OnOk result (self.new ≡ slice_set self.old number
            (bit_or (slice_index_or self.old number 0) (2 ^ right.bit))) }
    {
        let bits = self.bits[number];
        if bits == 0 {
            self.numbers.push(Reverse(number))?;
        }
        self.bits[number] = with(bits, right);
        Ok(())
    }

    /// Takes the least number whose key is free on some right, with these rights, and removes their marks.
    pub(crate) fn pop(&mut self) -> Option<Numbered>
        ensures least { IfSome result (λ key. IsLeastReady self.old key.number key.bits) }
        ensures taken { IfSome result (λ key. self.new ≡ slice_set self.old key.number 0) }
        ensures none { IfNone result ((n : ℕ) → slice_index_or self.old n 0 ≡ 0) }
    {
        let Reverse(number) = self.numbers.pop()?;
        let bits = self.bits[number];
        self.bits[number] = 0;
        Some(Numbered { number, bits })
    }
}
