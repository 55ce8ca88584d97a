//! The queues of the places that wait, one for each kind, class and right.
ghost use Rattle.std.specs.Prelude.{◌+◌, ◌<◌, ◌≡◌, ◌≢◌};
ghost use Rattle.acl_normal.specs.Common.{AreQueues, has_bit, IfOk, is_users, length, mask_here, OnOk, slot_count, slot_of, true, vec_len};
ghost use Rattle.acl_normal.specs.internal.emit.Queues.{AreNoted, IsQueueAt, MovesOn, PutsPlace, head_in, place_in};
ghost use Rattle.acl_normal.specs.internal.Places.{IsBlockedPast, IsClearTo, NoneWaitsTo, SomeWaitsPast};

use crate::ace_principal::whom;
use crate::mask_rights::next_right;
use crate::principal_class::Class;
use crate::rows::remaining::Remaining;
use crate::rows::waiting::{SLOTS, slot};
use acl_perm::Kind;
use acl_perm::internal::Bit;
use std::alloc::{AllocError, Global};

/// A place that waits, and the number of the link with the next place of its queue.
#[derive(Clone, Copy)]
pub(crate) struct Link {
    pub(crate) place: usize,
    pub(crate) next: usize,
}

/// The places that wait with each right, by kind and class, in order. No place before the first of a queue waits; a
/// place after it may no longer wait either.
#[derive(Drop)]
pub(crate) struct Queues {
    /// The links of all queues. Each queue ends with link 0, which has no place. A link has a greater number than the
    /// next link of its queue.
    pub(crate) links: Vec<Link>,
    /// By slot, the number of the first link of the queue.
    pub(crate) heads: Vec<usize>,
}

impl Queues {
    /// Makes the queues of all places that wait. Fails if memory runs out.
    pub(crate) fn of(alloc: Global, rows: &Remaining<'_>) -> Result<Queues, AllocError>
        ensures { IfOk result (λ queues. AreQueues rows.now queues) }
    {
        let count = rows.len();
        let mut links = Vec::with_capacity(alloc, count + 1)?;
        links.push(Link { place: 0, next: 0 })?;
        let heads = vec![in alloc; 0; SLOTS]?;
        let mut queues = Queues { links, heads };
        for place in (0..count).rev() {
            queues.note(rows, place)?;
        }
        Ok(queues)
    }

    /// Puts a place at the front of the queues of the rights that its ACE has.
    fn note(&mut self, rows: &Remaining<'_>, place: usize) -> Result<(), AllocError>
        requires place { place < length rows.now }
        requires noted { AreNoted rows.now (place + 1) 0 self.old }
        ensures { OnOk result (AreNoted rows.now place 0 self.new) }
    {
        let ace = rows.ace_at(place);
        let class = Class::of(whom(&ace));
        let mask = rows.mask_at(place);
        let mut from = 0;
        while let Some(right) = next_right(mask, from) {
            self.put(place, slot(ace.kind, class, right))?;
            from = right.bit + 1;
        }
        Ok(())
    }

    /// Puts a place at the front of the queue of a slot.
    fn put(&mut self, place: usize, slot: usize) -> Result<(), AllocError>
        requires { slot < vec_len self.old.heads }
        ensures { OnOk result (PutsPlace place slot self.old self.new) }
    {
        let next = self.heads[slot];
        let at = self.links.len();
        self.links.push(Link { place, next })?;
        self.heads[slot] = at;
        Ok(())
    }

    /// Moves the beginning of a queue to the first place that still waits, or to the end of the queue.
    pub(crate) fn move_on(&mut self, rows: &Remaining<'_>, kind: Kind, class: Class, right: Bit)
        requires { AreQueues rows.now self.old }
        ensures queues { AreQueues rows.now self.new }
        ensures moved { MovesOn kind (is_users class) right.bit rows.now self.old self.new }
    {
        let first = self.first_link(rows, kind, class, right);
        self.heads[slot(kind, class, right)] = first;
    }

    /// Returns the last place at which no waiting ACE before the place conflicts with an ACE of a kind and a class on a
    /// right.
    pub(crate) fn last_clear(
        &self,
        rows: &Remaining<'_>,
        kind: Kind,
        class: Class,
        right: Bit,
    ) -> usize
        requires { AreQueues rows.now self.now }
        ensures clear { IsClearTo kind (is_users class) right.bit rows.now result }
        ensures blocked { IsBlockedPast kind (is_users class) right.bit rows.now result }
    {
        let others = self.first_waiting(rows, kind.other(), Class::Others, right);
        match class {
            Class::Users => others,
            Class::Others => {
                let users = self.first_waiting(rows, kind.other(), Class::Users, right);
                users.min(others)
            }
        }
    }

    /// Returns the first place that waits in a queue, or the greatest number if none waits.
    fn first_waiting(&self, rows: &Remaining<'_>, kind: Kind, class: Class, right: Bit) -> usize
        requires { AreQueues rows.now self.now }
        ensures before { NoneWaitsTo kind (is_users class) right.bit rows.now result }
        ensures behind { SomeWaitsPast kind (is_users class) right.bit rows.now result }
    {
        let at = self.first_link(rows, kind, class, right);
        if at == 0 {
            return usize::MAX;
        }
        self.links[at].place
    }

    /// Returns the number of the first link of a queue whose place still waits, or 0 if none waits.
    fn first_link(&self, rows: &Remaining<'_>, kind: Kind, class: Class, right: Bit) -> usize
        requires { AreQueues rows.now self.now }
        ensures queue { IsQueueAt kind (is_users class) right.bit rows.now
            self.now.links.items result }
        ensures waits { result ≢ 0
            → has_bit (mask_here rows.now (place_in self.now result)) right.bit ≡ true }
    {
        let mut at = self.head(kind, class, right);
        while at != 0 {
            let link = self.links[at];
            if rows.has(link.place, right) {
                return at;
            }
            at = link.next;
        }
        0
    }

    /// Returns the number of the first link of a queue, or 0 if the queue is empty.
    #[inline(always)]
    pub(crate) fn head(&self, kind: Kind, class: Class, right: Bit) -> usize
        requires { vec_len self.now.heads ≡ slot_count }
        ensures { result ≡ head_in self.now (slot_of kind (is_users class) right.bit) }
    {
        self.heads[slot(kind, class, right)]
    }
}
