//! A requester whose groups are looked up in a sorted copy.
ghost use Rattle.std.specs.Prelude.{◌≡◌, IfOk};
ghost use Rattle.std.specs.Option.{ForSome};
ghost use Rattle.acl_eval.specs.Situation.{given_groups_of, groups_of, situation};
ghost use Rattle.acl_eval.specs.declared.situation.Object.{Object};
ghost use Rattle.acl_eval.specs.internal.GroupOrder.{IsSortedCopy};

use crate::groups::sorted_names;
use crate::situation::Requester;
use std::alloc::{AllocError, Global};

/// A requester, with a sorted copy of the groups if they are many and in no order.
#[derive(Drop)]
pub struct SortedRequester<'a> {
    requester: Requester<'a>,
    copy: Option<Vec<&'a [u8]>>,
    ghost copied: { ForSome copy (λ copy. IsSortedCopy requester.groups.names.now copy.items) },
    ghost counted: { ForSome copy (λ copy. groups_of requester ≡ given_groups_of requester) },
}

impl<'a> SortedRequester<'a> {
    ghost use Rattle.acl_eval.specs.SortedRequester.{requester_of};

    /// Makes a sorted copy of the groups, if this many look-ups among them take longer: if there are many look-ups and
    /// many groups, which are in no order. Otherwise it takes no memory. Fails if memory runs out.
    ///
    /// ```rust
    /// let list = parse_text(alloc, b"DENY GROUP WRITE_DATA staff\nALLOW - WRITE_DATA EVERYONE@")?;
    /// let object = Object::new(b"alice", b"staff").ok_or("a name is empty")?;
    /// let bob = Requester::new(b"bob", &[b"users", b"staff"]).ok_or("a name is empty")?;
    /// let sorted = SortedRequester::new(alloc, bob, list.len())?;
    /// let rights = decided(list.aces(), &object, &sorted.requester(), Mask::ALL);
    /// assert!(rt; rights.denied == Mask::WRITE_DATA);
    /// ```
    pub fn new(alloc: Global, requester: Requester<'a>, look_ups: usize) -> Result<Self, AllocError>
        ensures situation { IfOk result (λ sorted. (object : Object)
            → situation object (requester_of sorted) ≡ situation object requester.entry) }
        ensures given { IfOk result (λ sorted.
            given_groups_of (requester_of sorted) ≡ given_groups_of requester.entry) }
    {
        let requester = requester.for_look_ups(look_ups);
        if !requester.groups.are_worth_sorting(look_ups) {
            return Ok(SortedRequester::unsorted(requester));
        }
        let copy = sorted_names(alloc, requester.groups.names())?;
        Ok(SortedRequester {
            requester,
            copy: Some(copy),
        })
    }

    /// Makes this requester without a copy of the groups.
    pub fn unsorted(requester: Requester<'a>) -> Self
        ensures { requester_of result ≡ requester.entry }
    {
        SortedRequester {
            requester,
            copy: None,
        }
    }

    /// Returns the requester, whose groups are looked up in the copy if there is one. Every answer about it is the
    /// same as about the requester that was given.
    pub fn requester(&self) -> Requester<'_>
        ensures situation { (object : Object)
            → situation object result ≡ situation object (requester_of self.now) }
        ensures given { given_groups_of result ≡ given_groups_of (requester_of self.now) }
    {
        match &self.copy {
            Some(copy) => self.requester.with_copy(copy),
            None => self.requester,
        }
    }
}
