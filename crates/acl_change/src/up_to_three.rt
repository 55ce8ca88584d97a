//! Up to three ACEs, one after the other: what a list has in place of an ACE after a change of the mode.
ghost use Rattle.std.specs.Prelude.{◌≡◌, ◌*◌, ◌≤◌, ◌++◌, OnOk, length};
ghost use Rattle.acl_perm.specs.Profile.{full};
ghost use Rattle.acl_nfs4.specs.Spelling.{IsAccepted};
ghost use Rattle.acl_nfs4.specs.Spelling as spelled;
ghost use Rattle.acl_eval.specs.internal.BridgeBody.{word_bits};
ghost use Rattle.acl_change.specs.internal.UpToThree.{up_to_one, up_to_three};

use acl_nfs4::{AceRef, Acl};
use std::alloc::AllocError;

/// Up to three ACEs, one after the other.
#[derive(Clone, Copy)]
pub(crate) struct UpToThree<'a> {
    pub first: Option<AceRef<'a>>,
    pub second: Option<AceRef<'a>>,
    pub third: Option<AceRef<'a>>,
}

/// How many ACEs there are, and how many mask bits are set in all of them together.
#[derive(Clone, Copy)]
pub(crate) struct Size {
    pub count: u32,
    pub weight: u32,
}

impl<'a> UpToThree<'a> {
    /// Returns the size of the ACEs.
    pub(crate) fn size(self) -> Size
        ensures count { result.count ≡ length (up_to_three self.entry) }
        ensures weight { result.weight ≡ spelled.weight (up_to_three self.entry) }
        ensures few { result.count ≤ 3 }
        ensures light { result.weight ≤ 3 * word_bits }
    {
        Size {
            count: count_of(self.first) + count_of(self.second) + count_of(self.third),
            weight: weight_of(self.first) + weight_of(self.second) + weight_of(self.third),
        }
    }

    /// Adds the ACEs at the end of a list that stays accepted with them. Fails only if memory runs out.
    pub(crate) fn push_to(self, list: &mut Acl) -> Result<(), AllocError>
        requires { IsAccepted full (list.old ++ up_to_three self) }
        ensures { OnOk result (list.new ≡ list.old ++ up_to_three self.entry) }
    {
        push(list, self.first)?;
        push(list, self.second)?;
        push(list, self.third)
    }
}

fn count_of(item: Option<AceRef<'_>>) -> u32
    ensures count { result ≡ length (up_to_one item.entry) }
    ensures few { result ≤ 1 }
{
    match item {
        Some(_) => 1,
        None => 0,
    }
}

fn weight_of(item: Option<AceRef<'_>>) -> u32
    ensures weight { result ≡ spelled.weight (up_to_one item.entry) }
    ensures light { result ≤ word_bits }
{
    match item {
        Some(ace) => ace.mask.bits.count_ones(),
        None => 0,
    }
}

// Adds the ACE, if there is one, at the end of a list that stays accepted with it.
fn push(list: &mut Acl, item: Option<AceRef<'_>>) -> Result<(), AllocError>
    requires { IsAccepted full (list.old ++ up_to_one item) }
    ensures { OnOk result (list.new ≡ list.old ++ up_to_one item.entry) }
{
    match item {
        Some(ace) => list.push_accepted(ace),
        None => Ok(()),
    }
}
