//! The object, the requester and the right of a difference, in the types that the calls of `acl_eval` take.
ghost use Rattle.std.specs.Prelude.{◌^◌, ◌≡◌};
ghost use Rattle.acl_normal.specs.Common.{slice_index_or};
ghost use Rattle.acl_eval.specs.Situation.{groups_of, owner_of, owning_group_of, user_of};
ghost use Rattle.acl_normal.specs.RequesterNames.{groups_in, user_in};
ghost use Rattle.acl_normal.specs.Difference.{situation_of};

use super::{Difference, RequesterNames};
use acl_eval::{Object, Requester};
use acl_perm::Right;

impl<'a> RequesterNames<'a> {
    /// Returns the requester with these names, which stay borrowed.
    #[tactic(auto, using(crate::proofs::comparison::Asked::named_groups))]
    pub fn requester(&'a self) -> Requester<'a>
        ensures user { user_of result ≡ user_in self.now }
        ensures groups { groups_of result ≡ groups_in self.now }
    {
        match Requester::new(self.user, &self.names[..self.count]) {
            Some(requester) => requester,
            // No name is empty.
            None => unreachable!(),
        }
    }
}

impl Difference {
    /// Returns the right of the difference as the number of its bit.
    pub fn right(&self) -> Right
        ensures { self.now.bit.bits ≡ 2 ^ result.bit }
    {
        Right {
            bit: self.bit.bits().trailing_zeros() as usize,
        }
    }

    /// Returns the object with its owner and owning group, whose names are borrowed.
    pub fn object(&self) -> Object<'_>
        ensures owner { owner_of result ≡ (situation_of self.now).owner_name }
        ensures group { owning_group_of result ≡ (situation_of self.now).owning_group }
    {
        match Object::new(&self.owner, &self.group) {
            Some(object) => object,
            // No name is empty.
            None => unreachable!(),
        }
    }

    /// Returns the user and the groups, whose names are borrowed. It takes no memory. `RequesterNames::requester` makes
    /// a `Requester` of them.
    pub fn requester_names(&self) -> RequesterNames<'_>
        ensures user { user_in result ≡ (situation_of self.now).user_name }
        ensures groups { groups_in result ≡ (situation_of self.now).groups }
    {
        RequesterNames {
            user: &self.user,
            names: [self.group_or_user(0), self.group_or_user(1)],
            count: self.groups.len(),
        }
    }

    // The name of the group with this number, or the name of the user if there is no such group.
    fn group_or_user(&self, number: usize) -> &[u8]
        ensures { result.now ≡ slice_index_or (situation_of self.now).groups number
            (situation_of self.now).user_name }
    {
        match self.groups.get(number) {
            Some(group) => group,
            None => &self.user,
        }
    }
}
