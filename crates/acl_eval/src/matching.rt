//! The facts about a requester and an object that are the same for each ACE of a list. They are computed once.
ghost use Rattle.std.specs.Prelude.{◌≡◌, ◌≤◌, length};
ghost use Rattle.std.specs.List.{list_any};
ghost use Rattle.std.specs.Str.{bytes_eq};
ghost use Rattle.acl_perm.specs.Principal.{group, owner, principal};
ghost use Rattle.acl_perm.specs.Situation.{matches};
ghost use Rattle.acl_nfs4.specs.Ace.{ace};
ghost use Rattle.acl_eval.specs.Situation.{groups_of, situation, user_of};
ghost use Rattle.acl_eval.specs.internal.LastByte.{last_of};
ghost use Rattle.acl_eval.specs.Scan.{applies};

use crate::situation::{Object, Requester};
use acl_nfs4::AceRef;
use acl_perm::Principal;

/// A requester of an object, with the facts that are the same for each ACE: whether the requester is the owner, whether
/// the requester is in the owning group, and the last byte of the requester's name.
#[derive(Drop)]
pub struct Matcher<'a> {
    object: Object<'a>,
    requester: Requester<'a>,
    is_owner: bool,
    is_in_owning_group: bool,
    last: u8,
    ghost owns: { is_owner ≡ matches (situation object requester) owner },
    ghost belongs: { is_in_owning_group ≡ matches (situation object requester) group },
    ghost ends: { last ≡ last_of (user_of requester) },
}

impl<'a> Matcher<'a> {
    ghost use Rattle.acl_eval.specs.internal.Asked.{asked_situation};

    /// Computes the facts for a list of this many ACEs.
    pub fn new(object: Object<'a>, requester: Requester<'a>, aces: usize) -> Self
        ensures { asked_situation result ≡ situation object.entry requester.entry }
    {
        let requester = requester.for_look_ups(aces);
        Matcher {
            object,
            requester,
            is_owner: requester.is_named(object.owner()),
            is_in_owning_group: requester.is_in(object.group()),
            last: last_byte(requester.user()),
        }
    }

    /// Returns whether the ACE applies: it takes part and matches the requester. Most ACEs are for a user, and are
    /// tested first: they have neither flag, and a who that does not end in `@` is not special.
    #[inline(always)]
    pub fn applies(&self, item: &AceRef<'_>) -> bool
        requires { 1 ≤ length item.now.who.now }
        ensures { result ≡ applies (asked_situation self.now) (ace item.now) }
    {
        let last = item.who[item.who.len() - 1];
        if last != b'@' && item.takes_part() && !item.flags.is_group() {
            return last == self.last && self.requester.is_named(item.who);
        }
        item.takes_part() && self.is_match(item.principal())
    }

    // This is not part of `applies`, so that `applies` is small enough to be inlined.
    #[inline(never)]
    fn is_match(&self, whom: Principal<'_>) -> bool
        ensures { result
            ≡ matches (asked_situation self.now) (principal whom.entry) }
    {
        match whom {
            Principal::Owner => self.is_owner,
            Principal::User(name) => self.requester.is_named(name),
            Principal::Group => self.is_in_owning_group,
            Principal::GroupNamed(name) => self.requester.is_in(name),
            Principal::Everyone => true,
        }
    }
}

// Returns the last byte of a name, or 0 for the empty name.
fn last_byte(name: &[u8]) -> u8
    ensures { result ≡ last_of name.now }
{
    match name {
        [.., last] => *last,
        [] => 0,
    }
}
