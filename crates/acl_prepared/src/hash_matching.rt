//! The facts about a requester and an object that are the same for each ACE of a prepared list. They are computed once.
ghost use Rattle.std.specs.Prelude.{◌≡◌, ◌<◌, ◌^◌, ◌==◌, ◌||◌, ℕ, true, map};
ghost use Rattle.std.specs.List.{list_any};
ghost use Rattle.std.specs.Str.{bytes_eq};
ghost use Rattle.acl_perm.specs.Order.{principal_name};
ghost use Rattle.acl_perm.specs.Principal.{group, group_named, owner, principal, user};
ghost use Rattle.acl_perm.specs.Situation.{matches};
ghost use Rattle.acl_eval.specs.Situation.{groups_of, situation, user_of};
ghost use Rattle.acl_prepared.specs.Prepared.{name_hash};
ghost use Rattle.acl_prepared.specs.internal.NameHashes.{AreHashesOf, is_marked};

use crate::prepared_ace::{PreparedAce, name_hash};
use acl_eval::{Object, Requester};
use acl_perm::Principal;

// The number of words that have one bit per hash. To clear four words takes little time compared with a short list.
const WORDS: usize = 4;

// If a requester is in more groups, all is marked: to compute the hashes would take longer than to compare names.
const MANY: usize = 64;

/// A requester of an object, with the facts that are the same for each ACE: whether the requester is the owner, the
/// hash of the requester's name, and which hashes the names of the groups have.
#[derive(Drop)]
pub(crate) struct HashMatcher<'a> {
    object: Object<'a>,
    requester: Requester<'a>,
    is_owner: bool,
    user_hash: u8,
    group_hashes: &'a [u64; WORDS],
    ghost owns: { is_owner ≡ matches (situation object requester) owner },
    ghost named: { user_hash ≡ name_hash (user_of requester) },
    ghost members: { AreHashesOf group_hashes.now (groups_of requester) },
}

impl<'a> HashMatcher<'a> {
    ghost use Rattle.acl_prepared.specs.internal.AskedByHashes.{situation_by_hashes};

    /// Computes the facts. `group_hashes` are the hashes of the requester's groups, which `hashes_of` returns. They are
    /// borrowed, so that they are not copied.
    pub(crate) fn new(
        object: Object<'a>,
        requester: Requester<'a>,
        group_hashes: &'a [u64; WORDS],
    ) -> Self
        requires { AreHashesOf group_hashes.now (groups_of requester) }
        ensures { situation_by_hashes result ≡ situation object.entry requester.entry }
    {
        HashMatcher {
            object,
            requester,
            is_owner: requester.is_named(object.owner()),
            user_hash: name_hash(requester.user()),
            group_hashes,
        }
    }

    /// Returns whether the principal matches the requester. The hash is that of its name. Hashes are compared before
    /// names, since most names differ.
    #[inline(always)]
    pub(crate) fn is_match(&self, whom: Principal<'_>, hash: u8) -> bool
        ensures { hash ≡ name_hash (principal_name (principal whom.entry))
            → result ≡ matches (situation_by_hashes self.now) (principal whom.entry) }
    {
        match whom {
            Principal::Owner => self.is_owner,
            Principal::User(name) => self.is_user(name, hash),
            Principal::Group => self.is_in_owning_group(),
            Principal::GroupNamed(name) => self.is_in(name, hash),
            Principal::Everyone => true,
        }
    }

    #[inline(always)]
    fn is_user(&self, name: &[u8], hash: u8) -> bool
        ensures { hash ≡ name_hash name.now
            → result ≡ matches (situation_by_hashes self.now) (user name.now) }
    {
        hash == self.user_hash && self.requester.is_named(name)
    }

    fn is_in_owning_group(&self) -> bool
        ensures { result ≡ matches (situation_by_hashes self.now) group }
    {
        let name = self.object.group();
        self.is_in(name, name_hash(name))
    }

    #[inline(always)]
    fn is_in(&self, name: &[u8], hash: u8) -> bool
        ensures { hash ≡ name_hash name.now
            → result ≡ matches (situation_by_hashes self.now) (group_named name.now) }
    {
        is_marked(self.group_hashes, hash) && self.requester.is_in(name)
    }
}

/// Marks the hash of each name, or every hash if there are many names.
pub(crate) fn hashes_of(names: &[&[u8]]) -> [u64; WORDS]
    ensures { AreHashesOf result (map (λ g. g.now) names.now) }
{
    if names.len() > MANY {
        all_marked()
    } else {
        marked(names)
    }
}

fn all_marked() -> [u64; WORDS]
    ensures { (hash : ℕ) → hash < 2 ^ 8 → is_marked result hash ≡ true }
{
    [u64::MAX; WORDS]
}

fn marked(names: &[&[u8]]) -> [u64; WORDS]
    ensures { AreHashesOf result (map (λ g. g.now) names.now) }
{
    let mut marks = [0; WORDS];
    for name in names {
        mark(&mut marks, name_hash(name));
    }
    marks
}

#[inline(always)]
fn mark(marks: &mut [u64; WORDS], hash: u8)
    ensures { (other : ℕ)
        → is_marked marks.new other ≡ (is_marked marks.old other || other == hash) }
{
    marks[hash as usize / 64] |= 1 << (hash % 64);
}

#[inline(always)]
fn is_marked(marks: &[u64; WORDS], hash: u8) -> bool
    ensures { result ≡ is_marked marks.now hash }
{
    (marks[hash as usize / 64] >> (hash % 64)) & 1 == 1
}
