//! Whom an NFSv4 ACE names.
ghost use Rattle.std.specs.Prelude.{◌≡◌, ◌↔◌, IsTrue, Some, refl};
ghost use Rattle.std.specs.Ordering.{as_partial_cmp, eq_by_cmp, on};
ghost use Rattle.std.specs.Cmp.{eq_by_cmp_equiv, on_equiv, on_per, on_total, partial_equiv_from_equiv, partial_order_from_total};
ghost use Rattle.acl_perm.specs.Hashing.{principal_writes};
ghost use Rattle.acl_perm.specs.Principal.{is_everyone, is_user, principal};
ghost use Rattle.acl_perm.specs.Order.{principal_cmp, principal_name, principal_rank};
ghost use Rattle.acl_perm.specs.internal.FedAlike.{principal_alike};
ghost use Rattle.acl_perm.specs.internal.Totality.{principal_total};
ghost use Rattle.acl_perm.specs.Overlap.{Overlap, may_overlap};

use std::cmp::Ordering;
use std::hash::{Hash, Hasher};

/// The principal that an NFSv4 ACE names (RFC 8881, section 6.2.1.5): the object's owner, a user, the members of the
/// object's owning group, the members of a group, or everyone. Names are compared as bytes, and user names and group
/// names are separate. The order is that of the variants, and then that of the names.
#[derive(Clone, Copy, Debug)]
pub enum Principal<'a> {
    /// `OWNER@`: the object's owner.
    Owner,
    /// A who without IDENTIFIER_GROUP: the user of this name.
    User(&'a [u8]),
    /// `GROUP@`: the members of the object's owning group.
    Group,
    /// A who with IDENTIFIER_GROUP: the members of the group of this name.
    GroupNamed(&'a [u8]),
    /// `EVERYONE@`: everyone, also the owner and the members of the owning group.
    Everyone,
}

impl<'a> Principal<'a> {
    /// Returns whether the principal is a user by name. `OWNER@` is not.
    pub fn is_user(&self) -> bool
        ensures { result ≡ is_user (principal self.now) }
    {
        matches!(self, Principal::User(_))
    }

    /// Returns whether the principal is `EVERYONE@`.
    pub fn is_everyone(&self) -> bool
        ensures { result ≡ is_everyone (principal self.now) }
    {
        matches!(self, Principal::Everyone)
    }

    /// Returns the place in the order before names are compared, from 0 for `OWNER@` to 4 for `EVERYONE@` (this
    /// library's own).
    pub fn rank(&self) -> u8
        ensures { result ≡ principal_rank (principal self.now) }
    {
        match self {
            Principal::Owner => 0,
            Principal::User(_) => 1,
            Principal::Group => 2,
            Principal::GroupNamed(_) => 3,
            Principal::Everyone => 4,
        }
    }

    /// Returns the name of the user or of the group, which is empty for `OWNER@`, `GROUP@` and `EVERYONE@`.
    pub fn name(&self) -> &'a [u8]
        ensures { result.now ≡ principal_name (principal self.now) }
    {
        match self {
            Principal::User(name) | Principal::GroupNamed(name) => name,
            _ => &[],
        }
    }
}

impl<'a> PartialEq for Principal<'a> {
    ghost eq = { on principal (eq_by_cmp principal_cmp) };

    ghost laws = { on_per principal (partial_equiv_from_equiv (eq_by_cmp_equiv principal_total)) };

    #[tactic(auto, using(crate::proofs::Orders::principal_tied, crate::proofs::Orders::principals_same))]
    fn eq(&self, other: &Principal<'a>) -> bool
        ensures value { result
            ≡ eq_by_cmp principal_cmp (principal self.now) (principal other.now) }
        ensures exact { IsTrue result ↔ (principal self.now ≡ principal other.now) }
    {
        self.rank() == other.rank() && self.name() == other.name()
    }
}

impl<'a> Eq for Principal<'a> {
    ghost laws = { on_equiv principal (eq_by_cmp_equiv principal_total) };
}

impl<'a> Ord for Principal<'a> {
    ghost cmp = { on principal principal_cmp };

    ghost total = { on_total principal principal_total };

    ghost matches_partial_cmp = { λ x y. refl };

    ghost matches_eq = { λ x y. refl };

    fn cmp(&self, other: &Principal<'a>) -> Ordering
        ensures { result ≡ principal_cmp (principal self.now) (principal other.now) }
    {
        self.rank()
            .cmp(&other.rank())
            .then(self.name().cmp(other.name()))
    }
}

impl<'a> PartialOrd for Principal<'a> {
    ghost partial_cmp = { as_partial_cmp (on principal principal_cmp) };

    ghost laws = { partial_order_from_total (on_total principal principal_total) };

    fn partial_cmp(&self, other: &Principal<'a>) -> Option<Ordering>
        ensures { result ≡ Some (principal_cmp (principal self.now) (principal other.now)) }
    {
        Some(self.cmp(other))
    }
}

impl<'a> Hash for Principal<'a> {
    ghost hash_input = { λ p. principal_writes (principal p) };

    ghost respects_eq = { λ p q. principal_alike.fed (principal p) (principal q) };

    fn hash<H: Hasher>(&self, state: &mut H) {
        self.rank().hash(state);
        self.name().hash(state);
    }
}

/// Returns whether one requester can match both principals, which is so unless they are two users of different names.
pub fn overlaps(p: Principal<'_>, q: Principal<'_>) -> bool
    // Some situation matches both. Its names may be empty.
    ensures meaning { IsTrue result ↔ Overlap (principal p.entry) (principal q.entry) }
    // The same as a test by cases.
    ensures value { result ≡ may_overlap (principal p.entry) (principal q.entry) }
{
    match (p, q) {
        (Principal::User(name), Principal::User(other)) => name == other,
        _ => true,
    }
}
