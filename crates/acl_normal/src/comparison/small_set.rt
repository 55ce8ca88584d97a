//! Sets of at most two principals, which match in a small situation.
ghost use Rattle.std.specs.Prelude.{◌∷◌, ◌≡◌};
ghost use Rattle.acl_normal.specs.Common.{everyone, option_map, principal, set_of};
ghost use Rattle.acl_normal.specs.SmallSituations.{first_user, is_among};

use acl_perm::Principal;

/// None, one or two principals. Two principals may overlap, and the lesser is first.
#[derive(Clone, Copy)]
pub(crate) enum SmallSet<'a> {
    Empty,
    One(Principal<'a>),
    Two(Principal<'a>, Principal<'a>),
}

impl<'a> SmallSet<'a> {
    /// Returns whether the principal matches in the small situation of the set: it is in the set, or everyone.
    #[tactic(auto, using(crate::proofs::unique::Names::everyone_test))]
    pub(crate) fn matches(self, p: Principal<'_>) -> bool
        ensures { result ≡ is_among (principal p.entry) (everyone ∷ set_of self.entry) }
    {
        p.is_everyone() || self.has(p)
    }

    #[tactic(auto, using(crate::proofs::comparison::SameTests::same_test))]
    pub(crate) fn has(self, p: Principal<'_>) -> bool
        ensures { result ≡ is_among (principal p.entry) (set_of self.entry) }
    {
        match self {
            SmallSet::Empty => false,
            SmallSet::One(q) => p == q,
            SmallSet::Two(q, r) => p == q || p == r,
        }
    }

    /// Returns the name of the user in the set, if there is one. No set has two users, since they never overlap.
    pub(crate) fn user(self) -> Option<&'a [u8]>
        ensures { option_map (λ name. name.now) result ≡ first_user (set_of self.entry) }
    {
        match self {
            SmallSet::One(Principal::User(name)) => Some(name),
            SmallSet::Two(Principal::User(name), _) => Some(name),
            SmallSet::Two(_, Principal::User(name)) => Some(name),
            _ => None,
        }
    }
}
