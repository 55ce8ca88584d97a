//! A principal and a kind together. ACEs are sorted by them.
ghost use Rattle.std.specs.Prelude.{◌≡◌, ◌↔◌, IsTrue, Some, refl};
ghost use Rattle.std.specs.Ordering.{as_partial_cmp, eq_by_cmp, on};
ghost use Rattle.std.specs.Cmp.{eq_by_cmp_equiv, on_equiv, on_per, on_total, partial_equiv_from_equiv, partial_order_from_total};
ghost use Rattle.acl_perm.specs.Order.{key_cmp, key_of};
ghost use Rattle.acl_perm.specs.internal.Totality.{key_total};

use crate::kind::Kind;
use crate::principal::Principal;
use std::cmp::Ordering;

/// A principal and a kind. Keys are ordered by principal; of the two keys of one principal, DENY comes before ALLOW.
#[derive(Clone, Copy, Debug)]
pub struct Key<'a> {
    pub principal: Principal<'a>,
    pub kind: Kind,
}

impl<'a> PartialEq for Key<'a> {
    ghost eq = { on key_of (eq_by_cmp key_cmp) };

    ghost laws = { on_per key_of (partial_equiv_from_equiv (eq_by_cmp_equiv key_total)) };

    fn eq(&self, other: &Key<'a>) -> bool
        ensures value { result ≡ eq_by_cmp key_cmp (key_of self.now) (key_of other.now) }
        ensures exact { IsTrue result ↔ (key_of self.now ≡ key_of other.now) }
    {
        self.principal == other.principal && self.kind == other.kind
    }
}

impl<'a> Eq for Key<'a> {
    ghost laws = { on_equiv key_of (eq_by_cmp_equiv key_total) };
}

impl<'a> Ord for Key<'a> {
    ghost cmp = { on key_of key_cmp };

    ghost total = { on_total key_of key_total };

    ghost matches_partial_cmp = { λ x y. refl };

    ghost matches_eq = { λ x y. refl };

    fn cmp(&self, other: &Key<'a>) -> Ordering
        ensures { result ≡ key_cmp (key_of self.now) (key_of other.now) }
    {
        self.principal
            .cmp(&other.principal)
            .then(self.kind.cmp(&other.kind))
    }
}

impl<'a> PartialOrd for Key<'a> {
    ghost partial_cmp = { as_partial_cmp (on key_of key_cmp) };

    ghost laws = { partial_order_from_total (on_total key_of key_total) };

    fn partial_cmp(&self, other: &Key<'a>) -> Option<Ordering>
        ensures { result ≡ Some (key_cmp (key_of self.now) (key_of other.now)) }
    {
        Some(self.cmp(other))
    }
}
