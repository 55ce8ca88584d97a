//! The second step of the reduction: it drops the rights that only repeat what everyone gets and that conflict with no
//! later ACE.
ghost use Rattle.std.specs.Prelude.{Bool, ◌&&◌, ◌||◌, ◌≡◌};
ghost use Rattle.acl_normal.specs.Common.{aces_with, IsThinned, IsTidy, ace, column, default, default_at, everyone, has_bit, is_users, length, not, plain_key, ℕ};
ghost use Rattle.acl_normal.specs.internal.Needed.{HasNoLater, NotesLater, class_mask, is_kept, opposes};
ghost use Rattle.acl_normal.specs.Places.{same_class};
ghost use Rattle.acl_normal.specs.internal.Reduced.{HasNeededColumns};
ghost use Rattle.acl_perm.specs.declared.kind.Kind.TheVariants.{Allow};

use crate::ace_principal::key;
use crate::mask_rights::of_everyone;
use crate::principal_class::Class;
use acl_nfs4::AceRef;
use acl_perm::{Key, Kind, Mask};

/// Rights of users, and rights of all other principals.
#[derive(Clone, Copy, Drop)]
pub(crate) struct ByClass {
    pub(crate) users: Mask,
    pub(crate) others: Mask,
}

impl ByClass {
    const NONE: ByClass = ByClass {
        users: Mask::NONE,
        others: Mask::NONE,
    };

    /// Returns these rights, with the rights of a mask added to one class.
    fn with(self, class: Class, mask: Mask) -> ByClass
        ensures { (users : Bool) (b : ℕ) → has_bit (class_mask result users) b
            ≡ (has_bit (class_mask self users) b
            || (same_class (is_users class) users && has_bit mask.bits b)) }
    {
        match class {
            Class::Users => ByClass {
                users: self.users.union(mask),
                ..self
            },
            Class::Others => ByClass {
                others: self.others.union(mask),
                ..self
            },
        }
    }
}

/// The rights that later ACEs have, by kind and class.
#[derive(Clone, Copy, Drop)]
pub(crate) struct Later {
    pub(crate) deny: ByClass,
    pub(crate) allow: ByClass,
}

/// Drops the rights that no situation needs, in one pass from the last ACE to the first. No mask may have a right that
/// the first step drops.
pub(crate) fn drop_needless(aces: &[AceRef<'_>], masks: &mut [Mask])
    requires places { length masks.old ≡ length aces.now }
    requires tidy { IsTidy (aces_with aces.now masks.old) }
    ensures places { length masks.new ≡ length aces.now }
    ensures thinned { IsThinned (aces_with aces.now masks.old)
        (aces_with aces.now masks.new) }
    ensures columns { HasNeededColumns (aces_with aces.now masks.old)
        (aces_with aces.now masks.new) }
{
    let allowed = allowed_to_everyone(aces, masks);
    let mut later = no_later();
    for place in (0..aces.len()).rev() {
        let ace = aces[place];
        let at = key(&ace);
        let mask = masks[place];
        let dropped = needless(at, mask, allowed, opposite(later, at));
        masks[place] = mask.difference(dropped);
        later = noted(later, at, mask);
    }
}

/// Returns the rights that the ACEs with these masks allow everyone.
fn allowed_to_everyone(aces: &[AceRef<'_>], masks: &[Mask]) -> Mask
    requires places { length masks.now ≡ length aces.now }
    requires tidy { IsTidy (aces_with aces.now masks.now) }
    ensures { (b : ℕ) → default_at result.bits b
        ≡ default (column (aces_with aces.now masks.now) b) }
{
    let mut allowed = Mask::NONE;
    for (place, ace) in aces.iter().enumerate() {
        let mask = masks[place];
        let own = if ace.kind.is_allow() {
            of_everyone(*ace, mask)
        } else {
            Mask::NONE
        };
        allowed = allowed.union(own);
    }
    allowed
}

/// Returns the rights of the ACEs after the last one: none.
pub(crate) fn no_later() -> Later
    ensures { HasNoLater result }
{
    Later {
        deny: ByClass::NONE,
        allow: ByClass::NONE,
    }
}

/// Returns the rights of the mask that an ACE with this key does not need. `opposite` has the rights of the later ACEs
/// that may conflict with the key.
#[tactic(auto, using(crate::proofs::unique::Names::everyone_test))]
fn needless(at: Key<'_>, mask: Mask, allowed: Mask, opposite: Mask) -> Mask
    ensures { (b : ℕ) → has_bit result.bits b ≡ (has_bit mask.bits b && not
        (is_kept (default_at allowed.bits b) (plain_key at.entry) (has_bit opposite.bits b))) }
{
    if at.principal.is_everyone() {
        match at.kind {
            Kind::Allow => Mask::NONE,
            Kind::Deny => mask,
        }
    } else {
        match at.kind {
            Kind::Allow => mask.intersection(allowed).difference(opposite),
            Kind::Deny => mask.difference(allowed.union(opposite)),
        }
    }
}

/// Returns the rights of the later ACEs that may conflict with a key.
pub(crate) fn opposite(later: Later, at: Key<'_>) -> Mask
    ensures { (b : ℕ) → has_bit result.bits b ≡ opposes later (plain_key at.entry) b }
{
    let rights = match at.kind {
        Kind::Deny => later.allow,
        Kind::Allow => later.deny,
    };
    // Users do not overlap with users.
    match Class::of(at.principal) {
        Class::Users => rights.others,
        Class::Others => rights.others.union(rights.users),
    }
}

/// Adds the rights of one more ACE to those of the later ACEs.
pub(crate) fn noted(later: Later, at: Key<'_>, mask: Mask) -> Later
    ensures { NotesLater (plain_key at.entry) mask.bits later result }
{
    let class = Class::of(at.principal);
    match at.kind {
        Kind::Deny => Later {
            deny: later.deny.with(class, mask),
            ..later
        },
        Kind::Allow => Later {
            allow: later.allow.with(class, mask),
            ..later
        },
    }
}
