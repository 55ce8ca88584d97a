//! The rights that a list grants to each principal alone: if only this principal matches, and everyone. One walk over the
//! list finds them for all principals.
ghost use Rattle.std.specs.Prelude.{◌<◌, ◌≡◌};
ghost use Rattle.acl_normal.specs.Common.{aces_in, AllByRecursion, AreWhoms, has_bit, IfOk, length, List, Principal, slice_index_or, vec_len, ℕ};
ghost use Rattle.acl_normal.specs.internal.comparison.FirstPlaces.{IsWhomWithin};
ghost use Rattle.acl_normal.specs.internal.comparison.GrantedAlone.{AreGrantedAlone, DecidesMore, is_granted_alone};

use super::placing::Whom;
use acl_nfs4::AceRef;
use acl_perm::{Kind, Mask};
use std::alloc::{AllocError, Global};

/// The rights that some ACEs decide, and which of these they grant.
#[derive(Clone, Copy)]
pub(crate) struct Decision {
    pub(crate) decided: Mask,
    pub(crate) granted: Mask,
}

impl Decision {
    // The decision of no ACE.
    fn none() -> Decision
        ensures decided { result.decided.bits ≡ 0 }
        ensures granted { result.granted.bits ≡ 0 }
    {
        Decision {
            decided: Mask::NONE,
            granted: Mask::NONE,
        }
    }

    // The decision with one more ACE, which decides those of its rights that are not decided, here or elsewhere.
    fn with(self, item: &AceRef<'_>, elsewhere: Mask) -> Decision
        ensures { DecidesMore self item.now.kind item.now.mask.bits elsewhere.bits result }
    {
        let own = item.mask.difference(elsewhere);
        let granted = match item.kind {
            Kind::Allow => self.granted.union(own.difference(self.decided)),
            Kind::Deny => self.granted,
        };
        Decision {
            decided: self.decided.union(own),
            granted,
        }
    }
}

/// The rights that a list grants to each principal alone.
#[derive(Drop)]
pub(crate) struct GrantedAlone {
    /// By number, what the ACEs that name the principal decide, unless an earlier ACE that names everyone does.
    pub(crate) named: Vec<Decision>,
    /// What the ACEs that name everyone decide.
    pub(crate) everyone: Decision,
}

impl GrantedAlone {
    /// Returns what a list grants to each of `count` principals alone. `whoms` has, by place, which of them each ACE
    /// names.
    pub(crate) fn of(
        alloc: Global,
        list: &[AceRef<'_>],
        whoms: &[Whom],
        count: usize,
    ) -> Result<GrantedAlone, AllocError>
        requires whoms { length whoms.now ≡ length list.now }
        requires within { AllByRecursion (λ w. IsWhomWithin w count) whoms.now }
        ensures count { IfOk result (λ g. length g.named.items ≡ count) }
        ensures granted { IfOk result (λ g. (whole : List Principal) → length whole ≡ count
            → AreWhoms whole (aces_in list.now) whoms.now
            → AreGrantedAlone whole (aces_in list.now) g) }
    {
        let mut named = vec![in alloc; Decision::none(); count]?;
        let mut everyone = Decision::none();
        for (place, item) in list.iter().enumerate() {
            match whoms[place] {
                Whom::Nobody => {}
                Whom::One(number) => {
                    let decision = named[number].with(item, everyone.decided);
                    named[number] = decision;
                }
                Whom::Everyone => {
                    everyone = everyone.with(item, Mask::NONE);
                }
            }
        }
        Ok(GrantedAlone { named, everyone })
    }

    /// Returns the rights that the list grants to the principal of a number alone.
    pub(crate) fn to(&self, number: usize) -> Mask
        requires { number < length self.now.named.items }
        ensures { (bit : ℕ) → has_bit result.bits bit
            ≡ is_granted_alone (slice_index_or self.now.named.items number self.now.everyone)
            self.now.everyone bit }
    {
        let named = self.named[number];
        named
            .granted
            .union(self.everyone.granted.difference(named.decided))
    }
}
