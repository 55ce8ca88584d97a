//! An ACE by its numbers and its who, as C sees it.
ghost use Rattle.std.specs.Prelude.{◌≡◌, ◌↔◌};
ghost use Rattle.acl_nfs4.specs.Within.{IsWithin};
ghost use Rattle.aclck_c.specs.internal.Building.{GivesJudgedAce};
ghost use Rattle.aclck_c.specs.Common.{IfSome, IsSome, profile_of};

use acl_nfs4::internal::kind_of;
use acl_nfs4::{AceRef, Flags, Mask, Reason as ListReason};
use acl_perm::Profile;

/// `struct aclck_ace`: the numbers of the kind, of the flags and of the mask of an ACE (RFC 8881, section 6.2.1), and
/// its who.
#[repr(C)]
#[derive(Clone, Copy, Debug)]
pub struct RawAce<'a> {
    pub kind: u32,
    pub flags: u32,
    pub mask: u32,
    pub who: &'a [u8],
}

impl<'a> RawAce<'a> {
    /// Returns the ACE, whose who is not judged. Fails with the first number that the profile does not have.
    pub(crate) fn judged(&self, profile: Profile) -> Result<AceRef<'a>, ListReason>
        ensures { GivesJudgedAce (profile_of profile) self.now result }
    {
        let kind = kind_of(self.kind)?;
        let Some(flags) = flags_of(self.flags, profile) else {
            return Err(ListReason::FlagBits);
        };
        let Some(mask) = mask_of(self.mask, profile) else {
            return Err(ListReason::MaskBits);
        };
        Ok(AceRef {
            kind,
            flags,
            mask,
            who: self.who,
        })
    }
}

// Returns the flags, if the profile has them.
#[tactic(auto, using(crate::proofs::Builds::tests))]
fn flags_of(number: u32, profile: Profile) -> Option<Flags>
    ensures within { IsSome result ↔ IsWithin (profile_of profile).flags number }
    ensures value { IfSome result (λ flags. flags.bits ≡ number) }
{
    let flags = Flags::new(number)?;
    if profile.flags.contains(flags) {
        Some(flags)
    } else {
        None
    }
}

// Returns the mask, if the profile has its rights.
#[tactic(auto, using(crate::proofs::Builds::tests))]
fn mask_of(number: u32, profile: Profile) -> Option<Mask>
    ensures within { IsSome result ↔ IsWithin (profile_of profile).masks number }
    ensures value { IfSome result (λ mask. mask.bits ≡ number) }
{
    let mask = Mask::new(number)?;
    if profile.masks.contains(mask) {
        Some(mask)
    } else {
        None
    }
}
