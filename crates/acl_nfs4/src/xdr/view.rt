//! A list in the bytes that spell it, so that reading it takes no memory.
ghost use Rattle.std.specs.Prelude.{◌≡◌, ◌++◌, ◌≤◌, ◌↔◌, ℕ, List, [], length, IfOk, IfErr, IsOkAnd, IsTrue, Err};
ghost use Rattle.acl_nfs4.specs.Ace.{Ace};
ghost use Rattle.acl_nfs4.specs.Limits.{most_weight};
ghost use Rattle.acl_nfs4.specs.Spelling.{Fits, IsAccepted, Xdr};
ghost use Rattle.acl_nfs4.specs.Spelling as spelled;
ghost use Rattle.acl_nfs4.specs.Front.{IsListOf, IsAtFront};
ghost use Rattle.acl_perm.specs.Profile.{full, profile_of};
ghost use Rattle.acl_nfs4.specs.Fault.{HasFault, HasWholeFault, IsFault, IsWholeFault};
ghost use Rattle.acl_nfs4.specs.declared.xdr.fault.Reason.{Reason};
ghost use Rattle.acl_nfs4.specs.internal.Progress.{Judged};

use crate::ace::AceRef;
use crate::feed::scan::{Progress, Reach, scan};
use crate::list::aces::{Aces, fit, weight_of, word_in};
use crate::xdr::fault::{Fault, Reason};
use crate::xdr::judges;
use acl_perm::Profile;
use std::alloc::AllocError;
use std::marker::Model;

/// A list of ACEs that borrows the bytes that spell it.
#[derive(Debug, Drop)]
pub struct AclView<'a> {
    pub(crate) count: u32,
    pub(crate) body: &'a [u8],
}

impl<'a> Model for AclView<'a> {
    ghost use Rattle.std.specs.Prelude.{List};
    ghost use Rattle.acl_nfs4.specs.Ace.{Ace};
    ghost use Rattle.acl_nfs4.specs.internal.Body.{aces_of, IsList};

    ghost Value = { List Ace };

    ghost view = { λ s. aces_of s.count s.body.now };

    ghost invariant = { λ s. IsList s.count s.body.now };
}

impl<'a> AclView<'a> {
    /// Returns the list at the front and the number of bytes that spell it, if and only if the bytes begin with the
    /// spelling of a list. It does not read what follows. The names are slices of the input, and it takes no memory.
    /// Fails with the fault of the first field that is refused, at its first byte (RFC 8881, section 6.2.1, in the
    /// layout of RFC 4506).
    pub fn parse(bytes: &'a [u8]) -> Result<(AclView<'a>, usize), Fault>
        ensures found { IfOk result (IsAtFront full bytes.now) }
        // If the bytes begin with a list, that list is returned.
        ensures only { (list : List Ace) (text rest : List ℕ) → Xdr full list text
            → bytes.now ≡ text ++ rest → IsOkAnd result (IsListOf list text) }
        ensures fault { IfErr result (HasFault full bytes.now) }
        // Bytes with a fault are refused with that fault.
        ensures refused { (offset : ℕ) (r : Reason) → IsFault full bytes.now offset r
            → result ≡ Err (record { offset = offset; reason = r }) }
    {
        AclView::parse_with(bytes, Profile::FULL)
    }

    /// Returns the list at the front, as `parse` does, if the profile has its flags and masks. A bit of another flag or
    /// right is FlagBits or MaskBits.
    #[inline(always)]
    pub fn parse_with(bytes: &'a [u8], profile: Profile) -> Result<(AclView<'a>, usize), Fault>
        ensures found { IfOk result (IsAtFront (profile_of profile) bytes.now) }
        ensures only { (list : List Ace) (text rest : List ℕ) → Xdr (profile_of profile) list text
            → bytes.now ≡ text ++ rest → IsOkAnd result (IsListOf list text) }
        ensures fault { IfErr result (HasFault (profile_of profile) bytes.now) }
        ensures refused { (offset : ℕ) (r : Reason)
            → IsFault (profile_of profile) bytes.now offset r
            → result ≡ Err (record { offset = offset; reason = r }) }
    {
        view_of(bytes, profile)
    }

    /// Returns the list that all of the bytes spell, if and only if they spell one. Fails as `parse` does, and also
    /// with TrailingBytes if there is a byte after the list.
    ///
    /// ```rust
    /// let bytes = b"\0\0\0\x01\0\0\0\0\0\0\0\0\0\0\0\x01\0\0\0\x06OWNER@\0\0";
    /// let list = AclView::parse_whole(bytes)?;
    /// assert!(rt; list.len() == 1);
    /// for ace in list.aces() {
    ///     assert!(rt; ace.principal() == Principal::Owner);
    /// }
    /// ```
    pub fn parse_whole(bytes: &'a [u8]) -> Result<AclView<'a>, Fault>
        ensures found { IfOk result (λ list. Xdr full list bytes.now) }
        // If the bytes spell a list, that list is returned.
        ensures only { (list : List Ace) → Xdr full list bytes.now
            → IsOkAnd result (λ x. x ≡ list) }
        ensures fault { IfErr result (HasWholeFault full bytes.now) }
        ensures refused { (offset : ℕ) (r : Reason) → IsWholeFault full bytes.now offset r
            → result ≡ Err (record { offset = offset; reason = r }) }
    {
        AclView::parse_whole_with(bytes, Profile::FULL)
    }

    /// Returns the list that all of the bytes spell, as `parse_whole` does, if the profile has its flags and masks.
    #[inline(always)]
    pub fn parse_whole_with(bytes: &'a [u8], profile: Profile) -> Result<AclView<'a>, Fault>
        ensures found { IfOk result (λ list. Xdr (profile_of profile) list bytes.now) }
        ensures only { (list : List Ace) → Xdr (profile_of profile) list bytes.now
            → IsOkAnd result (λ x. x ≡ list) }
        ensures fault { IfErr result (HasWholeFault (profile_of profile) bytes.now) }
        ensures refused { (offset : ℕ) (r : Reason)
            → IsWholeFault (profile_of profile) bytes.now offset r
            → result ≡ Err (record { offset = offset; reason = r }) }
    {
        whole_of(bytes, profile)
    }

    /// Returns the number of ACEs, in constant time.
    pub fn len(&self) -> usize
        ensures { result ≡ length self.now }
    {
        self.count as usize
    }

    /// Returns whether there is no ACE, in constant time.
    pub fn is_empty(&self) -> bool
        ensures { IsTrue result ↔ (self.now ≡ []) }
    {
        self.count == 0
    }

    /// Returns the number of mask bits that are set, over all ACEs. A view does not keep this number, so each call
    /// counts the bits, in time linear in the ACEs; `Acl::weight` takes constant time.
    pub fn weight(&self) -> u32
        ensures value { result ≡ spelled.weight self.now }
        ensures within { result ≤ most_weight }
    {
        weight_of(self.aces())
    }

    /// Returns whether the profile has every flag and every right of every ACE, so that the list is accepted under it.
    /// It takes time linear in the ACEs, and no memory.
    pub fn fits(&self, profile: Profile) -> bool
        ensures exact { IsTrue result ↔ Fits (profile_of profile) self.now }
        ensures accepted { IsTrue result ↔ IsAccepted (profile_of profile) self.now }
    {
        fit(self.aces(), profile)
    }

    /// Returns the ACEs in order. To visit all of them takes time linear in their bytes, and no memory.
    pub fn aces(&self) -> Aces<'a>
        ensures same { result ≡ self.now }
        ensures accepted { IsAccepted full self.now }
    {
        Aces {
            left: self.count,
            rest: self.body,
        }
    }
}

impl<'a> Clone for AclView<'a> {
    ghost use Rattle.std.specs.Prelude.{◌≡◌, ⊤};

    ghost is_clone = { λ view other. other ≡ view };

    ghost is_infallible = { λ _. ⊤ };

    fn clone(&self) -> Result<AclView<'a>, AllocError> {
        Ok(AclView {
            count: self.count,
            body: self.body,
        })
    }
}

impl<'a> IntoIterator for AclView<'a> {
    ghost use Rattle.std.specs.Prelude.{◌≡◌};

    type Item = AceRef<'a>;

    type IntoIter = Aces<'a>;

    ghost into_iter_gives = { λ view aces. aces ≡ view };

    fn into_iter(self) -> Aces<'a> {
        self.aces()
    }
}

impl<'a> IntoIterator for &'a AclView<'_> {
    ghost use Rattle.std.specs.Prelude.{◌≡◌};

    type Item = AceRef<'a>;

    type IntoIter = Aces<'a>;

    ghost into_iter_gives = { λ view aces. aces ≡ view.now };

    fn into_iter(self) -> Aces<'a> {
        self.aces()
    }
}

// Returns the list that all of the bytes spell. A byte after the list is a fault too.
#[inline(always)]
fn whole_of(bytes: &[u8], profile: Profile) -> Result<AclView<'_>, Fault>
    ensures found { IfOk result (λ list. Xdr (profile_of profile) list bytes.now) }
    ensures fault { IfErr result (HasWholeFault (profile_of profile) bytes.now) }
{
    let (view, len) = view_of(bytes, profile)?;
    if len < bytes.len() {
        return Err(Fault {
            offset: len as u64,
            reason: Reason::TrailingBytes,
        });
    }
    Ok(view)
}

// Returns the list at the front, with the number of its bytes, or the fault of the bytes.
#[inline(always)]
fn view_of(bytes: &[u8], profile: Profile) -> Result<(AclView<'_>, usize), Fault>
    ensures found { IfOk result (IsAtFront (profile_of profile) bytes.now) }
    ensures fault { IfErr result (HasFault (profile_of profile) bytes.now) }
{
    let reach = judge(bytes, profile);
    match reach.fault {
        Some(fault) => Err(fault),
        None => {
            let Progress { seen, used, .. } = reach.progress;
            let (_, rest) = bytes.split_at(4);
            let (body, _) = rest.split_at(used);
            Ok((AclView { count: seen, body }, 4 + used))
        }
    }
}

// Judges the list at the front.
#[inline(always)]
fn judge(bytes: &[u8], profile: Profile) -> Reach
    ensures { Judged (profile_of profile) bytes.now result.progress result.fault }
{
    let none = Progress {
        seen: 0,
        used: 0,
        weight: 0,
    };
    if bytes.len() < 4 {
        return Reach {
            progress: none,
            fault: Some(Fault::at_front(Reason::Truncated)),
        };
    }
    match judges::count_of(word_in(bytes, 0)) {
        Err(reason) => Reach {
            progress: none,
            fault: Some(Fault::at_front(reason)),
        },
        Ok(count) => {
            let (_, rest) = bytes.split_at(4);
            scan(rest, count, none, profile)
        }
    }
}
