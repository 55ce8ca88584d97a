//! The normal form of a list of ACEs.
ghost use Rattle.std.specs.Prelude.{◌↔◌, ◌≡◌, ◌⊎◌, Err, IfErr};
ghost use Rattle.acl_normal.specs.Common.{[], Ace, ace, emitted_ace, emitted_aces, flags_for, full, IfOk, IsAccepted, IsNormal, IsNormalFormOf, IsOk, IsTrue, List, Normalizes, principal, spelling, ℕ};
ghost use Rattle.acl_perm.specs.Profile.{profile_of};
ghost use Rattle.acl_nfs4.specs.Fault.{IsWholeFault};
ghost use Rattle.acl_nfs4.specs.Stream.{no_memory};
ghost use Rattle.acl_nfs4.specs.declared.xdr.fault.Reason.{Reason};

use crate::emit::emission::{Emitted, normalize_left};
use crate::emit::rising::{cleared, rises};
use crate::reduce::reduced_list;
use crate::rows::remaining::Remaining;
use crate::short_form::short_form;
use acl_nfs4::internal::{EVERYONE_NAME, GROUP_NAME, OWNER_NAME};
use acl_nfs4::{AceRef, Acl, AclView, Fault, Reason};
use acl_perm::{Flags, Principal, Profile};
use std::alloc::{AllocError, Global};

/// The greatest number of ACEs of a list whose normal form is found without queues and without a heap. From 14 ACEs on,
/// queues take less time.
pub const SHORT: usize = 10;

/// Returns whether a list is its own normal form. Fails if memory runs out.
pub fn is_normal(alloc: Global, list: &Acl) -> Result<bool, AllocError>
    ensures answer { IfOk result (λ answer. IsTrue answer ↔ IsNormal list.now) }
    // For the empty list memory never runs out.
    ensures empty { list.now ≡ [] → IsOk result }
{
    let form = normalize(alloc, list)?;
    Ok(form == *list)
}

/// Returns the bytes that spell the normal form of the list that all of the bytes spell. Fails with the fault of the
/// bytes, or if memory runs out.
///
/// ```rust
/// let list = parse_text(alloc, b"ALLOW - READ_DATA amy\nALLOW - READ_DATA amy\n")?;
/// let bytes = list.to_bytes(alloc)?;
/// let form = normal_bytes(alloc, &bytes)?;
/// assert!(rt; AclView::parse_whole(&form)?.len() == 1);
/// ```
pub fn normal_bytes(alloc: Global, bytes: &[u8]) -> Result<Vec<u8>, Fault>
    ensures ok { IfOk result (λ text. Normalizes full bytes.now text.items) }
    // A fault is the fault of the bytes, or Memory.
    ensures fault { IfErr result (λ f. (f ≡ no_memory)
        ⊎ IsWholeFault full bytes.now f.offset f.reason) }
    // Bytes with a fault are refused with that fault, and never with Memory.
    ensures refused { (offset : ℕ) (r : Reason) → IsWholeFault full bytes.now offset r
        → result ≡ Err (record { offset = offset; reason = r }) }
{
    normal_bytes_with(alloc, bytes, Profile::FULL)
}

/// Returns the bytes that spell the normal form of the list that all of the bytes spell, if the profile has its flags
/// and rights. Fails with the fault of the bytes, or if memory runs out.
pub fn normal_bytes_with(alloc: Global, bytes: &[u8], profile: Profile) -> Result<Vec<u8>, Fault>
    ensures ok { IfOk result (λ text. Normalizes (profile_of profile) bytes.now text.items) }
    ensures fault { IfErr result (λ f. (f ≡ no_memory)
        ⊎ IsWholeFault (profile_of profile) bytes.now f.offset f.reason) }
    ensures refused { (offset : ℕ) (r : Reason)
        → IsWholeFault (profile_of profile) bytes.now offset r
        → result ≡ Err (record { offset = offset; reason = r }) }
{
    let view = AclView::parse_whole_with(bytes, profile)?;
    match spelled_form(alloc, &view) {
        Ok(text) => Ok(text),
        Err(_) => Err(Fault {
            offset: 0,
            reason: Reason::Memory,
        }),
    }
}

fn spelled_form(alloc: Global, view: &AclView<'_>) -> Result<Vec<u8>, AllocError>
    ensures { IfOk result (λ text. (form : List Ace) × IsNormalFormOf view.now form
        × (text.items ≡ spelling form)) }
{
    let form = normalize_view(alloc, view)?;
    form.to_bytes(alloc)
}

/// Returns the normal form of a list (this library's own, over RFC 8881, section 6.2.1): the one list that grants the
/// same in every situation, in which each right of each ACE is needed, and whose ACEs are in the one order. It weighs
/// no more than the list, and fits each profile that the list fits. It takes time that is nearly linear in the bytes of
/// the list. Fails if memory runs out.
///
/// ```rust
/// let list = parse_text(alloc, b"DENY - WRITE_DATA bob\nALLOW - READ_DATA|WRITE_DATA OWNER@\n")?;
/// let form = normalize(alloc, &list)?;
/// assert!(rt; form.len() == 3);
/// assert!(rt; is_normal(alloc, &form)?);
/// ```
pub fn normalize(alloc: Global, list: &Acl) -> Result<Acl, AllocError>
    ensures form { IfOk result (λ form. IsNormalFormOf list.now form) }
    ensures empty { list.now ≡ [] → IsOk result }
{
    normalize_view(alloc, &list.view())
}

/// Returns the normal form of the list of a view, as [`normalize`] does of an owned list. It does not copy the list
/// first. The only error is that memory runs out.
pub fn normalize_view(alloc: Global, list: &AclView<'_>) -> Result<Acl, AllocError>
    ensures form { IfOk result (λ form. IsNormalFormOf list.now form) }
    ensures empty { list.now ≡ [] → IsOk result }
{
    if list.is_empty() {
        return Ok(Acl::new(alloc));
    }
    if list.len() <= SHORT {
        return short_form(alloc, list);
    }
    long_form(alloc, list)
}

/// Returns the normal form of a list, in time that is nearly linear in the bytes of the list.
pub fn long_form(alloc: Global, list: &AclView<'_>) -> Result<Acl, AllocError>
    ensures { IfOk result (λ form. IsNormalFormOf list.now form) }
{
    let reduced = reduced_list(alloc, list)?;
    let aces = reduced.aces.as_slice();
    let masks = reduced.masks.as_slice();
    if rises(aces, masks, &reduced.numbers.rows) {
        // The list is its own normal form, except for its flags.
        return cleared(alloc, aces, masks);
    }
    let mut rows = Remaining::of(alloc, reduced)?;
    let form = normalize_left(alloc, &mut rows)?;
    written(alloc, &form)
}

pub(crate) fn written(alloc: Global, form: &[Emitted<'_>]) -> Result<Acl, AllocError>
    requires { IsAccepted full (emitted_aces form.now) }
    ensures { IfOk result (λ list. list ≡ emitted_aces form.now) }
{
    let mut list = Acl::new(alloc);
    for item in form {
        list.push_accepted(ace_of(*item))?;
    }
    Ok(list)
}

/// Returns the ACE of an emitted key and its rights.
pub(crate) fn ace_of<'a>(item: Emitted<'a>) -> AceRef<'a>
    ensures { ace result ≡ emitted_ace item.entry }
{
    AceRef {
        kind: item.key.kind,
        flags: flags_of(item.key.principal),
        mask: item.mask,
        who: match item.key.principal {
            Principal::Owner => OWNER_NAME.as_bytes(),
            Principal::User(name) | Principal::GroupNamed(name) => name,
            Principal::Group => GROUP_NAME.as_bytes(),
            Principal::Everyone => EVERYONE_NAME.as_bytes(),
        },
    }
}

/// Returns the flags that say whom an ACE names, and no others.
pub(crate) fn flags_of(p: Principal<'_>) -> Flags
    ensures { result.bits ≡ flags_for (principal p.entry) }
{
    match p {
        Principal::GroupNamed(_) => Flags::IDENTIFIER_GROUP,
        Principal::Owner | Principal::User(_) | Principal::Group | Principal::Everyone =>
            Flags::NONE,
    }
}
