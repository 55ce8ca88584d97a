//! A list for an object itself that grants the same with fewer ACEs.
ghost use Rattle.std.specs.Prelude.{◌≡◌, ◌≤◌};
ghost use Rattle.acl_normal.specs.Common.{IfOk, IsAccepted, IsIrreducibleList, SameGrants, aces_in, aces_with, all_rights, flags_for, full, left, length, principal};
ghost use Rattle.acl_normal.specs.Normal.{HasNormalFlags};
ghost use Rattle.acl_normal.specs.internal.emit.Rising.{all_cleared};
ghost use Rattle.acl_contain.specs.Tidied.{HasKeysOf, HasNoJoin};
ghost use Rattle.acl_contain.specs.internal.Joining.{AreJoined, IsPlain, IsTidied};

mod joining;
mod numbers;

use crate::restricting::written;
use acl_nfs4::{AceRef, Acl, AclView};
use acl_normal::internal::reduced_list;
use acl_perm::{Flags, Mask, Principal};
use joining::Joining;
use numbers::Numbers;
use std::alloc::{AllocError, Global};

/// Returns a list that grants the same on the object itself, and has fewer ACEs if some can be joined into earlier ones
/// (this library's own, over RFC 8881, section 6.2.1). The rights that are not needed go, and so does each ACE that then
/// has no right. The rights of each other ACE go to the last ACE before it of the same kind and principal, unless an ACE
/// between them decides one of these rights otherwise for somebody whom both match. New objects inherit nothing from the
/// result: of the flags it has only IDENTIFIER_GROUP, on named groups. It need not be a shortest list. It takes time that
/// is nearly linear in the bytes of the list. Fails if memory runs out.
///
/// ```rust
/// let list = parse_text(alloc, b"ALLOW - READ_DATA amy\nDENY - EXECUTE bob\nALLOW - WRITE_DATA amy\n")?;
/// let tidied = tidy(alloc, &list)?;
/// assert!(rt; tidied == parse_text(alloc, b"ALLOW - READ_DATA|WRITE_DATA amy\n")?);
/// ```
pub fn tidy(alloc: Global, list: &Acl) -> Result<Acl, AllocError>
    ensures same { IfOk result (SameGrants all_rights list.now) }
    ensures accepted { IfOk result (IsAccepted full) }
    ensures length { IfOk result (λ tidied. length tidied ≤ length list.now) }
    // No ACE is without rights, and no right can go.
    ensures needed { IfOk result IsIrreducibleList }
    // No ACE can be joined into an earlier one.
    ensures joined { IfOk result HasNoJoin }
    // The list has an ACE of the kind and principal of each ACE of the result.
    ensures keys { IfOk result (HasKeysOf list.now) }
    // Each ACE has IDENTIFIER_GROUP if it names a group, and no other flag.
    ensures flags { IfOk result HasNormalFlags }
{
    tidied_view(alloc, &list.view())
}

// The tidied list of a view.
fn tidied_view(alloc: Global, list: &AclView<'_>) -> Result<Acl, AllocError>
    ensures { IfOk result (IsTidied list.now) }
{
    let reduced = reduced_list(alloc, list)?;
    let aces = with_rights(alloc, &reduced.aces, &reduced.masks)?;
    let kept = joined(alloc, &aces)?;
    written(alloc, &kept)
}

// The ACEs that have rights in these masks, with these rights, and with the flags that say whom they name.
fn with_rights<'a>(
    alloc: Global,
    aces: &[AceRef<'a>],
    masks: &[Mask],
) -> Result<Vec<AceRef<'a>>, AllocError>
    requires { length masks.now ≡ length aces.now }
    ensures { IfOk result (λ kept.
        aces_in kept.items ≡ all_cleared (left (aces_with aces.now masks.now))) }
{
    let mut kept = Vec::with_capacity(alloc, aces.len())?;
    for (place, item) in aces.iter().enumerate() {
        let mask = masks[place];
        if mask.bits != 0 {
            kept.push(AceRef {
                flags: flags_of(item.principal()),
                mask,
                ..*item
            })?;
        }
    }
    Ok(kept)
}

// The flags that say whom an ACE names.
fn flags_of(p: Principal<'_>) -> Flags
    ensures { result.bits ≡ flags_for (principal p.entry) }
{
    match p {
        Principal::GroupNamed(_) => Flags::IDENTIFIER_GROUP,
        Principal::Owner | Principal::User(_) | Principal::Group | Principal::Everyone =>
            Flags::NONE,
    }
}

// The ACEs, each joined into the last earlier one of its kind and principal where no ACE between them is opposed to it.
fn joined<'a>(alloc: Global, aces: &[AceRef<'a>]) -> Result<Vec<AceRef<'a>>, AllocError>
    requires { IsPlain (aces_in aces.now) }
    ensures { IfOk result (λ kept. AreJoined (aces_in aces.now) (length aces.now)
        (aces_in kept.items)) }
{
    let numbered = Numbers::of(alloc, aces)?;
    let mut pass = Joining::new(alloc, aces, &numbered)?;
    for place in 0..aces.len() {
        pass.add(aces, &numbered, place)?;
    }
    Ok(pass.kept)
}
