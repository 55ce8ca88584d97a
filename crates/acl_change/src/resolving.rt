//! The list for one object, in which its owner and its owning group stand for `OWNER@` and `GROUP@`.
ghost use Rattle.std.specs.Prelude.{◌≡◌, ◌≤◌, IfErr, IfOk, None, OnOk, length};
ghost use Rattle.acl_perm.specs.Principal.{principal};
ghost use Rattle.acl_perm.specs.Profile.{full};
ghost use Rattle.acl_nfs4.specs.Ace.{ace};
ghost use Rattle.acl_nfs4.specs.Limits.{most_aces};
ghost use Rattle.acl_nfs4.specs.Spelling.{IsAccepted};
ghost use Rattle.acl_change.specs.Resolved.{IsResolveFault, first_nameless, for_group, for_user, lacks_name, resolved_ace, resolved_list};
ghost use Rattle.acl_eval.specs.Situation.{owner_of, owning_group_of};

use acl_eval::Object;
use acl_nfs4::internal::is_account;
use acl_nfs4::{AceRef, Aces, Acl, AclView, Flags};
use acl_perm::Principal;
use std::alloc::{AllocError, Global};
use thiserror::Error;

/// Why there is no list for one object.
#[derive(Clone, Copy, Debug, PartialEq, Eq, Error)]
pub enum ResolveFault {
    /// The ACE at this place, from 0, is for `OWNER@` or `GROUP@`, and the name of the owner or of the owning group
    /// is not valid as a who or is a special identifier.
    #[error("Name at ACE {0}")]
    Name(usize),
    /// Memory ran out.
    #[error("out of memory")]
    Memory,
}

impl From<AllocError> for ResolveFault {
    ghost use Rattle.acl_change.specs.declared.resolving.ResolveFault.TheVariants.{Memory};

    ghost from_gives = { λ _ fault. fault ≡ Memory };

    fn from(_: AllocError) -> ResolveFault {
        ResolveFault::Memory
    }
}

/// Returns the list in which the names of the object's owner and of its owning group stand for `OWNER@` and `GROUP@`:
/// the owner as a user, and the owning group as a group. All else stays. Whatever object the new list is asked for, it
/// grants each requester what the list grants that requester for this object. So a comparison, a normal form or a table
/// of the new list is about this object alone.
///
/// New objects have an owner and an owning group of their own, so the new list is not for what they inherit.
///
/// Fails with `Name` for the first ACE of `OWNER@` or `GROUP@` whose new name no ACE can have: it has more than 1,024
/// bytes, is not UTF-8, has a byte below 0x20 or 0x7f, or ends in `@` as special identifiers do. Fails with `Memory` if
/// memory runs out. Time is linear in the bytes of the new list.
///
/// ```rust
/// let list = parse_text(alloc, b"ALLOW - READ_DATA OWNER@\nDENY - WRITE_DATA GROUP@")?;
/// let object = Object::new(b"alice", b"staff").ok_or("a name is empty")?;
/// let named = resolved(alloc, &list.view(), &object)?;
/// let text = b"ALLOW - READ_DATA alice\nDENY GROUP WRITE_DATA staff";
/// assert!(rt; named == parse_text(alloc, text)?);
/// ```
pub fn resolved(alloc: Global, list: &AclView<'_>, object: &Object<'_>) -> Result<Acl, ResolveFault>
    ensures ok { IfOk result (λ new. new
        ≡ resolved_list (owner_of object.now) (owning_group_of object.now) list.now) }
    ensures named { OnOk result
        (first_nameless (owner_of object.now) (owning_group_of object.now) list.now ≡ None) }
    ensures fault { IfErr result
        (IsResolveFault (owner_of object.now) (owning_group_of object.now) list.now) }
{
    if let Some(place) = first_nameless(list.aces(), object) {
        return Err(ResolveFault::Name(place));
    }
    Ok(with_names(alloc, list.aces(), object)?)
}

// Returns the place of the first ACE that needs a name that no ACE can have.
fn first_nameless(aces: Aces<'_>, object: &Object<'_>) -> Option<usize>
    requires { length aces ≤ most_aces }
    ensures { result
        ≡ first_nameless (owner_of object.now) (owning_group_of object.now) aces.entry }
{
    let mut place: usize = 0;
    for ace in aces {
        if lacks_name(ace.principal(), object) {
            return Some(place);
        }
        place += 1;
    }
    None
}

// Returns whether the principal needs a name of the object that no ACE can have.
fn lacks_name(whom: Principal<'_>, object: &Object<'_>) -> bool
    ensures { result
        ≡ lacks_name (owner_of object.now) (owning_group_of object.now) (principal whom.entry) }
{
    match whom {
        Principal::Owner => !is_account(object.owner()),
        Principal::Group => !is_account(object.group()),
        Principal::User(_) | Principal::GroupNamed(_) | Principal::Everyone => false,
    }
}

fn with_names<'a>(alloc: Global, aces: Aces<'a>, object: &Object<'a>) -> Result<Acl, AllocError>
    requires { IsAccepted full
        (resolved_list (owner_of object.now) (owning_group_of object.now) aces) }
    ensures { IfOk result (λ list. list
        ≡ resolved_list (owner_of object.now) (owning_group_of object.now) aces.entry) }
{
    let mut list = Acl::new(alloc);
    for ace in aces {
        list.push_accepted(with_name(ace, object))?;
    }
    Ok(list)
}

// Returns the ACE with the name of the object that it needs.
fn with_name<'a>(item: AceRef<'a>, object: &Object<'a>) -> AceRef<'a>
    ensures { ace result
        ≡ resolved_ace (owner_of object.now) (owning_group_of object.now) (ace item.entry) }
{
    match item.principal() {
        Principal::Owner => for_user(item, object.owner()),
        Principal::Group => for_group(item, object.group()),
        Principal::User(_) | Principal::GroupNamed(_) | Principal::Everyone => item,
    }
}

fn for_user<'a>(item: AceRef<'a>, name: &'a [u8]) -> AceRef<'a>
    ensures { ace result ≡ for_user name.entry.now (ace item.entry) }
{
    AceRef {
        flags: item.flags.difference(Flags::IDENTIFIER_GROUP),
        who: name,
        ..item
    }
}

fn for_group<'a>(item: AceRef<'a>, name: &'a [u8]) -> AceRef<'a>
    ensures { ace result ≡ for_group name.entry.now (ace item.entry) }
{
    AceRef {
        flags: item.flags | Flags::IDENTIFIER_GROUP,
        who: name,
        ..item
    }
}
