//! The NFSv4 list of a security descriptor.
ghost use Rattle.std.specs.Prelude.{◌≡◌, ◌∷◌, ◌++◌, ◌&&◌, [], IfErr, IfOk, OnOk, bit_and, map, option_map};
ghost use Rattle.acl_nfs4.specs.Ace.{ace};
ghost use Rattle.acl_perm.specs.declared.kind.Kind.TheVariants.{Allow};
ghost use Rattle.acl_nt.specs.Descriptor.{descriptor as descriptor_of, nt_ace};
ghost use Rattle.acl_nt.specs.NtCheck.{everyone_sid, file_rights, has_owner_ace, is_for_object, is_sid_in, owner_rights, same_sid};
ghost use Rattle.acl_nt.specs.NtList.{IsNtListFault, nt_list, object_ace, object_aces, implicit_aces, sid_ace, sid_flags, stands_for};
ghost use Rattle.acl_nt.specs.Sid.{sid as sid_of};

use crate::ace::{NtAce, is_for_object, is_owner_ace, is_owner_rights};
use crate::descriptor::{Dacl, NtDescriptor};
use crate::sid::Sid;
use acl_nfs4::internal::EVERYONE_NAME;
use acl_nfs4::{AceRef, Acl, Flags, Kind, Mask, PushFault};
use std::alloc::{AllocError, Global};
use thiserror::Error;

/// The fourteen access rights of files and directories.
const FILE_RIGHTS: u32 = 0x001f_01ff;

/// READ_CONTROL and WRITE_DAC, which the owner has.
const OWNER_MASK: u32 = 0x0006_0000;

/// Why there is no list for a security descriptor.
#[derive(Clone, Copy, Debug, PartialEq, Eq, Error)]
pub enum NtListFault {
    /// The list would have more than 65,536 ACEs, or more than 65,536 mask bits, over all its ACEs.
    #[error("Limits")]
    Limits,
    /// Memory ran out for the list.
    #[error("out of memory")]
    Memory,
}

impl From<AllocError> for NtListFault {
    ghost use Rattle.std.specs.Prelude.{◌≡◌};
    ghost use Rattle.acl_nt.specs.declared.mapping.NtListFault.TheVariants.{Memory};

    ghost from_gives = { λ _ fault. fault ≡ Memory };

    fn from(_: AllocError) -> NtListFault {
        NtListFault::Memory
    }
}

/// Returns the NFSv4 list of the object of a descriptor. It grants each request of rights of files if and only if the
/// access check grants it (MS-DTYP, section 2.5.3.2), to each requester whose token has S-1-1-0 and has not S-1-3-4
/// (`laws::nt_check_is_grant`). The list has no flags of inheritance, so it says nothing of new objects.
///
/// S-1-1-0 is `EVERYONE@`. Every other SID is a group with the name of the SID, or a user if it is one of `users`. Each
/// of `users` must be the SID of a user, of whom a token has at most one: a DENY of a group among them would deny
/// nobody. The owner's rights READ_ACL and WRITE_ACL are the first ACE, unless an ACE is for OWNER RIGHTS (S-1-3-4),
/// which stands for the owner. A NULL DACL is the list that grants everybody everything. It takes time in proportion to
/// the number of ACEs times the number of users.
///
/// Fails with `Limits` if the list would be above a limit, and with `Memory` if memory runs out.
pub fn nt_list(alloc: Global, descriptor: &NtDescriptor, users: &[Sid]) -> Result<Acl, NtListFault>
    ensures list { IfOk result (λ list. list
        ≡ nt_list (map sid_of users.now) (descriptor_of descriptor.now)) }
    ensures fault { IfErr result
        (IsNtListFault (nt_list (map sid_of users.now) (descriptor_of descriptor.now))) }
{
    let mut list = Acl::new(alloc);
    match &descriptor.dacl {
        Dacl::Null => push_everything(&mut list)?,
        Dacl::List(aces) => {
            push_owner(alloc, &mut list, &descriptor.owner, aces, users)?;
            push_aces(alloc, &mut list, &descriptor.owner, aces, users)?;
        }
    }
    Ok(list)
}

// Adds the ACE that grants everybody everything.
fn push_everything(list: &mut Acl) -> Result<(), NtListFault>
    requires { list.old ≡ [] }
    ensures ok { OnOk result (list.new ≡ sid_ace [] Allow file_rights everyone_sid ∷ []) }
    ensures fault { IfErr result (IsNtListFault (sid_ace [] Allow file_rights everyone_sid ∷ [])) }
{
    push(
        list,
        AceRef {
            kind: Kind::Allow,
            flags: Flags::NONE,
            mask: rights_of_files(FILE_RIGHTS),
            who: EVERYONE_NAME.as_bytes(),
        },
    )
}

// Adds the owner's two rights, if there is an owner and no ACE is for OWNER RIGHTS.
fn push_owner(
    alloc: Global,
    list: &mut Acl,
    owner: &Option<Sid>,
    aces: &[NtAce],
    users: &[Sid],
) -> Result<(), NtListFault>
    ensures ok { OnOk result (list.new ≡ list.old
        ++ implicit_aces (map sid_of users.now) (option_map sid_of owner.now) (map nt_ace aces.now)) }
    ensures fault { IfErr result (IsNtListFault (list.old
        ++ implicit_aces (map sid_of users.now) (option_map sid_of owner.now) (map nt_ace aces.now))) }
{
    match owner {
        Some(owner) if !has_owner_ace(aces) => {
            push_sid(alloc, list, Kind::Allow, OWNER_MASK, owner, users)
        }
        _ => Ok(()),
    }
}

// Adds the ACEs of the ACEs that are for the object.
fn push_aces(
    alloc: Global,
    list: &mut Acl,
    owner: &Option<Sid>,
    aces: &[NtAce],
    users: &[Sid],
) -> Result<(), NtListFault>
    ensures ok { OnOk result (list.new ≡ list.old
        ++ object_aces (map sid_of users.now) (option_map sid_of owner.now) (map nt_ace aces.now)) }
    ensures fault { IfErr result (IsNtListFault (list.old
        ++ object_aces (map sid_of users.now) (option_map sid_of owner.now) (map nt_ace aces.now))) }
{
    for ace in aces {
        if is_for_object(ace) {
            push_sid(
                alloc,
                list,
                ace.kind,
                ace.mask,
                stands_for(&ace.sid, owner),
                users,
            )?;
        }
    }
    Ok(())
}

// Adds the ACE of a SID.
fn push_sid(
    alloc: Global,
    list: &mut Acl,
    kind: Kind,
    mask: u32,
    sid: &Sid,
    users: &[Sid],
) -> Result<(), NtListFault>
    ensures ok { OnOk result (list.new ≡ list.old
        ++ sid_ace (map sid_of users.now) kind mask (sid_of sid.now) ∷ []) }
    ensures fault { IfErr result (IsNtListFault (list.old
        ++ sid_ace (map sid_of users.now) kind mask (sid_of sid.now) ∷ [])) }
{
    let mask = rights_of_files(mask);
    let flags = flags_of(sid, users);
    if is_everyone(sid) {
        let who = EVERYONE_NAME.as_bytes();
        return push(
            list,
            AceRef {
                kind,
                flags,
                mask,
                who,
            },
        );
    }
    let name = sid.name(alloc)?;
    let who = name.as_slice();
    push(
        list,
        AceRef {
            kind,
            flags,
            mask,
            who,
        },
    )
}

// Adds an ACE whose who is valid.
fn push(list: &mut Acl, item: AceRef<'_>) -> Result<(), NtListFault>
    ensures ok { OnOk result (list.new ≡ list.old ++ ace item.entry ∷ []) }
    ensures fault { IfErr result (IsNtListFault (list.old ++ ace item.entry ∷ [])) }
{
    match list.push(item) {
        Ok(()) => Ok(()),
        Err(PushFault::Memory) => Err(NtListFault::Memory),
        Err(_) => Err(NtListFault::Limits),
    }
}

// Returns the rights of a mask that are rights of files.
fn rights_of_files(mask: u32) -> Mask
    ensures { result.bits ≡ bit_and mask file_rights }
{
    Mask {
        bits: mask & FILE_RIGHTS,
    }
}

fn flags_of(sid: &Sid, users: &[Sid]) -> Flags
    ensures { result.bits ≡ sid_flags (map sid_of users.now) (sid_of sid.now) }
{
    if is_everyone(sid) || is_user(sid, users) {
        Flags::NONE
    } else {
        Flags::IDENTIFIER_GROUP
    }
}

// Returns the owner for OWNER RIGHTS, if there is an owner.
fn stands_for<'a>(sid: &'a Sid, owner: &'a Option<Sid>) -> &'a Sid
    ensures { sid_of result.now ≡ stands_for (option_map sid_of owner.now) (sid_of sid.now) }
{
    match owner {
        Some(owner) if is_owner_rights(sid) => owner,
        _ => sid,
    }
}

fn has_owner_ace(aces: &[NtAce]) -> bool
    ensures { result ≡ has_owner_ace (map nt_ace aces.now) }
{
    aces.iter().any(|ace| is_owner_ace(ace))
}

fn is_user(sid: &Sid, users: &[Sid]) -> bool
    ensures { result ≡ is_sid_in (sid_of sid.now) (map sid_of users.now) }
{
    users.iter().any(|user| is_same(sid, user))
}

fn is_same(sid: &Sid, other: &Sid) -> bool
    ensures { result ≡ same_sid (sid_of sid.now) (sid_of other.now) }
{
    sid.authority == other.authority && sid.words.as_slice() == other.words.as_slice()
}

fn is_everyone(sid: &Sid) -> bool
    ensures { result ≡ same_sid everyone_sid (sid_of sid.now) }
{
    sid.authority == 1 && sid.words.as_slice() == [0].as_slice()
}
