//! The ids of the names of a list: by a table, or by their own digits.
ghost use Rattle.std.specs.Prelude.{◌≡◌, None, false, option_map, true};
ghost use Rattle.acl_perm.specs.Principal.{principal};
ghost use Rattle.acl_posix.specs.Names.{is_number};
ghost use Rattle.acl_ids.specs.Ids.{HasId, HaveIds, first_unknown, has_leading_zero, id_in_digits, id_of_name, is_unknown, principal_id};

use acl_nfs4::AclView;
use acl_perm::Principal;
use acl_posix::internal::{is_number, read_id};
use acl_posix::{Id, Names};
use std::alloc::AllocError;
use thiserror::Error;

/// Why a list has no ids: a name has none, or memory ran out.
#[derive(Clone, Copy, Debug, PartialEq, Eq, Error)]
pub enum IdsFault {
    /// A user or a group has no id.
    #[error("UnknownName at ACE {place}")]
    UnknownName {
        /// The place of the first such ACE in the list, from 0.
        place: usize,
    },
    /// Memory ran out.
    #[error("out of memory")]
    Memory,
}

impl From<AllocError> for IdsFault {
    ghost use Rattle.std.specs.Prelude.{◌≡◌};
    ghost use Rattle.acl_ids.specs.declared.id_names.IdsFault.TheVariants.{Memory};

    ghost from_gives = { λ fault own. own ≡ Memory };

    fn from(_fault: AllocError) -> IdsFault {
        IdsFault::Memory
    }
}

/// Returns the place of the first ACE that names a user or a group without an id.
#[tactic(auto, using(crate::proofs::IdNames::position_from_start))]
pub fn first_unknown(list: &AclView<'_>, names: &Names) -> Option<usize>
    ensures unknown { result ≡ first_unknown names.now list.now }
    ensures known { result ≡ None → HaveIds names.now list.now }
{
    for (place, ace) in list.aces().enumerate() {
        if is_unknown(names, ace.principal()) {
            return Some(place);
        }
    }
    None
}

// Returns whether the principal is a user or a group without an id.
fn is_unknown(names: &Names, whom: Principal<'_>) -> bool
    ensures unknown { result ≡ is_unknown names.now (principal whom.entry) }
    ensures known { result ≡ false → HasId names.now (principal whom.entry) }
{
    match whom {
        Principal::User(name) => user_id(names, name).is_none(),
        Principal::GroupNamed(name) => group_id(names, name).is_none(),
        _ => false,
    }
}

/// Returns the id of the user or of the group. Returns `None` for other principals, and if there is no id.
pub fn principal_id(names: &Names, whom: Principal<'_>) -> Option<Id>
    ensures { option_map (λ id. id.value) result ≡ principal_id names.now (principal whom.entry) }
{
    match whom {
        Principal::User(name) => user_id(names, name),
        Principal::GroupNamed(name) => group_id(names, name),
        _ => None,
    }
}

/// Returns the id of a user name: that of the table, and otherwise that of its digits.
pub fn user_id(names: &Names, name: &[u8]) -> Option<Id>
    ensures { option_map (λ id. id.value) result ≡ id_of_name names.now.users name.now }
{
    match names.user(name) {
        Some(id) => Some(id),
        None => id_in_digits(name),
    }
}

/// Returns the id of a group name: that of the table, and otherwise that of its digits.
pub fn group_id(names: &Names, name: &[u8]) -> Option<Id>
    ensures { option_map (λ id. id.value) result ≡ id_of_name names.now.groups name.now }
{
    match names.group(name) {
        Some(id) => Some(id),
        None => id_in_digits(name),
    }
}

// Returns the id whose decimal digits the name is.
fn id_in_digits(name: &[u8]) -> Option<Id>
    ensures { option_map (λ id. id.value) result ≡ id_in_digits name.now }
{
    if is_number(name) && !has_leading_zero(name) {
        read_id(name)
    } else {
        None
    }
}

fn has_leading_zero(name: &[u8]) -> bool
    requires { is_number name.now ≡ true }
    ensures { result ≡ has_leading_zero name.now }
{
    name[0] == b'0' && name.len() != 1
}
