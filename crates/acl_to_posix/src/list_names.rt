//! The users and the groups that play a part in what a list grants of read, write and execute, by their ids.
ghost use Rattle.std.specs.Prelude.{◌≡◌, ◌≤◌, ◌||◌, ℕ, IfErr, IfOk, IfSome, IsFalse, IsTrue, None, OnOk, false, length, option_map};
ghost use Rattle.acl_nfs4.specs.Ace.{ace};
ghost use Rattle.acl_posix.specs.Check.{ids, is_member};
ghost use Rattle.acl_to_posix.specs.ListNames.{AreFewNames, AreMoreNames, AreNamesOf, AreOnce, relevant_group, relevant_user, is_ace_relevant, is_number_of};
ghost use Rattle.acl_to_posix.specs.ToPosix.{size_of};
ghost use Rattle.acl_to_posix.specs.internal.ListNamesBody.{IsCountOfIds, AreJust, AreMore, AreNamesAbove, IsIdsAbove, IsLeastFrom, IsNamesFault, relevant_id, lesser_id, names_id, named_shape};
ghost use Rattle.acl_to_posix.specs.internal.ShapeBody.{entry_shape_of};

use crate::posix_shape::{PosixShape, ShapeFault, is_among};
use acl_eval::internal::image;
use acl_ids::{group_id, user_id};
use acl_nfs4::{AceRef, AclView};
use acl_perm::{Perm, Principal};
use acl_posix::{Id, Names};
use std::alloc::{AllocError, Global};

/// The ids of users and of groups, each once.
#[derive(Drop)]
pub(crate) struct NamedIds {
    /// The ids of the users.
    pub users: Vec<Id>,
    /// The ids of the groups.
    pub groups: Vec<Id>,
}

impl NamedIds {
    pub(crate) fn shape(&self) -> PosixShape<'_>
        ensures { entry_shape_of result ≡ named_shape self.now }
    {
        PosixShape {
            users: &self.users,
            groups: &self.groups,
        }
    }
}

// Whether an id is that of a user or that of a group.
#[derive(Clone, Copy)]
enum IdKind {
    User,
    Group,
}

/// Returns the users and the groups that a list names in ACEs that count, which take part and have READ_DATA,
/// WRITE_DATA, APPEND_DATA or EXECUTE, in the order in which they are first named. Fails with `TooManyNames` if they are
/// more than `most`, and otherwise with `Memory` if memory runs out. It stops at the first name above the bound. If
/// memory runs out, it reads the list once more for each name up to the bound.
pub(crate) fn bounded_names(
    alloc: Global,
    list: &AclView<'_>,
    names: &Names,
    most: usize,
) -> Result<NamedIds, ShapeFault>
    ensures named { IfOk result (λ named. AreNamesOf names.now list.now (named_shape named)) }
    ensures few { IfOk result (λ named. size_of (named_shape named) ≤ most) }
    ensures fault { IfErr result (IsNamesFault names.now list.now most) }
{
    match names_within(alloc, list, names, most) {
        Err(ShapeFault::Memory) if are_more_names(list, names, most) => {
            Err(ShapeFault::TooManyNames)
        }
        answer => answer,
    }
}

// Returns these names too, but may also fail with `Memory` if they are more than `most`.
fn names_within(
    alloc: Global,
    list: &AclView<'_>,
    names: &Names,
    most: usize,
) -> Result<NamedIds, ShapeFault>
    ensures named { IfOk result (λ named. AreNamesOf names.now list.now (named_shape named)) }
    ensures few { IfOk result (λ named. size_of (named_shape named) ≤ most) }
    ensures fault { IfErr result (AreNamesAbove names.now list.now most) }
{
    let users = ids_within(alloc, list, names, IdKind::User, most)?;
    let groups = ids_within(alloc, list, names, IdKind::Group, most - users.len())?;
    Ok(NamedIds { users, groups })
}

// Returns the ids of this kind that the list names in ACEs that count, if they are at most this many.
fn ids_within(
    alloc: Global,
    list: &AclView<'_>,
    names: &Names,
    kind: IdKind,
    most: usize,
) -> Result<Vec<Id>, ShapeFault>
    ensures named { IfOk result
        (λ found. AreJust (names_id kind names.now list.now) (ids found.items)) }
    ensures few { IfOk result (λ found. length found.items ≤ most) }
    ensures fault { IfErr result (IsIdsAbove most (names_id kind names.now list.now)) }
{
    let mut found = Vec::new(alloc);
    for ace in list.aces() {
        add(&mut found, relevant_id(kind, names, &ace))?;
        if found.len() > most {
            return Err(ShapeFault::TooManyNames);
        }
    }
    Ok(found)
}

// Returns whether the list names more users and groups than this in ACEs that count. It takes no memory.
fn are_more_names(list: &AclView<'_>, names: &Names, most: usize) -> bool
    ensures more { IsTrue result → AreMoreNames most names.now list.now }
    ensures few { IsFalse result → AreFewNames most names.now list.now }
{
    let Some(users) = count_of(list, names, IdKind::User, most) else {
        return true;
    };
    count_of(list, names, IdKind::Group, most - users).is_none()
}

// Returns the number of ids of this kind that the list names in ACEs that count, if they are at most this many. It
// finds one after the other, from the least on.
fn count_of(list: &AclView<'_>, names: &Names, kind: IdKind, most: usize) -> Option<usize>
    ensures counted { IfSome result (IsCountOfIds (names_id kind names.now list.now)) }
    ensures few { IfSome result (λ count. count ≤ most) }
    ensures more { result ≡ None → AreMore most (names_id kind names.now list.now) }
{
    let mut count = 0;
    let mut from = 0;
    while let Some(id) = least_from(list, names, kind, from) {
        if count == most {
            return None;
        }
        count += 1;
        from = id.value + 1;
    }
    Some(count)
}

// Returns the least id of this kind, from a number on, that the list names in ACEs that count.
fn least_from(list: &AclView<'_>, names: &Names, kind: IdKind, from: u32) -> Option<Id>
    ensures { IsLeastFrom from (names_id kind names.now list.now)
        (option_map (λ id. id.value) result) }
{
    let mut least = None;
    for ace in list.aces() {
        least = lesser_id(from, least, relevant_id(kind, names, &ace));
    }
    least
}

// Returns the lesser of two ids, of which the second counts from a number on.
fn lesser_id(from: u32, least: Option<Id>, id: Option<Id>) -> Option<Id>
    ensures { option_map (λ id. id.value) result
        ≡ lesser_id from (option_map (λ id. id.value) least) (option_map (λ id. id.value) id) }
{
    let Some(id) = id else {
        return least;
    };
    if id.value < from {
        return least;
    }
    match least {
        Some(one) if one.value < id.value => Some(one),
        _ => Some(id),
    }
}

// Adds an id, if there is one and it is not there.
fn add(among: &mut Vec<Id>, id: Option<Id>) -> Result<(), AllocError>
    ensures members { OnOk result ((n : ℕ) → is_member n (ids among.new.items)
        ≡ (is_member n (ids among.old.items) || is_number_of (option_map (λ i. i.value) id) n)) }
    ensures once { OnOk result (AreOnce (ids among.old.items) → AreOnce (ids among.new.items)) }
{
    let Some(id) = id else {
        return Ok(());
    };
    if is_among(among, id) {
        return Ok(());
    }
    among.push(id)?;
    Ok(())
}

// Returns the id of the user, or of the group, whom a relevant ACE names.
fn relevant_id(kind: IdKind, names: &Names, item: &AceRef<'_>) -> Option<Id>
    ensures { option_map (λ id. id.value) result ≡ relevant_id kind names.now (ace item.now) }
{
    match kind {
        IdKind::User => relevant_user(names, item),
        IdKind::Group => relevant_group(names, item),
    }
}

fn relevant_user(names: &Names, item: &AceRef<'_>) -> Option<Id>
    ensures { option_map (λ id. id.value) result ≡ relevant_user names.now (ace item.now) }
{
    match item.principal() {
        Principal::User(name) if is_ace_relevant(item) => user_id(names, name),
        _ => None,
    }
}

fn relevant_group(names: &Names, item: &AceRef<'_>) -> Option<Id>
    ensures { option_map (λ id. id.value) result ≡ relevant_group names.now (ace item.now) }
{
    match item.principal() {
        Principal::GroupNamed(name) if is_ace_relevant(item) => group_id(names, name),
        _ => None,
    }
}

// Returns whether the ACE takes part, and has a right of read, write or execute.
fn is_ace_relevant(item: &AceRef<'_>) -> bool
    ensures { result ≡ is_ace_relevant (ace item.now) }
{
    item.takes_part() && item.mask.intersection(image(Perm::ALL)).bits() != 0
}
