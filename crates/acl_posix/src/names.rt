//! The names of users and groups that a text may have.
ghost use Rattle.std.specs.Prelude.{◌≡◌, IfErr, None, OnErr, OnOk, option_map};
ghost use Rattle.std.specs.FinMap as fin;
ghost use Rattle.acl_posix.specs.internal.NameMaps.{ids_of};
ghost use Rattle.acl_posix.specs.Names.{name_fault, empty_table, with_group, with_user, AddsName, IsNameFault, IsNameTable};

use crate::field::is_number;
use crate::id::Id;
use std::alloc::Global;
use std::collections::BTreeMap;
use std::marker::Model;
use thiserror::Error;

/// Why a name is not added.
#[derive(Clone, Copy, Debug, PartialEq, Eq, Error)]
pub enum NameFault {
    /// The name has no byte.
    #[error("EmptyName")]
    EmptyName,
    /// The name has digits alone, and in a text such a word is an id.
    #[error("DigitsOnly")]
    DigitsOnly,
    /// The table already has the name: as a user if a user is added, as a group if a group is added.
    #[error("Taken")]
    Taken,
    /// Memory ran out.
    #[error("out of memory")]
    Memory,
}

/// The names of users and of groups with their ids, which a text may use. Clauses see it as two finite maps.
#[derive(Debug, Drop)]
pub struct Names {
    alloc: Global,
    users: BTreeMap<Vec<u8>, Id>,
    groups: BTreeMap<Vec<u8>, Id>,
}

impl Model for Names {
    ghost use Rattle.acl_posix.specs.internal.NameMaps.{coded_table, ids_of};
    ghost use Rattle.acl_posix.specs.Names.{Table};

    ghost Value = { Table };

    ghost coded = { coded_table };

    ghost view = { λ names.
        record { users = ids_of names.users.entries; groups = ids_of names.groups.entries } };
}

impl Names {
    /// Returns the table without names. It takes no memory.
    pub fn new(alloc: Global) -> Names
        ensures empty { result ≡ empty_table }
        ensures table { IsNameTable result }
    {
        Names {
            users: BTreeMap::new(alloc),
            groups: BTreeMap::new(alloc),
            alloc,
        }
    }

    /// Adds a user name, or fails with the first of `EmptyName`, `DigitsOnly` and `Taken` that holds, or if memory runs
    /// out, and leaves the table as it was. Logarithmic time; one string, and a node of the map.
    ///
    /// ```rust
    /// let mut names = Names::new(alloc);
    /// let id = Id { value: 7 };
    /// names.add_user(b"bob", id)?;
    /// assert!(rt; names.user(b"bob") == Some(id));
    /// assert!(rt; names.add_user(b"bob", id) == Err(NameFault::Taken));
    /// ```
    pub fn add_user(&mut self, name: &[u8], id: Id) -> Result<(), NameFault>
        ensures adds { AddsName self.old.users name.now self.old self.new
            (with_user self.old name.now id.value) result }
        ensures table { IsNameTable self.new }
    {
        add(self.alloc, &mut self.users, name, id)
    }

    /// Adds a group name, or fails with the first of `EmptyName`, `DigitsOnly` and `Taken` that holds, or if memory
    /// runs out, and leaves the table as it was. Logarithmic time; one string, and a node of the map.
    pub fn add_group(&mut self, name: &[u8], id: Id) -> Result<(), NameFault>
        ensures adds { AddsName self.old.groups name.now self.old self.new
            (with_group self.old name.now id.value) result }
        ensures table { IsNameTable self.new }
    {
        add(self.alloc, &mut self.groups, name, id)
    }

    /// Returns the id of a user name, if the table has it. It takes no memory and logarithmic time.
    pub fn user(&self, name: &[u8]) -> Option<Id>
        ensures { option_map (λ id. id.value) result ≡ fin.get self.now.users name.now }
    {
        self.users.get(name).copied()
    }

    /// Returns the id of a group name, if the table has it. It takes no memory and logarithmic time.
    pub fn group(&self, name: &[u8]) -> Option<Id>
        ensures { option_map (λ id. id.value) result ≡ fin.get self.now.groups name.now }
    {
        self.groups.get(name).copied()
    }
}

/// Adds a name to the users or to the groups of the table.
fn add(alloc: Global, ids: &mut BTreeMap<Vec<u8>, Id>, name: &[u8], id: Id) -> Result<(), NameFault>
    ensures added { OnOk result (ids_of ids.new.entries
        ≡ fin.insert (ids_of ids.old.entries) name.now id.value) }
    ensures free { OnOk result (name_fault (ids_of ids.old.entries) name.now ≡ None) }
    ensures fault { IfErr result (IsNameFault (ids_of ids.old.entries) name.now) }
    ensures kept { OnErr result (ids.new.entries ≡ ids.old.entries) }
{
    if name.is_empty() {
        return Err(NameFault::EmptyName);
    }
    if is_number(name) {
        return Err(NameFault::DigitsOnly);
    }
    if contains(ids, name) {
        return Err(NameFault::Taken);
    }
    let name = Vec::from_slice(alloc, name)?;
    let Ok(_) = ids.insert(name, id) else {
        return Err(NameFault::Memory);
    };
    Ok(())
}

fn contains(ids: &BTreeMap<Vec<u8>, Id>, name: &[u8]) -> bool
    ensures { result ≡ fin.contains_key (ids_of ids.now.entries) name.now }
{
    ids.contains_key(name)
}
