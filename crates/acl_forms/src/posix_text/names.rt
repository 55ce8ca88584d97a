//! The names under which the ids of users and groups are written.
ghost use Rattle.std.specs.Prelude.{◌≡◌, ◌==◌, ◌||◌, length, not, option_map, OnErr, OnOk};
ghost use Rattle.std.specs.FinMap as fin;
ghost use Rattle.acl_posix.specs.Tag.{tag_of};
ghost use Rattle.acl_forms.specs.PosixNames.{is_shown, name_kept, no_id_names, shown_name, tag_name, with_group_id, with_user_id};
ghost use Rattle.acl_forms.specs.internal.NamesOfIds.{names_by_id};

use acl_posix::internal::is_number;
use acl_posix::{Id, Tag};
use std::alloc::{AllocError, Global};
use std::collections::BTreeMap;
use std::marker::Model;

/// The names of users and groups under which their ids are written. An id without a name is written as a number, and so
/// is an id whose name is empty or has digits alone. Clauses see it as two finite maps.
#[derive(Debug, Drop)]
pub struct IdNames {
    alloc: Global,
    users: BTreeMap<u32, Vec<u8>>,
    groups: BTreeMap<u32, Vec<u8>>,
}

impl Model for IdNames {
    ghost use Rattle.acl_forms.specs.PosixNames.{NamesOfIds};
    ghost use Rattle.acl_forms.specs.internal.NamesOfIds.{coded_names, names_by_id};

    ghost Value = { NamesOfIds };

    ghost coded = { coded_names };

    ghost view = { λ names.
        record { users = names_by_id names.users.entries; groups = names_by_id names.groups.entries } };
}

impl IdNames {
    /// Returns the table without names. It takes no memory.
    pub fn new(alloc: Global) -> IdNames
        ensures { result ≡ no_id_names }
    {
        IdNames {
            users: BTreeMap::new(alloc),
            groups: BTreeMap::new(alloc),
            alloc,
        }
    }

    /// Adds the name of a user; an id that has a name keeps it, and the table stays as it was if memory runs out.
    /// Logarithmic time; one string, and a node of the map.
    ///
    /// ```rust
    /// let mut names = IdNames::new(alloc);
    /// names.add_user(Id { value: 0 }, b"root")?;
    /// names.add_user(Id { value: 0 }, b"toor")?;
    /// let acl = read_default_text(alloc, b"u::r,u:0:r,g::r,m::r,o::-", &Names::new(alloc))?;
    /// let mut written = Counted::new(Vec::new(alloc));
    /// write_posix_text(&acl, &names, TarStyle::Star, &mut written)?;
    /// let text = b"user::r--,group::r--,other::---,user:root:r--:0,mask::r--";
    /// assert!(rt; written.into_inner().as_slice() == text.as_slice());
    /// ```
    pub fn add_user(&mut self, id: Id, name: &[u8]) -> Result<(), AllocError>
        ensures added { OnOk result (self.new ≡ with_user_id self.old id.value name.now) }
        ensures kept { OnErr result (self.new ≡ self.old) }
    {
        keep_first(self.alloc, &mut self.users, id.value(), name)
    }

    /// Adds the name of a group; an id that has a name keeps it, and the table stays as it was if memory runs out.
    /// Logarithmic time; one string, and a node of the map.
    pub fn add_group(&mut self, id: Id, name: &[u8]) -> Result<(), AllocError>
        ensures added { OnOk result (self.new ≡ with_group_id self.old id.value name.now) }
        ensures kept { OnErr result (self.new ≡ self.old) }
    {
        keep_first(self.alloc, &mut self.groups, id.value(), name)
    }

    pub(crate) fn of_tag(&self, tag: Tag) -> Option<&[u8]>
        ensures { option_map (λ name. name.now) result ≡ tag_name self.now (tag_of tag) }
    {
        match tag {
            Tag::User(id) => shown_name(&self.users, id.value()),
            Tag::Group(id) => shown_name(&self.groups, id.value()),
            Tag::UserObj | Tag::GroupObj | Tag::Mask | Tag::Other => None,
        }
    }
}

// Adds a name for an id, unless the id has one.
fn keep_first(
    alloc: Global,
    names: &mut BTreeMap<u32, Vec<u8>>,
    id: u32,
    name: &[u8],
) -> Result<(), AllocError>
    ensures added { OnOk result
        (names_by_id names.new.entries ≡ name_kept (names_by_id names.old.entries) id name.now) }
    ensures kept { OnErr result (names.new.entries ≡ names.old.entries) }
{
    if has_name(names, id) {
        return Ok(());
    }
    let name = Vec::from_slice(alloc, name)?;
    names.insert(id, name)?;
    Ok(())
}

fn has_name(names: &BTreeMap<u32, Vec<u8>>, id: u32) -> bool
    ensures { result ≡ fin.contains_key (names_by_id names.now.entries) id }
{
    names.contains_key(&id)
}

// Returns the name of an id, if it is written in place of the id.
fn shown_name(names: &BTreeMap<u32, Vec<u8>>, id: u32) -> Option<&[u8]>
    ensures { option_map (λ name. name.now) result ≡ shown_name (names_by_id names.now.entries) id }
{
    match name_of(names, id) {
        Some(name) if is_shown(name) => Some(name),
        _ => None,
    }
}

#[tactic(auto, using(crate::proofs::NamesOfIds::got_id))]
fn name_of(names: &BTreeMap<u32, Vec<u8>>, id: u32) -> Option<&[u8]>
    ensures { option_map (λ name. name.now) result ≡ fin.get (names_by_id names.now.entries) id }
{
    match names.get(&id) {
        Some(name) => Some(name),
        None => None,
    }
}

fn is_shown(name: &[u8]) -> bool
    ensures { result ≡ is_shown name.now }
{
    !(name.is_empty() || is_number(name))
}
