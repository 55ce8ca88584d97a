//! A list whose names of users and groups are exchanged by a table.
ghost use Rattle.std.specs.Prelude.{◌≡◌, ◌≤◌, ℕ, Bool, IfErr, IfOk, List, None, OnOk, length, map, option_map};
ghost use Rattle.acl_perm.specs.Profile.{full};
ghost use Rattle.acl_nfs4.specs.Ace.{ace};
ghost use Rattle.acl_nfs4.specs.Limits.{most_aces};
ghost use Rattle.acl_nfs4.specs.Renamed as spec;
ghost use Rattle.acl_nfs4.specs.Renamed.{IsRenameFault, MayRename, ace_by, bad_row, first_merge, is_good_row, new_name, rows, who_by};
ghost use Rattle.acl_nfs4.specs.Spelling.{IsAccepted};
ghost use Rattle.acl_nfs4.specs.internal.NameMap.{IsMergeFault, IsRowFault, has_other, name_for, with_new_name};

use crate::ace::AceRef;
use crate::list::aces::Aces;
use crate::list::acl::Acl;
use crate::who::is_account;
use crate::xdr::view::AclView;
use std::alloc::{AllocError, Global};
use std::collections::BTreeMap;
use thiserror::Error;

/// A row of a table of names: the name of a user or of a group, and the name that takes its place.
#[derive(Clone, Copy, Debug)]
pub struct Renaming<'a> {
    pub from: &'a [u8],
    pub to: &'a [u8],
    pub is_group: bool,
}

/// Why the names of a list are not exchanged.
#[derive(Clone, Copy, Debug, PartialEq, Eq, Error)]
pub enum RenameFault {
    /// The row at this place, from 0, is refused: one of its names is not valid as a who or is a special identifier, or
    /// an earlier row is for the same name.
    #[error("Row {0}")]
    Row(usize),
    /// The name of the ACE at this place, from 0, becomes the same as that of an earlier ACE with another name.
    #[error("Merged at ACE {0}")]
    Merged(usize),
    /// Memory ran out.
    #[error("out of memory")]
    Memory,
}

impl From<AllocError> for RenameFault {
    ghost use Rattle.std.specs.Prelude.{◌≡◌};
    ghost use Rattle.acl_nfs4.specs.declared.list.renaming.RenameFault.TheVariants.{Memory};

    ghost from_gives = { λ _ fault. fault ≡ Memory };

    fn from(_: AllocError) -> RenameFault {
        RenameFault::Memory
    }
}

impl<'a> AclView<'a> {
    /// Returns the list with its names of users and groups exchanged by the table, in time n log n for n ACEs and rows.
    /// Special identifiers and names without a row stay, and so does all else. Fails with `Row` for the first row that
    /// is refused. Unless `may_merge`, it fails with `Merged` for the first ACE whose name becomes the same as that of
    /// an earlier ACE with another name, if both are names of users or both are names of groups.
    pub fn renamed(
        &self,
        alloc: Global,
        table: &[Renaming<'a>],
        may_merge: bool,
    ) -> Result<Acl, RenameFault>
        ensures ok { IfOk result (λ list. list ≡ spec.renamed (rows table.now) self.now) }
        ensures may { OnOk result (MayRename (rows table.now) may_merge self.now) }
        ensures fault { IfErr result (IsRenameFault (rows table.now) may_merge self.now) }
    {
        let names = names_of(alloc, table)?;
        if !may_merge {
            judge_merges(alloc, &names, self.aces())?;
        }
        Ok(exchanged(alloc, &names, self.aces())?)
    }
}

impl Acl {
    /// Returns the list with its names of users and groups exchanged by the table, as `AclView::renamed` does.
    pub fn renamed<'a>(
        &'a self,
        alloc: Global,
        table: &[Renaming<'a>],
        may_merge: bool,
    ) -> Result<Acl, RenameFault>
        ensures ok { IfOk result (λ list. list ≡ spec.renamed (rows table.now) self.now) }
        ensures may { OnOk result (MayRename (rows table.now) may_merge self.now) }
        ensures fault { IfErr result (IsRenameFault (rows table.now) may_merge self.now) }
    {
        self.view().renamed(alloc, table, may_merge)
    }
}

// For each name of a user or of a group, at most one other name.
#[derive(Drop)]
struct NameMap<'a> {
    users: BTreeMap<&'a [u8], &'a [u8]>,
    groups: BTreeMap<&'a [u8], &'a [u8]>,
}

impl<'a> NameMap<'a> {
    fn new(alloc: Global) -> NameMap<'a>
        ensures { (is_group : Bool) (name : List ℕ) → name_for result is_group name ≡ None }
    {
        NameMap {
            users: BTreeMap::new(alloc),
            groups: BTreeMap::new(alloc),
        }
    }

    fn get(&self, is_group: bool, name: &'a [u8]) -> Option<&'a [u8]>
        ensures { option_map (λ v. v.now) result ≡ name_for self.now is_group name.now }
    {
        if is_group {
            self.groups.get(&name).copied()
        } else {
            self.users.get(&name).copied()
        }
    }

    fn insert(&mut self, is_group: bool, name: &'a [u8], value: &'a [u8]) -> Result<(), AllocError>
        ensures { OnOk result ((g : Bool) (q : List ℕ)
            → name_for self.new g q
            ≡ with_new_name (name_for self.old) is_group name.now value.now g q) }
    {
        if is_group {
            self.groups.insert(name, value)?;
        } else {
            self.users.insert(name, value)?;
        }
        Ok(())
    }

    fn who(&self, item: &AceRef<'a>) -> &'a [u8]
        ensures { result.now ≡ who_by (name_for self.now) (ace item.now) }
    {
        self.get(item.flags.is_group(), item.who)
            .unwrap_or(item.who)
    }
}

fn names_of<'a>(alloc: Global, table: &[Renaming<'a>]) -> Result<NameMap<'a>, RenameFault>
    ensures named { IfOk result (λ names. (is_group : Bool) (name : List ℕ)
        → name_for names is_group name ≡ new_name (rows table.now) is_group name) }
    ensures good { OnOk result (bad_row (rows table.now) ≡ None) }
    ensures fault { IfErr result (IsRowFault (rows table.now)) }
{
    let mut names = NameMap::new(alloc);
    for (place, row) in table.iter().enumerate() {
        if !is_good_row(&names, row) {
            return Err(RenameFault::Row(place));
        }
        names.insert(row.is_group, row.from, row.to)?;
    }
    Ok(names)
}

fn is_good_row<'a>(names: &NameMap<'a>, row: &Renaming<'a>) -> bool
    ensures { result ≡ is_good_row (name_for names.now)
        (record { from = row.now.from.now; to = row.now.to.now; is_group = row.now.is_group }) }
{
    is_account(row.from) && is_account(row.to) && names.get(row.is_group, row.from).is_none()
}

// Fails with the first ACE whose name becomes the same as that of an earlier ACE with another name.
fn judge_merges<'a>(alloc: Global, names: &NameMap<'a>, aces: Aces<'a>) -> Result<(), RenameFault>
    requires { length aces ≤ most_aces }
    ensures none { OnOk result (first_merge (name_for names.now) aces.entry ≡ None) }
    ensures fault { IfErr result (IsMergeFault (name_for names.now) aces.entry) }
{
    let mut old_names = NameMap::new(alloc);
    let mut place: usize = 0;
    for ace in aces {
        let new = names.who(&ace);
        if is_another(&old_names, ace.flags.is_group(), new, ace.who) {
            return Err(RenameFault::Merged(place));
        }
        old_names.insert(ace.flags.is_group(), new, ace.who)?;
        place += 1;
    }
    Ok(())
}

// Returns whether the map has another name than this old name for the new one.
fn is_another<'a>(names: &NameMap<'a>, is_group: bool, new: &'a [u8], old: &'a [u8]) -> bool
    ensures { result ≡ has_other (name_for names.now) is_group new.now old.now }
{
    match names.get(is_group, new) {
        Some(found) => found != old,
        None => false,
    }
}

fn exchanged<'a>(alloc: Global, names: &NameMap<'a>, aces: Aces<'a>) -> Result<Acl, AllocError>
    requires { IsAccepted full (map (ace_by (name_for names.now)) aces) }
    ensures { IfOk result (λ list. list ≡ map (ace_by (name_for names.now)) aces.entry) }
{
    let mut list = Acl::new(alloc);
    for ace in aces {
        list.push_accepted(AceRef {
            who: names.who(&ace),
            ..ace
        })?;
    }
    Ok(list)
}
