//! A list whose names of users and groups are exchanged by a table.
ghost use Rattle.std.specs.Prelude.{◌≡◌, ◌↔◌, IsTrue};
ghost use Rattle.acl_nfs4.specs.Renamed.{rows};
ghost use Rattle.aclck_c.specs.Common.{IfErr, IfOk, profile_from, profile_of};
ghost use Rattle.aclck_c.specs.Renaming.{AreRenamings, IsRenameOption, MakesRenamed, WritesRenamed, may_merge_from, rows_from};
ghost use Rattle.aclck_c.specs.internal.Renaming.{IsRenamingFailure, ReadsRows, of_rename_fault};

use crate::failure::Failure;
use crate::options::{RenameOptions, rename_options_from};
use crate::out::answer;
use crate::reason::Reason;
use crate::refusal::Refusal;
use crate::status::Status;
use acl_nfs4::{AclView, RenameFault, Renaming};
use std::alloc::{AllocError, Global};

/// `struct aclck_renaming`: the name of a user if `is_group` is 0, and of a group if it is 1, and the name that takes
/// its place.
#[repr(C)]
#[derive(Clone, Copy, Debug)]
pub struct RawRenaming<'a> {
    pub from: &'a [u8],
    pub to: &'a [u8],
    pub is_group: u32,
}

/// `struct aclck_renamings`: a table of names.
#[repr(C)]
#[derive(Clone, Copy, Debug)]
pub struct RawRenamings<'a> {
    pub at: &'a [RawRenaming<'a>],
}

impl From<RenameFault> for Failure {
    ghost from_gives = { λ fault failure. failure ≡ of_rename_fault fault };

    fn from(fault: RenameFault) -> Failure {
        match fault {
            RenameFault::Row(_) => Failure::BadArgument,
            RenameFault::Merged(place) => Failure::Refused(Refusal::at(
                Reason::Merged,
                place as u64,
            )),
            RenameFault::Memory => Failure::Memory,
        }
    }
}

/// Writes the bytes of the list with its names of users and groups exchanged by the table (this library's own, over RFC
/// 8881, section 6.2.1). Returns 0 if they are at the front of `out`; 2 if the bytes are refused, or if two names
/// become one and MAY_MERGE is not given, with the reason in `fault`; 3 if a row of the table is refused, or an option
/// has no meaning; 4 if memory ran out; 5 if `out` is too short. At 0 and 5 `needed` is the number of bytes.
#[unsafe(no_mangle)]
pub extern "C" fn aclck_renamed(
    alloc: Global,
    acl: &[u8],
    table: &RawRenamings<'_>,
    options: u32,
    out: &mut [u8],
    needed: &mut usize,
    fault: &mut Refusal,
) -> u32
    ensures { WritesRenamed (profile_from options) (may_merge_from options) acl.now table.now.at.now
        (IsRenameOption options)
        out.old out.new needed.old needed.new fault.old fault.new result }
{
    let Some(choice) = rename_options_from(options) else {
        return Status::BadArgument.number();
    };
    answer(renamed(alloc, acl, table.at, choice), out, needed, fault)
}

fn renamed(
    alloc: Global,
    acl: &[u8],
    table: &[RawRenaming<'_>],
    choice: RenameOptions,
) -> Result<Vec<u8>, Failure>
    ensures ok { IfOk result (λ text.
        MakesRenamed (profile_of choice.profile) choice.may_merge acl.now table.now text.items) }
    ensures err { IfErr result
        (IsRenamingFailure (profile_of choice.profile) choice.may_merge acl.now table.now) }
{
    let view = AclView::parse_whole_with(acl, choice.profile)?;
    let table = table_of(alloc, table)?;
    let list = view.renamed(alloc, &table, choice.may_merge)?;
    Ok(list.to_bytes(alloc)?)
}

// Fails if an `is_group` is neither 0 nor 1.
fn table_of<'a>(alloc: Global, table: &[RawRenaming<'a>]) -> Result<Vec<Renaming<'a>>, Failure>
    ensures { ReadsRows table.now result }
{
    if !are_renamings(table) {
        return Err(Failure::BadArgument);
    }
    Ok(rows_of(alloc, table)?)
}

fn are_renamings(table: &[RawRenaming<'_>]) -> bool
    ensures { IsTrue result ↔ AreRenamings table.now }
{
    table.iter().all(|row| row.is_group <= 1)
}

fn rows_of<'a>(alloc: Global, table: &[RawRenaming<'a>]) -> Result<Vec<Renaming<'a>>, AllocError>
    ensures { IfOk result (λ all. rows all.items ≡ rows_from table.now) }
{
    let mut all = Vec::with_capacity(alloc, table.len())?;
    for row in table {
        all.push(Renaming {
            from: row.from,
            to: row.to,
            is_group: row.is_group == 1,
        })?;
    }
    Ok(all)
}
