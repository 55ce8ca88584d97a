//! The names that a text may use for ids, and those under which ids are written.
ghost use Rattle.std.specs.Prelude.{◌≡◌, OnOk};
ghost use Rattle.acl_posix.specs.Names.{empty_table};
ghost use Rattle.aclck_c.specs.Names.{id_name_added, name_added, names_added, names_of_ids};
ghost use Rattle.aclck_c.specs.internal.Failures.{AddsFileName, ReadsIdNames, ReadsTable, of_name};

use crate::failure::Failure;
use acl_forms::IdNames;
use acl_posix::{Id, NameFault, Names};
use std::alloc::Global;

/// `struct aclck_name`: a name and its id, for a user if `is_group` is 0, and for a group if it is 1.
#[repr(C)]
#[derive(Clone, Copy, Debug)]
pub struct RawName<'a> {
    pub name: &'a [u8],
    pub id: u32,
    pub is_group: u32,
}

impl From<NameFault> for Failure {
    ghost from_gives = { λ fault failure. failure ≡ of_name fault };

    fn from(fault: NameFault) -> Failure {
        match fault {
            NameFault::EmptyName | NameFault::DigitsOnly | NameFault::Taken => Failure::BadArgument,
            NameFault::Memory => Failure::Memory,
        }
    }
}

/// Returns the table of the names. Fails with `BadArgument` if a name is empty, has digits alone or is taken, an id is
/// not valid, or `is_group` is neither 0 nor 1. Fails with `Memory` if memory runs out.
pub(crate) fn table_of(alloc: Global, names: &[RawName<'_>]) -> Result<Names, Failure>
    ensures { ReadsTable (names_added empty_table names.now) result }
{
    let mut table = Names::new(alloc);
    for name in names {
        add_name(&mut table, name)?;
    }
    Ok(table)
}

fn add_name(table: &mut Names, name: &RawName<'_>) -> Result<(), Failure>
    ensures { AddsFileName (name_added table.old name.now) table.new result }
{
    let Some(id) = Id::new(name.id) else {
        return Err(Failure::BadArgument);
    };
    match name.is_group {
        0 => table.add_user(name.name, id)?,
        1 => table.add_group(name.name, id)?,
        _ => return Err(Failure::BadArgument),
    }
    Ok(())
}

/// Returns the names of the ids: the first row with an id has its name. Fails as `table_of` does.
pub(crate) fn id_names_of(alloc: Global, names: &[RawName<'_>]) -> Result<IdNames, Failure>
    ensures { ReadsIdNames (names_added empty_table names.now) (names_of_ids names.now) result }
{
    let mut table = Names::new(alloc);
    let mut ids = IdNames::new(alloc);
    for name in names {
        add_row(&mut table, &mut ids, name)?;
    }
    Ok(ids)
}

// Adds a name to the table, which finds the names that are not allowed, and to the names of the ids.
fn add_row(table: &mut Names, ids: &mut IdNames, name: &RawName<'_>) -> Result<(), Failure>
    ensures table { AddsFileName (name_added table.old name.now) table.new result }
    ensures ids { OnOk result (ids.new ≡ id_name_added ids.old name.now) }
{
    let Some(id) = Id::new(name.id) else {
        return Err(Failure::BadArgument);
    };
    match name.is_group {
        0 => {
            table.add_user(name.name, id)?;
            ids.add_user(id, name.name)?;
        }
        1 => {
            table.add_group(name.name, id)?;
            ids.add_group(id, name.name)?;
        }
        _ => return Err(Failure::BadArgument),
    }
    Ok(())
}
