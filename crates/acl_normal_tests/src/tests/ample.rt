//! Checks that the calls of all tables of this crate succeed with ample memory. The tables are in the files that are
//! named here, each with its expected values and where they are from.

use super::{differences, five_forms, forms, names, tables};
use acl_nfs4::PushFault;

#[test]
fn every_row_of_the_tables_holds_if_memory_is_ample(rt: HostRuntime) -> Result<(), PushFault> {
    let alloc = rt.alloc();
    differences::worked_pairs(&rt, alloc)?;
    five_forms::five_forms(&rt, alloc)?;
    five_forms::equal_forms(&rt, alloc)?;
    five_forms::cut_forms(&rt, alloc)?;
    five_forms::lengths(&rt, alloc)?;
    forms::normal_forms(&rt, alloc)?;
    names::names(&rt, alloc)?;
    tables::tables(&rt, alloc)
}
