//! The lines of faults.

use acl_lists_for_tests::kept;
use acl_nfs4::PushFault;
use std::alloc::Global;
use std::fmt::Display;

/// Returns whether the message of a fault is this line.
pub fn is_displayed_as<F: Display>(
    alloc: Global,
    fault: &F,
    line: &str,
) -> Result<bool, PushFault> {
    let displayed = kept(fault.to_string(alloc))?;
    Ok(displayed.as_str() == line)
}
