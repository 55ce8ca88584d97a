//! The tables of this crate in ample memory, where a check may not answer that memory ran out, as it may in the file of
//! its subject. That file has the expected values and says where they are from. Its module `ample` has the other tests
//! that need ample memory.

use super::{losses, pruning};
use acl_nfs4::PushFault;

#[test]
fn every_row_holds_with_enough_memory(rt: HostRuntime) -> Result<(), PushFault> {
    let alloc = rt.alloc();
    losses::check_losses(&rt, alloc)?;
    pruning::check_conversions(&rt, alloc)
}
