//! The tables again with memory that may run out: each call succeeds with the same answer, or it fails and changes
//! nothing. The files of the tables have their expected values and say where they are from.

use super::harness::{Memory, NO_OWNER, WITH_MASK, has_rows};
use super::worked_lists;
use acl_posix::*;

#[test]
fn each_worked_list_gives_its_answers_unless_memory_runs_out(rt: HostRuntime) {
    worked_lists(&rt, Memory::scarce(rt.alloc()));
}

#[test]
fn a_call_that_fails_adds_no_mask(rt: HostRuntime) {
    let memory = Memory::scarce(rt.alloc());
    let built = match memory.acl(NO_OWNER) {
        Ok(acl) => acl,
        Err(fault) => {
            assert!(rt; fault == AclFault::Memory);
            return;
        }
    };
    // A copy has no spare room, so another entry takes memory. It fails only if memory runs out.
    let Ok(mut acl) = built.copy(memory.alloc) else {
        return;
    };
    let rows = match acl.calc_mask() {
        Ok(()) => WITH_MASK,
        Err(_) => NO_OWNER,
    };
    assert!(rt; has_rows(&acl, rows));
}
