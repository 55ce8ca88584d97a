//! The ACLs of new files and directories (acl(5), "OBJECT CREATION AND DEFAULT ACLs").

use super::harness::Who::{Eve, Group, Mask, Other, Owner};
use super::harness::{DEFAULT, Memory, Rows, has_rows};
use acl_perm::Mode;
use acl_posix::*;
use std::process::Abort;

const PLAIN: Rows = (&[Owner, Group, Other], b"644");

const CUT: Rows = (&[Owner, Eve, Group, Mask, Other], b"67540");

fn is_made(file: &PosixFile, access: Rows, is_inherited: bool) -> bool {
    has_rows(&file.access, access)
        && match &file.default {
            Some(default) => is_inherited && has_rows(default, DEFAULT),
            None => !is_inherited,
        }
}

// Makes the ACLs of a new file in a directory with the default ACL `DEFAULT`, or without a default ACL.
fn new_file(
    memory: Memory,
    has_default: bool,
    mode: Mode,
    umask: Mode,
    dir: bool,
) -> Result<PosixFile, AclFault> {
    if has_default {
        let default = memory.acl(DEFAULT)?;
        Ok(create(memory.alloc, Some(&default), mode, umask, dir)?)
    } else {
        Ok(create(memory.alloc, None, mode, umask, dir)?)
    }
}

/// A new file or directory gets these ACLs. With a default ACL the umask is ignored.
pub fn new_files<A: Abort>(rt: &A, memory: Memory) {
    // Whether there is a default ACL, the mode and the umask, whether a directory is made, and the access ACL of the
    // new file or directory.
    let table: [(bool, u16, u16, bool, Rows); 4] = [
        (true, 0o640, 0o077, false, CUT),
        (true, 0o640, 0o077, true, CUT),
        (false, 0o666, 0o022, false, PLAIN),
        (false, 0o666, 0o022, true, PLAIN),
    ];
    for (has_default, mode, umask, dir, access) in table {
        let (mode, umask) = (Mode { bits: mode }, Mode { bits: umask });
        match new_file(memory, has_default, mode, umask, dir) {
            Ok(file) => assert!(rt; is_made(&file, access, has_default && dir)),
            Err(fault) => assert!(rt; memory.may_run_out(Some(fault))),
        }
    }
}
