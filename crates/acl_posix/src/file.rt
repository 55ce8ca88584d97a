//! The two ACLs of a file, and the ACLs that a new file gets.
ghost use Rattle.std.specs.Prelude.{◌≡◌, IfOk, Some, option_map};
ghost use Rattle.acl_posix.specs.Create.{created_access, created_default, cut};

use crate::acl::PosixAcl;
use acl_perm::Mode;
use std::alloc::{AllocError, Global};

/// The ACLs of a file: its access ACL, and the default ACL of a directory, if it has one (acl(5), "ACL TYPES").
#[derive(Debug, Drop)]
pub struct PosixFile {
    /// The access ACL, which decides who may do what with the file.
    pub access: PosixAcl,
    /// The default ACL, which new files in this directory get.
    pub default: Option<PosixAcl>,
}

impl PartialEq for PosixFile {
    ghost use Rattle.std.specs.Prelude.{◌≡◌, ◌↔◌, IsTrue};
    ghost use Rattle.std.specs.Cmp.{partial_equiv_from_equiv};
    ghost use Rattle.acl_posix.specs.Equal.{same_file};
    ghost use Rattle.acl_posix.specs.internal.Equivalences.{same_file_equiv};

    ghost eq = { same_file };

    ghost laws = { partial_equiv_from_equiv same_file_equiv };

    /// Returns whether the access ACLs are equal, and both files have no default ACL or equal ones. It takes no memory
    /// and linear time.
    fn eq(&self, other: &PosixFile) -> bool
        ensures value { result ≡ same_file self.now other.now }
        ensures exact { IsTrue result ↔ (self.now ≡ other.now) }
    {
        self.access == other.access && self.default == other.default
    }
}

impl Eq for PosixFile {
    ghost use Rattle.acl_posix.specs.internal.Equivalences.{same_file_equiv};

    ghost laws = { same_file_equiv };
}

/// Returns the ACLs of a new file, or of a new directory if `dir` is true, in a directory with this default ACL
/// (acl(5), "OBJECT CREATION AND DEFAULT ACLs"). With a default ACL, the access ACL is the default ACL with the entries
/// of its mode reduced to the bits of `mode`, the umask is ignored, and a directory gets the default ACL unchanged as
/// its own. Without one, the access ACL has three entries with the bits of `mode` that are not in `umask`. Fails if
/// memory runs out. It takes linear time, and memory for the entries of each ACL.
///
/// ```rust
/// let mode = Mode { bits: 0o666 };
/// let umask = Mode { bits: 0o022 };
/// let file = create(alloc, None, mode, umask, false)?;
/// assert!(rt; file.access.mode().bits == 0o644);
/// ```
pub fn create(
    alloc: Global,
    default: Option<&PosixAcl>,
    mode: Mode,
    umask: Mode,
    dir: bool,
) -> Result<PosixFile, AllocError>
    ensures access { IfOk result (λ file.
        file.access
        ≡ created_access (option_map (λ acl. acl.now) default.entry) mode.bits umask.bits) }
    ensures default { IfOk result (λ file.
        file.default ≡ created_default (option_map (λ acl. acl.now) default.entry) dir) }
{
    match default {
        Some(inherited) => inherit(alloc, inherited, mode, dir),
        None => {
            let access = PosixAcl::of_mode(alloc, mode.difference(umask))?;
            Ok(PosixFile {
                access,
                default: None,
            })
        }
    }
}

fn inherit(
    alloc: Global,
    inherited: &PosixAcl,
    mode: Mode,
    dir: bool,
) -> Result<PosixFile, AllocError>
    ensures access { IfOk result (λ file. file.access ≡ cut inherited.now mode.bits) }
    ensures default { IfOk result (λ file.
        file.default ≡ created_default (Some inherited.now) dir) }
{
    let mut access = inherited.copy(alloc)?;
    access.chmod(inherited.mode().intersection(mode));
    let default = if dir {
        Some(inherited.copy(alloc)?)
    } else {
        None
    };
    Ok(PosixFile { access, default })
}
