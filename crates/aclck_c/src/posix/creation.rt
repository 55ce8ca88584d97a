//! How a new object is created.
ghost use Rattle.std.specs.Prelude.{◌≡◌, ◌↔◌};
ghost use Rattle.aclck_c.specs.Create.{IsCreation};
ghost use Rattle.aclck_c.specs.Options.{directory_option, has_option};
ghost use Rattle.aclck_c.specs.Common.{IfSome, IsSome};

use crate::options::{DIRECTORY, are_allowed, has_option, mode_from};
use acl_perm::Mode;

/// `struct aclck_creation`: the mode of a new object, the umask of its creator, and whether it is a directory.
#[repr(C)]
#[derive(Clone, Copy, Debug)]
pub struct RawCreation {
    pub mode: u32,
    pub umask: u32,
    pub options: u32,
}

/// How a new object is created, once it is judged.
#[derive(Clone, Copy)]
pub(crate) struct PosixCreation {
    pub mode: Mode,
    pub umask: Mode,
    pub is_directory: bool,
}

/// Returns how a new object is created, or `None` if the mode or the umask is above `0o777`, or an option has no
/// meaning.
pub(crate) fn creation_of(creation: &RawCreation) -> Option<PosixCreation>
    ensures known { IsSome result ↔ IsCreation creation.now }
    ensures mode { IfSome result (λ c. c.mode.bits ≡ creation.now.mode) }
    ensures umask { IfSome result (λ c. c.umask.bits ≡ creation.now.umask) }
    ensures directory { IfSome result (λ c.
        c.is_directory ≡ has_option directory_option creation.now.options) }
{
    if !are_allowed(DIRECTORY, creation.options) {
        return None;
    }
    Some(PosixCreation {
        mode: mode_from(creation.mode)?,
        umask: mode_from(creation.umask)?,
        is_directory: has_option(DIRECTORY, creation.options),
    })
}
