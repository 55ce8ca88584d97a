//! The values that the words of a command give, for each command that takes more than a profile or names.

use acl_eval::{ChildKind, Object, Requester};
use acl_perm::{Mask, Mode, Perm, Profile};
use acl_posix::{AclTextForm, Id, Names};

/// What `show-posix` takes: the form of its text, and the names that its input may use.
#[derive(Drop)]
pub struct ShowPosix {
    pub form: AclTextForm,
    pub names: Names,
}

/// What `check-posix` takes: the object by its owner and its owning group, the requester, the permissions that are
/// requested, and the names that its input may use.
#[derive(Drop)]
pub struct CheckPosix {
    pub owner: Id,
    pub group: Id,
    pub user: Id,
    pub groups: Vec<Id>,
    pub want: Perm,
    pub names: Names,
}

/// What `chmod` takes: the mode, and the names that its input may use.
#[derive(Drop)]
pub struct Chmod {
    pub mode: Mode,
    pub names: Names,
}

/// What `create` takes: the mode and the umask, whether the new object is a directory, and the names that its input may
/// use.
#[derive(Drop)]
pub struct Create {
    pub mode: Mode,
    pub umask: Mode,
    pub dir: bool,
    pub names: Names,
}

/// What `check-nfs` takes: the object, the requester, the rights that are requested, and the profile.
#[derive(Clone, Copy)]
pub struct CheckNfs<'a> {
    pub object: Object<'a>,
    pub requester: Requester<'a>,
    pub mask: Mask,
    pub profile: Profile,
}

/// What `child` takes: the kind of the new object, and the profile.
#[derive(Clone, Copy)]
pub struct Child {
    pub kind: ChildKind,
    pub profile: Profile,
}

/// What `table` takes: the mask of one right, and the profile.
#[derive(Clone, Copy)]
pub struct RightTable {
    pub bit: Mask,
    pub profile: Profile,
}

/// What `normalize` takes: whether to write the five normal forms, and the profile.
#[derive(Clone, Copy)]
pub struct Normalize {
    pub inherit: bool,
    pub profile: Profile,
}
