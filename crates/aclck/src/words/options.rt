//! The options of the commands. An option that several commands take is in here once.

use crate::line::Argument;

// ---- who asks, and about which object

/// `--owner`, the owner of the object: a name for `check-nfs`, and an id for `check-posix`.
pub(crate) const OWNER: Argument = Argument::Required("owner");

/// `--group`, the owning group of the object: a name for `check-nfs`, and an id for `check-posix`.
pub(crate) const GROUP: Argument = Argument::Required("group");

/// `--user`, who requests access: a name for `check-nfs`, and an id for `check-posix`.
pub(crate) const USER: Argument = Argument::Required("user");

/// `--groups`, the groups of the requesting user: ids with commas between them. If it is absent, there are none.
pub(crate) const GROUPS: Argument = Argument::Optional("groups");

// ---- what is requested

/// `--mask`, the rights that are requested: names with `|` between them, or `none`.
pub(crate) const MASK: Argument = Argument::Required("mask");

/// `--want`, the permissions that are requested: r, w and x in any order, or `none`.
pub(crate) const WANT: Argument = Argument::Required("want");

/// `--bit`, the right of a table: one of its names.
pub(crate) const BIT: Argument = Argument::Required("bit");

// ---- how a list is read and written

/// `--profile`, the rights and flags that a list may have: `full` or `narrow`.
pub(crate) const PROFILE: Argument = Argument::Default("profile", "full");

/// `--form`, the form of a text: `canonical`, `shown` or `short`.
pub(crate) const FORM: Argument = Argument::Default("form", "canonical");

/// `--inherit`: the five normal forms are written, and not only that of the list itself.
pub(crate) const INHERIT: Argument = Argument::Flag("inherit");

// ---- a new mode, and a new object

/// `--mode`, the mode that `chmod` sets, or that a program requests for a new object: one to four octal digits.
pub(crate) const MODE: Argument = Argument::Required("mode");

/// `--umask`, the umask of the program that creates the object: one to four octal digits.
pub(crate) const UMASK: Argument = Argument::Required("umask");

/// `--kind`, what is created: `file` or `dir`.
pub(crate) const KIND: Argument = Argument::Required("kind");

/// `--dir`: the new object is a directory. If it is absent, the object is a file.
pub(crate) const DIR: Argument = Argument::Flag("dir");
