//! Texts of POSIX ACLs that the tests of several commands read, in the forms of acl(5), "LONG TEXT FORM" and "SHORT
//! TEXT FORM". They are inputs only; the files of the commands say where the expected values are from.

/// What getfacl prints for a directory (getfacl(1)), with a tab before the effective permissions.
pub const PRINTED: &[u8] =
    b"# file: reports\n# owner: alice\n# group: staff\nuser::rw-\nuser:bob:rwx\t#effective:r--\n\
    group::r--\nmask::r--\nother::---\ndefault:user::rwx\ndefault:group::r-x\ndefault:other::---\n\n";

/// Two groups that have the requested permissions together, but not alone.
pub const GROUPS: &[u8] = b"u::rwx,g::---,g:50:r--,g:60:-w-,m::rw-,o::---";

/// A directory without a default ACL.
pub const PLAIN: &[u8] = b"u::rwx,g::r-x,o::---";

/// A text with a mask that limits two of its entries.
pub const MASKED: &[u8] = b"u::rw-,u:1001:rw-,g::r--,g:50:rw-,m::r--,o::r--";
