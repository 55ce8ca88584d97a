//! `create` over texts of directories (acl(5), "OBJECT CREATION AND DEFAULT ACLs").

use crate::tests::harness::Table;
use crate::tests::texts::PLAIN;

// A directory with a default ACL.
const PARENT: &[u8] = b"u::rwx,g::r-x,o::---,d:u::rwx,d:u:5:rwx,d:g::r-x,d:m::rwx,d:o::r-x";

/// Directories with a default ACL and without one, and a line that lacks the umask.
pub static TABLE: Table = Table {
    answers: &[
        (
            "create --mode 666 --umask 022",
            0,
            &[(PLAIN, b"user::rw-\ngroup::r--\nother::r--\n")],
        ),
        (
            "create --mode 666 --umask 022 --dir",
            0,
            &[(PLAIN, b"user::rw-\ngroup::r--\nother::r--\n")],
        ),
        (
            "create --mode 640 --umask 077",
            0,
            &[(
                PARENT,
                b"user::rw-\nuser:5:rwx\ngroup::r-x\nmask::r--\nother::---\n",
            )],
        ),
        (
            "create --mode 640 --umask 077 --dir",
            0,
            &[(
                PARENT,
                b"user::rw-\nuser:5:rwx\ngroup::r-x\nmask::r--\nother::---\n\
        default:user::rwx\ndefault:user:5:rwx\ndefault:group::r-x\ndefault:mask::rwx\ndefault:other::r-x\n",
            )],
        ),
    ],
    asked: &[],
    refusals: &[],
    usage: &["create --mode 666"],
    unread: PLAIN,
};
