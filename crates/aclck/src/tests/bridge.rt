//! `bridge` over texts of POSIX ACLs (docs/reference/lists.md, "From POSIX to NFSv4"). The bytes are those of RFC 8881,
//! section 6.2.1, as XDR (RFC 4506).

use crate::command::command;
use crate::tests::harness::Table;
use crate::tests::texts::{GROUPS, PLAIN};
use acl_perm::Counted;
use std::alloc::{AllocError, Global};
use std::test::Fail;

// ---- texts and lists

// ALLOW read and write to OWNER@ and DENY the rest, ALLOW read to GROUP@ and DENY the rest, ALLOW read to EVERYONE@.
const PLAIN_LIST: &[u8] = b"\0\0\0\x05\
    \0\0\0\0\0\0\0\0\0\0\0\x07\0\0\0\x06OWNER@\0\0\
    \0\0\0\x01\0\0\0\0\0\0\0\x20\0\0\0\x06OWNER@\0\0\
    \0\0\0\0\0\0\0\0\0\0\0\x01\0\0\0\x06GROUP@\0\0\
    \0\0\0\x01\0\0\0\0\0\0\0\x26\0\0\0\x06GROUP@\0\0\
    \0\0\0\0\0\0\0\0\0\0\0\x01\0\0\0\x09EVERYONE@\0\0\0";

// Two groups, one with read and one with write; what each lacks is denied after both.
const GROUPS_LIST: &[u8] = b"\0\0\0\x06\
    \0\0\0\0\0\0\0\0\0\0\0\x27\0\0\0\x06OWNER@\0\0\
    \0\0\0\0\0\0\0\x40\0\0\0\x01\0\0\0\x0250\0\0\
    \0\0\0\0\0\0\0\x40\0\0\0\x06\0\0\0\x0260\0\0\
    \0\0\0\x01\0\0\0\0\0\0\0\x27\0\0\0\x06GROUP@\0\0\
    \0\0\0\x01\0\0\0\x40\0\0\0\x26\0\0\0\x0250\0\0\
    \0\0\0\x01\0\0\0\x40\0\0\0\x21\0\0\0\x0260\0\0";

// The least and the greatest id, and what a mask leaves of their permissions.
const IDS_LIST: &[u8] = b"\0\0\0\x05\
    \0\0\0\x01\0\0\0\0\0\0\0\x27\0\0\0\x06OWNER@\0\0\
    \0\0\0\0\0\0\0\0\0\0\0\x01\0\0\0\x010\0\0\0\
    \0\0\0\x01\0\0\0\0\0\0\0\x26\0\0\0\x010\0\0\0\
    \0\0\0\x01\0\0\0\0\0\0\0\x27\0\0\0\x06GROUP@\0\0\
    \0\0\0\x01\0\0\0\x40\0\0\0\x27\0\0\0\x0a4294967294\0\0";

// ---- rows

/// Texts with the lists that mean the same; lines whose input is refused; and lines that ask for nothing.
pub static TABLE: Table = Table {
    answers: &[
        (
            "bridge",
            0,
            &[(b"u::rw-,g::r--,o::r--", PLAIN_LIST), (GROUPS, GROUPS_LIST)],
        ),
        (
            "bridge u:root=0",
            0,
            &[(
                b"u::,u:root:rwx,g::,g:4294967294:wx,m::r,o::,d:u::rwx,d:g::rwx,d:o::rwx",
                IDS_LIST,
            )],
        ),
    ],
    asked: &[],
    refusals: &[(
        "bridge",
        &[(
            b"u::rwx,g::r-x,o::---,d:u::r",
            "Invalid default: Miss GROUP_OBJ",
        )],
    )],
    usage: &["bridge --profile full", "bridge bob=5"],
    unread: PLAIN,
};

// ---- many users

// The text of an ACL with this many users. Each user costs four of the 65,536 mask bits of a list, as USER_OBJ and
// GROUP_OBJ do.
fn users(alloc: Global, count: u32, other: &str) -> Result<Vec<u8>, AllocError> {
    let mut text = Vec::new(alloc);
    text.extend_from_slice(b"u::rw-\ng::r--\nm::rwx\n")?;
    text.extend_from_slice(other.as_bytes())?;
    for id in 0..count {
        add_user(alloc, &mut text, id)?;
    }
    Ok(text)
}

fn add_user(alloc: Global, text: &mut Vec<u8>, id: u32) -> Result<(), AllocError> {
    let line = format!(in alloc; "\nu:{id}:r-x")?;
    text.extend_from_slice(line.as_bytes())
}

// The status of `bridge`, and what it writes.
fn bridged(alloc: Global, input: &[u8], err: &mut [u8]) -> (u8, Vec<u8>) {
    let mut out = Counted::new(Vec::new(alloc));
    let status = command(
        alloc,
        &["bridge"],
        &mut Counted::new(input),
        &mut out,
        &mut Counted::new(err),
    );
    (status, out.into_inner())
}

// The text at the front of a buffer, without what is after it.
fn is_line(room: &[u8], text: &str) -> bool {
    room.starts_with(text.as_bytes()) && room.iter().skip(text.len()).all(|byte| *byte == 0)
}

// Returns whether `bridge` gives this status for a text with this many users.
fn bridges_users(
    alloc: Global,
    count: u32,
    other: &str,
    status: u8,
    report: &str,
) -> Result<bool, AllocError> {
    let input = users(alloc, count, other)?;
    let mut err = [0u8; 64];
    let (answer, written) = bridged(alloc, &input, &mut err);
    Ok(answer == status && written.is_empty() == (status == 2) && is_line(&err, report))
}

// What is answered if there is enough memory.
mod ample {
    use super::*;

    #[test]
    fn bridge_refuses_lists_past_the_limits(rt: HostRuntime) -> Result<(), Fail> {
        for (count, other, status, err_text) in &[
            (16_382u32, "o::---", 0u8, ""),
            (16_382, "o::r--", 2, "aclck: Limits\n"),
            (16_383, "o::---", 2, "aclck: Limits\n"),
        ] {
            assert!(rt;
                bridges_users(rt.alloc(), *count, other, *status, err_text)?,
                "{count} users"
            );
        }
        Ok(())
    }
}
