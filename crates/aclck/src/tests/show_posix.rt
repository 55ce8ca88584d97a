//! `show-posix` over texts of POSIX ACLs (acl(5), "LONG TEXT FORM" and "SHORT TEXT FORM"; the faults are those of
//! docs/reference/formats.md).

use crate::tests::harness::{Asked, FINE, Table, repeated, run};
use crate::tests::texts::{MASKED, PLAIN, PRINTED};
use std::test::Fail;

// ---- rows

// Texts that `show-posix` writes again.
const SHOWN: &[Asked] = &[
    (
        b"u::rw-,u:5:rw-,g::r--,m::r--,o::---,d:u::rwx,d:u:5:rwx,d:g::r--,d:m::rwx,d:o::---",
        &[(
            "show-posix --form shown",
            0,
            b"user::rw-\nuser:5:rw-\t#effective:r--\ngroup::r--\nmask::r--\nother::---\n\
         default:user::rwx\ndefault:user:5:rwx\ndefault:group::r--\ndefault:mask::rwx\ndefault:other::---\n",
        )],
    ),
    (
        MASKED,
        &[
            (
                "show-posix",
                0,
                b"user::rw-\nuser:1001:rw-\ngroup::r--\ngroup:50:rw-\nmask::r--\nother::r--\n",
            ),
            (
                "show-posix --form shown",
                0,
                b"user::rw-\nuser:1001:rw-\t#effective:r--\ngroup::r--\n\
        group:50:rw-\t#effective:r--\nmask::r--\nother::r--\n",
            ),
            (
                "show-posix --form=short",
                0,
                b"u::rw-,u:1001:rw-,g::r--,g:50:rw-,m::r--,o::r--\n",
            ),
        ],
    ),
    (
        PRINTED,
        &[(
            "show-posix u:bob=1002",
            0,
            b"user::rw-\nuser:1002:rwx\ngroup::r--\nmask::r--\nother::---\n\
        default:user::rwx\ndefault:group::r-x\ndefault:other::---\n",
        )],
    ),
    (
        b"u::r,u:a=b:w,g::x,m::,o::",
        &[(
            "show-posix u:a=b=5 g:a=b=6",
            0,
            b"user::r--\nuser:5:-w-\ngroup::--x\nmask::---\nother::---\n",
        )],
    ),
    (
        b"user : : rw- # x\ng::,o::",
        &[("show-posix", 0, b"user::rw-\ngroup::---\nother::---\n")],
    ),
];

/// Texts with names that have no id, texts that have a fault, and words that ask for nothing.
pub static TABLE: Table = Table {
    answers: &[],
    asked: SHOWN,
    refusals: &[
        (
            "show-posix g:bob=1002",
            &[(PRINTED, "UnknownName at line 5 column 6")],
        ),
        (
            "show-posix",
            &[
                (PRINTED, "UnknownName at line 5 column 6"),
                (b"u::rw-,u:7:r--,g::r--,o::---", "Invalid access: Miss MASK"),
                (
                    b"u::rw-,g::r--,m::r--,m::r--,o::---",
                    "Invalid access: Multi at entry 3",
                ),
                (
                    b"u::rw-,u:7:r--,u:007:r--,g::r--,m::r--,o::---",
                    "Invalid access: Duplicate at entry 2",
                ),
                (b"u:4294967295:r--", "Id at line 1 column 3"),
                (b"u::rw-,,o::r--", "EmptyEntry at line 1 column 8"),
                (b"m:r--", "Fields at line 1 column 1"),
                (b"other:5:r--", "Qualifier at line 1 column 7"),
                (b"u::rr", "Permission at line 1 column 4"),
                (b"x::r", "Tag at line 1 column 1"),
                (b"", "Invalid access: Miss USER_OBJ"),
                (b"u::r w", "Permission at line 1 column 4"),
                (b"user::rw-\n\n  g::-- , ", "EmptyEntry at line 3 column 11"),
                (b"d:u::rwx", "Invalid access: Miss USER_OBJ"),
            ],
        ),
    ],
    usage: &[
        "show-posix u:12=5",
        "show-posix u:=5",
        "show-posix u:bob=1 g:bob=1 u:bob=1",
        "show-posix --form long",
    ],
    unread: PLAIN,
};

// ---- texts that are cut short or very long

// What is answered if there is enough memory.
mod ample {
    use super::*;

    #[test]
    fn show_posix_judges_each_beginning_of_a_text(rt: HostRuntime) {
        for len in 0..=PRINTED.len() {
            let (front, _) = PRINTED.split_at(len.min(PRINTED.len()));
            let ran = run(rt.alloc(), &["show-posix", "u:bob=1002"], front, FINE);
            assert!(rt; ran.is_judged(), "{len}");
        }
    }

    // An id may begin with a thousand zeros, but may not have a thousand other digits. A million commas are refused at
    // the first one.
    #[test]
    fn show_posix_judges_long_texts(rt: HostRuntime) -> Result<(), Fail> {
        let after = b"7:rw-,g::r--,g:50:rw-,m::r--,o::r--".as_slice();
        let zeros = repeated(rt.alloc(), b"u::rw-,u:", b"0", 1000, after)?;
        let shown = b"u::rw-,u:7:rw-,g::r--,g:50:rw-,m::r--,o::r--\n";
        let ran = run(rt.alloc(), &["show-posix", "--form", "short"], &zeros, FINE);
        assert!(rt; ran.is(0, shown, ""));
        let nines = repeated(rt.alloc(), b"u:", b"9", 1000, b":r--")?;
        let ran = run(rt.alloc(), &["show-posix"], &nines, FINE);
        assert!(rt; ran.is(2, b"", "Id at line 1 column 3"));
        let commas = repeated(rt.alloc(), b"", b",", 1_000_000, b"")?;
        let ran = run(rt.alloc(), &["show-posix"], &commas, FINE);
        assert!(rt; ran.is(2, b"", "EmptyEntry at line 1 column 1"));
        let ran = run(rt.alloc(), &["show-posix"], b"\xff::r", FINE);
        assert!(rt; ran.is(2, b"", "Tag at line 1 column 1"));
        Ok(())
    }
}
