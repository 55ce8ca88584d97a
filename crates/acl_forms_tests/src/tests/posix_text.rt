//! Values of `SCHILY.acl.access` and `SCHILY.acl.default` that bsdtar 3.6.2 and GNU tar 1.34 wrote of files on ext4,
//! with what getfacl -n printed, and texts that libarchive 3.6.2 reads. The places and the reasons of the faults are
//! this library's own.

use super::shown::is_acl_shown_as;
use acl_forms::*;
use acl_nfs4::{Counted, Reason};
use acl_posix::{Id, Names, PosixAcl};
use std::alloc::{AllocError, Global};
use std::test::Fail;

// Users and groups of the machine on which the tools ran.
static USERS: [(&[u8], u32); 5] = [
    (b"root", 0),
    (b"daemon", 1),
    (b"bin", 2),
    (b"sync", 4),
    (b"mail", 8),
];

static GROUPS: [(&[u8], u32); 7] = [
    (b"root", 0),
    (b"daemon", 1),
    (b"bin", 2),
    (b"sys", 3),
    (b"adm", 4),
    (b"mail", 8),
    (b"news", 9),
];

// A value of an access ACL that bsdtar wrote, and the ACL.
static STAR: [(&[u8], &str); 2] = [
    (
        b"user::rw-,group::rw-,other::-w-,user:sync:rwx:4,user:mail:r--:8,user:70002:r--,group:sys:r--:3,\
          group:adm:r--:4,group:news:--x:9,mask::-wx",
        "user::rw-\nuser:4:rwx\nuser:8:r--\nuser:70002:r--\ngroup::rw-\ngroup:3:r--\ngroup:4:r--\ngroup:9:--x\n\
         mask::-wx\nother::-w-\n",
    ),
    (
        b"user::r--,group::-w-,other::rwx,user:daemon:rwx:1,user:bin:--x:2,user:sync:rw-:4,group:root:r-x:0,\
          group:daemon:r--:1,group:mail:--x:8,mask::--x",
        "user::r--\nuser:1:rwx\nuser:2:--x\nuser:4:rw-\ngroup::-w-\ngroup:0:r-x\ngroup:1:r--\ngroup:8:--x\n\
         mask::--x\nother::rwx\n",
    ),
];

// A value of a default ACL that GNU tar wrote, and the ACL.
static GNU: [(&[u8], &str); 1] = [(
    b"user::-wx\nuser:root:r-x\nuser:daemon:-wx\ngroup::rw-\ngroup:bin:r--\ngroup:sys:r--\ngroup:mail:r-x\nmask::---\n\
      other::rw-\n",
    "user::-wx\nuser:0:r-x\nuser:1:-wx\ngroup::rw-\ngroup:2:r--\ngroup:3:r--\ngroup:8:r-x\nmask::---\nother::rw-\n",
)];

// A text of a default ACL that libarchive reads, with and without names.
static DEFAULTS: [(&[u8], &str); 2] = [
    (
        b"user::r--,group::r--,other::---,m::---,u:joe:--x:47068",
        "user::r--\nuser:47068:--x\ngroup::r--\nmask::---\nother::---\n",
    ),
    (
        b"user::rw-\ngroup::rwx\nother::rwx",
        "user::rw-\ngroup::rwx\nother::rwx\n",
    ),
];

// A text of an access ACL that the library refuses, and the message of its fault. libarchive reads all of them, but
// passes over an entry, drops an id, or reads another list than tools that read comments up to the end of the line.
static FAULTS: [(&[u8], &str); 14] = [
    (b"user::rw-\0", "Nul at byte 9"),
    (
        b"user::-w-#c,\ngroup::r--\nother::rw-\nmask::rwx\nuser:25:r--",
        "Comment at byte 11",
    ),
    (b"user::rwx,group::-wx,other::---,", "EmptyEntry at byte 32"),
    (
        b"user::rwx,group::rw-,other::--x:4294967295",
        "Fields at byte 21",
    ),
    (
        b"g::7:r--:35572,d:group::-wx,user::-w-,other::r-x",
        "Fields at byte 0",
    ),
    (
        b"grop::r--\nother::-w-\nuser::-w-\nmask::rwx",
        "Tag at byte 0",
    ),
    (
        b"user::r--,group::r-x,other::rw-,mask:7:rwx",
        "Qualifier at byte 37",
    ),
    (b"user:4294967295:rw-", "Id at byte 5"),
    (
        b"user::r--,group::r-x,other::rw-,group:staff:-wx,m::---,mask::rwx",
        "UnknownName at byte 38",
    ),
    (b"user::RWX,group::r,other::-", "Permission at byte 6"),
    (b"user::,group::r,other::-", "Permission at byte 6"),
    (
        b"user::rw-\ngroup::-w-\ngroup:staff:-wx:31426@",
        "Id at byte 37",
    ),
    (
        b"user::r--,group::-wx,other::-wx,group:2001:--x:30,mask::r-x",
        "IdDiffers at byte 47",
    ),
    (
        b"user::---,group::r-x,other::-wx,other::-wx",
        "Multi at byte 32",
    ),
];

// A text whose entries are no ACLs of a file, and the message of its fault.
static LISTS: [(&[u8], &str); 4] = [
    (b"", "Miss USER_OBJ at byte 0"),
    (
        b"user::rwx,group::r--,other::r--,user:bob:rwx:1001",
        "Miss MASK at byte 49",
    ),
    (
        b"user::rw-,group::r--,other::---,user:7:r--,user:sync:r--:7,mask::r--",
        "Duplicate at byte 43",
    ),
    (
        b"user::rw-,group::r--,other::---,d:user::rw-,d:group::r--",
        "Miss OTHER at byte 56",
    ),
];

// Returns the table of these names.
fn names(alloc: Global) -> Result<Names, Fail> {
    let mut names = Names::new(alloc);
    for (name, id) in USERS {
        names.add_user(name, Id::new(id).ok_or("no id")?)?;
    }
    for (name, id) in GROUPS {
        names.add_group(name, Id::new(id).ok_or("no id")?)?;
    }
    Ok(names)
}

// Returns the names of the ids.
fn id_names(alloc: Global) -> Result<IdNames, Fail> {
    let mut names = IdNames::new(alloc);
    for (name, id) in USERS {
        names.add_user(Id::new(id).ok_or("no id")?, name)?;
    }
    for (name, id) in GROUPS {
        names.add_group(Id::new(id).ok_or("no id")?, name)?;
    }
    Ok(names)
}

// Returns whether the ACL is written as this text.
fn is_written_as(
    alloc: Global,
    acl: &PosixAcl,
    names: &IdNames,
    style: TarStyle,
    text: &[u8],
) -> bool {
    let mut sink = Counted::new(Vec::new(alloc));
    let answer = write_posix_text(acl, names, style, &mut sink);
    answer.is_ok() && sink.into_inner().as_slice() == text
}

// Returns whether the text is refused with this message.
fn is_refused(alloc: Global, text: &[u8], message: &str) -> Result<bool, AllocError> {
    match read_posix_text(alloc, text, &Names::new(alloc)) {
        Ok(_) => Ok(false),
        Err(fault) => Ok(fault.to_string(alloc)?.as_str() == message),
    }
}

#[test]
fn a_text_is_read_or_memory_runs_out(rt: HostRuntime) {
    let alloc = rt.alloc();
    for (text, _) in DEFAULTS {
        match read_default_text(alloc, text, &Names::new(alloc)) {
            Ok(acl) => assert!(rt; acl.entries().len() >= 3),
            Err(fault) => assert!(rt; fault.reason == ReadReason::List(Reason::Memory)),
        }
    }
}

mod ample {
    use super::*;

    #[test]
    fn a_text_of_bsdtar_is_read_by_its_ids(rt: HostRuntime) -> Result<(), Fail> {
        let alloc = rt.alloc();
        let names = Names::new(alloc);
        for (text, shown) in STAR {
            let file = read_posix_text(alloc, text, &names)?;
            assert!(rt; is_acl_shown_as(alloc, &file.access, shown)?, "{shown}");
            assert!(rt; file.default.is_none(), "{shown}");
        }
        Ok(())
    }

    #[test]
    fn a_text_of_gnu_tar_is_read_with_its_names(rt: HostRuntime) -> Result<(), Fail> {
        let alloc = rt.alloc();
        let names = names(alloc)?;
        for (text, shown) in GNU {
            let acl = read_default_text(alloc, text, &names)?;
            assert!(rt; is_acl_shown_as(alloc, &acl, shown)?, "{shown}");
        }
        Ok(())
    }

    #[test]
    fn an_acl_is_written_as_the_tools_write_it(rt: HostRuntime) -> Result<(), Fail> {
        let alloc = rt.alloc();
        let table = names(alloc)?;
        let names = id_names(alloc)?;
        for (text, shown) in STAR {
            let acl = read_posix_text(alloc, text, &table)?.access;
            assert!(rt;
                is_written_as(alloc, &acl, &names, TarStyle::Star, text),
                "{shown}"
            );
        }
        for (text, shown) in GNU {
            let acl = read_default_text(alloc, text, &table)?;
            assert!(rt;
                is_written_as(alloc, &acl, &names, TarStyle::Gnu, text),
                "{shown}"
            );
        }
        Ok(())
    }

    // Returns whether the second entry of an ACL is refused, if its id has this name.
    fn is_separated(
        alloc: Global,
        acl: &PosixAcl,
        id: Id,
        name: &[u8],
    ) -> Result<bool, AllocError> {
        let mut names = IdNames::new(alloc);
        names.add_user(id, name)?;
        let fault = FormFault {
            place: 1,
            reason: FormReason::Separator,
        };
        Ok(posix_text_fault(acl, &names, TarStyle::Gnu) == Some(fault))
    }

    #[test]
    fn an_acl_that_the_text_cannot_hold_is_refused(rt: HostRuntime) -> Result<(), Fail> {
        let alloc = rt.alloc();
        let text = b"user::rw-,user:3000000000:rw-,group::r--,mask::rw-,other::---";
        let acl = read_default_text(alloc, text, &Names::new(alloc))?;
        let id = Id::new(3_000_000_000).ok_or("no id")?;
        let none = IdNames::new(alloc);
        let kept = Some(FormFault {
            place: 1,
            reason: FormReason::Id,
        });
        assert!(rt; posix_text_fault(&acl, &none, TarStyle::Star) == kept);
        assert!(rt; posix_text_fault(&acl, &none, TarStyle::Gnu).is_none());
        for name in [
            b"a,b".as_slice(),
            b"a:b",
            b"a#b",
            b"a\nb",
            b"a\0b",
            b" a",
            b"a\t",
        ] {
            assert!(rt; is_separated(alloc, &acl, id, name)?);
        }
        Ok(())
    }

    #[test]
    fn a_default_text_needs_no_mark(rt: HostRuntime) -> Result<(), Fail> {
        let alloc = rt.alloc();
        let names = Names::new(alloc);
        for (text, shown) in DEFAULTS {
            let acl = read_default_text(alloc, text, &names)?;
            assert!(rt; is_acl_shown_as(alloc, &acl, shown)?, "{shown}");
        }
        Ok(())
    }

    #[test]
    fn the_first_fault_is_reported(rt: HostRuntime) -> Result<(), Fail> {
        let alloc = rt.alloc();
        for (text, message) in FAULTS {
            assert!(rt; is_refused(alloc, text, message)?, "{message}");
        }
        for (text, message) in LISTS {
            assert!(rt; is_refused(alloc, text, message)?, "{message}");
        }
        Ok(())
    }
}
