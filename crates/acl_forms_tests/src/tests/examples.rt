//! The examples of the doc comments. Each test has the lines of the example of one call, in the same order. The bytes
//! are in the layout of RFC 4506, and the numbers of the rights are those of RFC 8881, section 6.2.1.3.1.

use acl_forms::*;
use acl_nfs4::{Counted, Principal, parse_text};
use acl_perm::{Mode, Perm};
use acl_posix::{Id, Names, PosixAcl, Tag};
use std::test::Fail;

#[test]
fn flags_of_a_list_are_a_number_below_eight(rt: HostRuntime) -> Result<(), Fail> {
    let flags = AclFlags::new(3).ok_or("flags")?;
    assert!(rt; flags.contains(AclFlags::PROTECTED));
    assert!(rt; !flags.contains(AclFlags::DEFAULTED));
    assert!(rt; flags.bits() == 3);
    Ok(())
}

mod ample {
    use super::*;

    #[test]
    fn read_acl41_returns_the_flags_and_the_list(rt: HostRuntime) -> Result<(), Fail> {
        let alloc = rt.alloc();
        let bytes = b"\0\0\0\x02\0\0\0\x01\0\0\0\0\0\0\0\0\0\0\0\x01\0\0\0\x06OWNER@\0\0";
        let (flags, list) = read_acl41(alloc, bytes)?;
        assert!(rt; flags == AclFlags::PROTECTED);
        assert!(rt; list.len() == 1);
        Ok(())
    }

    #[test]
    fn write_acl41_writes_the_flags_and_the_list(rt: HostRuntime) -> Result<(), Fail> {
        let alloc = rt.alloc();
        let list = parse_text(alloc, b"ALLOW - READ_DATA OWNER@")?;
        let mut room = [0u8; 32];
        write_acl41(
            AclFlags::PROTECTED,
            &list.view(),
            &mut Counted::new(room.as_mut_slice()),
        )?;
        assert!(rt; read_acl41(alloc, &room)? == (AclFlags::PROTECTED, list));
        Ok(())
    }

    #[test]
    fn read_part_leaves_out_a_name_that_nobody_knows(rt: HostRuntime) -> Result<(), Fail> {
        let alloc = rt.alloc();
        let bytes = b"\0\0\0\0\0\0\0\x01\0\0\0\0\0\0\0\0\0\0\0\x01\0\0\0\x04NOW@";
        let part = read_part(alloc, Form::NfsAcl41, bytes)?;
        assert!(rt; part.list.is_empty());
        assert!(rt; part.left_out.len() == 1);
        Ok(())
    }

    #[test]
    fn read_acl41_ids_reads_an_id_as_its_digits(rt: HostRuntime) -> Result<(), Fail> {
        let alloc = rt.alloc();
        let bytes = b"\0\0\0\0\0\0\0\x01\0\0\0\0\0\0\0\0\0\0\0\0\0\0\0\x01\0\0\x03\xe9";
        let (_, list) = read_acl41_ids(alloc, bytes)?;
        for ace in list.aces() {
            assert!(rt; ace.principal() == Principal::User(b"1001"));
        }
        Ok(())
    }

    #[test]
    fn acl41_ids_fault_finds_a_who_without_an_id(rt: HostRuntime) -> Result<(), Fail> {
        let alloc = rt.alloc();
        let list = parse_text(alloc, b"ALLOW - READ_DATA 1001\nALLOW - READ_DATA alice")?;
        let fault = acl41_ids_fault(&list.view());
        assert!(rt;
            fault
                == Some(FormFault {
                    place: 1,
                    reason: FormReason::NoId
                })
        );
        Ok(())
    }

    #[test]
    fn write_acl41_ids_writes_the_words_of_each_ace(rt: HostRuntime) -> Result<(), Fail> {
        let alloc = rt.alloc();
        let list = parse_text(alloc, b"ALLOW - READ_DATA 1001")?;
        let mut room = [0u8; 28];
        write_acl41_ids(
            AclFlags::NONE,
            &list.view(),
            &mut Counted::new(room.as_mut_slice()),
        )?;
        assert!(rt; room == *b"\0\0\0\0\0\0\0\x01\0\0\0\0\0\0\0\0\0\0\0\0\0\0\0\x01\0\0\x03\xe9");
        Ok(())
    }

    #[test]
    fn read_attribute_returns_the_acl(rt: HostRuntime) -> Result<(), Fail> {
        let alloc = rt.alloc();
        let bytes =
            b"\x02\0\0\0\x01\0\x06\0\xff\xff\xff\xff\x04\0\x04\0\xff\xff\xff\xff\x20\0\0\0\xff\xff\xff\xff";
        let acl = read_attribute(alloc, bytes)?;
        assert!(rt; acl.mode().bits == 0o640);
        Ok(())
    }

    #[test]
    fn read_posix_text_takes_the_id_after_a_name(rt: HostRuntime) -> Result<(), Fail> {
        let alloc = rt.alloc();
        let text = b"user::rw-,group::r--,other::---,user:bob:rw-:1001,mask::rw-";
        let file = read_posix_text(alloc, text, &Names::new(alloc))?;
        let bob = Tag::User(Id { value: 1001 });
        assert!(rt; file.access.get(bob) == Some(Perm { bits: 6 }));
        Ok(())
    }

    #[test]
    fn read_default_text_takes_the_mark_and_its_absence(rt: HostRuntime) -> Result<(), Fail> {
        let alloc = rt.alloc();
        let text = b"default:user::rw-\ngroup::r--\nd:o::---\n";
        let acl = read_default_text(alloc, text, &Names::new(alloc))?;
        assert!(rt; acl.mode().bits == 0o640);
        Ok(())
    }

    #[test]
    fn write_posix_text_writes_the_text_of_star(rt: HostRuntime) -> Result<(), Fail> {
        let alloc = rt.alloc();
        let text = b"user::rw-,group::r--,other::---,user:bob:rw-:1001,mask::rw-";
        let acl = read_posix_text(alloc, text, &Names::new(alloc))?.access;
        let mut names = IdNames::new(alloc);
        names.add_user(Id { value: 1001 }, b"bob")?;
        let mut written = Counted::new(Vec::new(alloc));
        write_posix_text(&acl, &names, TarStyle::Star, &mut written)?;
        assert!(rt; written.into_inner().as_slice() == text.as_slice());
        Ok(())
    }

    #[test]
    fn add_user_keeps_the_first_name_of_an_id(rt: HostRuntime) -> Result<(), Fail> {
        let alloc = rt.alloc();
        let mut names = IdNames::new(alloc);
        names.add_user(Id { value: 0 }, b"root")?;
        names.add_user(Id { value: 0 }, b"toor")?;
        let acl = read_default_text(alloc, b"u::r,u:0:r,g::r,m::r,o::-", &Names::new(alloc))?;
        let mut written = Counted::new(Vec::new(alloc));
        write_posix_text(&acl, &names, TarStyle::Star, &mut written)?;
        let text = b"user::r--,group::r--,other::---,user:root:r--:0,mask::r--";
        assert!(rt; written.into_inner().as_slice() == text.as_slice());
        Ok(())
    }

    #[test]
    fn write_attribute_writes_what_is_read(rt: HostRuntime) -> Result<(), Fail> {
        let alloc = rt.alloc();
        let acl = PosixAcl::of_mode(alloc, Mode { bits: 0o640 })?;
        let mut room = [0u8; 28];
        write_attribute(&acl, &mut Counted::new(room.as_mut_slice()))?;
        assert!(rt; read_attribute(alloc, &room)? == acl);
        Ok(())
    }

    #[test]
    fn read_tools_returns_the_list_of_the_entries(rt: HostRuntime) -> Result<(), Fail> {
        let alloc = rt.alloc();
        let text = b"A::OWNER@:rw\nD:g:staff:w# not today\n";
        let list = read_tools(alloc, text, ObjectKind::File)?;
        assert!(rt; list.len() == 2);
        assert!(rt; list.weight() == 3);
        Ok(())
    }

    #[test]
    fn tools_fault_says_what_the_text_cannot_hold(rt: HostRuntime) -> Result<(), Fail> {
        let alloc = rt.alloc();
        let text = b"ALLOW - WRITE_RETENTION bob\n";
        let list = parse_text(alloc, text)?;
        let fault = tools_fault(&list.view(), ObjectKind::File);
        assert!(rt;
            fault
                == Some(FormFault {
                    place: 0,
                    reason: FormReason::Retention
                })
        );
        Ok(())
    }

    #[test]
    fn write_tools_writes_what_the_tool_prints(rt: HostRuntime) -> Result<(), Fail> {
        let alloc = rt.alloc();
        let list = read_tools(alloc, b"A:fd:alice:wr", ObjectKind::Directory)?;
        let mut text = Counted::new(Vec::new(alloc));
        write_tools(&list.view(), ObjectKind::Directory, &mut text)?;
        assert!(rt; text.into_inner().as_slice() == b"A:fd:alice:rw\n".as_slice());
        Ok(())
    }

    #[test]
    fn read_nfs_text_returns_the_list_of_the_entries(rt: HostRuntime) -> Result<(), Fail> {
        let alloc = rt.alloc();
        let text = b"owner@:rw-p----------:-------:allow,user:bob:r::deny:1001";
        let list = read_nfs_text(alloc, text, WhoField::Id)?;
        assert!(rt; list.len() == 2);
        assert!(rt; list.weight() == 4);
        Ok(())
    }

    #[test]
    fn nfs_text_fault_says_what_the_text_cannot_hold(rt: HostRuntime) -> Result<(), Fail> {
        let alloc = rt.alloc();
        let list = parse_text(alloc, b"ALLOW - READ_DATA a,b\n")?;
        let fault = nfs_text_fault(&list.view());
        assert!(rt;
            fault
                == Some(FormFault {
                    place: 0,
                    reason: FormReason::Separator
                })
        );
        Ok(())
    }

    #[test]
    fn write_nfs_text_writes_a_style(rt: HostRuntime) -> Result<(), Fail> {
        let alloc = rt.alloc();
        let text = b"owner@:r-w:f:allow,user:1001:::deny";
        let list = read_nfs_text(alloc, text, WhoField::Name)?;
        let mut text = Counted::new(Vec::new(alloc));
        write_nfs_text(&list.view(), Style::ARCHIVE, &mut text)?;
        let expected = b"owner@:rw:f:allow,user:1001:::deny:1001";
        assert!(rt; text.into_inner().as_slice() == expected.as_slice());
        Ok(())
    }

    #[test]
    fn read_reads_a_value_of_the_form(rt: HostRuntime) -> Result<(), Fail> {
        let alloc = rt.alloc();
        let text = b"A::OWNER@:rw\n";
        let (flags, list) = read(alloc, Form::NfsTools(ObjectKind::File), text)?;
        assert!(rt; flags == AclFlags::NONE);
        assert!(rt; list.weight() == 2);
        Ok(())
    }

    #[test]
    fn fits_says_what_the_form_cannot_hold(rt: HostRuntime) -> Result<(), Fail> {
        let alloc = rt.alloc();
        let list = parse_text(alloc, b"ALLOW - READ_DATA alice")?;
        let fault = fits(Form::NfsAcl41Ids, &list.view(), AclFlags::NONE);
        assert!(rt;
            fault
                == Some(FormFault {
                    place: 0,
                    reason: FormReason::NoId
                })
        );
        Ok(())
    }

    #[test]
    fn write_writes_a_value_of_the_form(rt: HostRuntime) -> Result<(), Fail> {
        let alloc = rt.alloc();
        let list = parse_text(alloc, b"ALLOW - READ_DATA bob")?;
        let mut text = Counted::new(Vec::new(alloc));
        write(
            Form::NfsTools(ObjectKind::File),
            AclFlags::NONE,
            &list.view(),
            &mut text,
        )?;
        assert!(rt; text.into_inner().as_slice() == b"A::bob:r\n".as_slice());
        Ok(())
    }
}
