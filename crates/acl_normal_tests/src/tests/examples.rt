//! The examples of the doc comments. The lines of each example are in one of these tests, in their order. The expected
//! values are worked by hand: what a list grants from RFC 8881, section 6.2.1, and the normal form, its table and the
//! five forms from docs/reference/lists.md and docs/proofs/proofs.md.

use acl_eval::decided;
use acl_nfs4::{AclView, parse_text};
use acl_normal::*;
use acl_perm::{Kind, Mask};
use std::test::Fail;

mod ample {
    use super::*;

    #[test]
    fn a_needed_deny_is_in_the_normal_form_and_in_the_table(rt: HostRuntime) -> Result<(), Fail> {
        let alloc = rt.alloc();
        let list = parse_text(
            alloc,
            b"DENY - WRITE_DATA bob\nALLOW - READ_DATA|WRITE_DATA OWNER@\n",
        )?;
        let form = normalize(alloc, &list)?;
        assert!(rt; form.len() == 3);
        assert!(rt; is_normal(alloc, &form)?);
        let rows = table(alloc, &list, Mask::WRITE_DATA)?;
        assert!(rt; rows.len() == 2);
        assert!(rt;
            rows.first()
                .is_some_and(|row| row.kind == Kind::Deny && row.source == 0)
        );
        Ok(())
    }

    #[test]
    fn a_repeated_ace_is_written_once_and_has_one_row(rt: HostRuntime) -> Result<(), Fail> {
        let alloc = rt.alloc();
        let list = parse_text(alloc, b"ALLOW - READ_DATA amy\nALLOW - READ_DATA amy\n")?;
        let bytes = list.to_bytes(alloc)?;
        let form = normal_bytes(alloc, &bytes)?;
        assert!(rt; AclView::parse_whole(&form)?.len() == 1);
        let rows = borrowed_rows(alloc, &AclView::parse_whole(&bytes)?, Mask::READ_DATA)?;
        assert!(rt; rows.len() == 1);
        assert!(rt; rows.first().is_some_and(|row| row.who == b"amy".as_slice()));
        Ok(())
    }

    #[test]
    fn a_deny_of_bob_decides_the_difference_of_two_lists(rt: HostRuntime) -> Result<(), Fail> {
        let alloc = rt.alloc();
        let first = parse_text(alloc, b"ALLOW - READ_DATA EVERYONE@")?;
        let second = parse_text(
            alloc,
            b"DENY - READ_DATA bob\nALLOW - READ_DATA EVERYONE@\n",
        )?;
        let difference = compare(alloc, &first, &second)?.ok_or("the lists grant the same")?;
        let names = difference.requester_names();
        let (object, requester) = (difference.object(), names.requester());
        let rights = decided(
            second.aces(),
            &object,
            &requester,
            Mask::from(difference.right()),
        );
        assert!(rt; rights.denied == Mask::READ_DATA);
        Ok(())
    }

    #[test]
    fn an_ace_for_files_is_in_the_normal_forms_of_both_files(rt: HostRuntime) -> Result<(), Fail> {
        let alloc = rt.alloc();
        let list = parse_text(alloc, b"ALLOW FILE READ_DATA amy")?;
        let forms = normalize_inherit(alloc, &list)?;
        assert!(rt; forms.file.len() == 1);
        assert!(rt; forms.directory.is_empty());
        assert!(rt; forms.file_in_directory == forms.file);
        Ok(())
    }
}
