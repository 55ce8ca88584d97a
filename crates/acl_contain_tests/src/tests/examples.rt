//! The examples of the doc comments. The lines of each example are in one of these tests, in their order. The expected
//! values are worked by hand: what a list grants from RFC 8881, section 6.2.1, and the words of its holders from
//! docs/reference/lists.md.

use acl_contain::*;
use acl_nfs4::parse_text;
use acl_perm::{Mask, Right};
use std::test::Fail;

mod ample {
    use super::*;

    #[test]
    fn a_list_over_amy_and_staff_has_four_questions(rt: HostRuntime) -> Result<(), Fail> {
        let alloc = rt.alloc();
        let list = parse_text(
            alloc,
            b"ALLOW - READ_DATA amy\nALLOW GROUP READ_DATA staff\n",
        )?;
        let asked = questions(alloc, &list, 100)?;
        assert!(rt; asked.len() == 4 && asked[1].user.as_slice() == b"amy".as_slice());
        Ok(())
    }

    #[test]
    fn amy_does_not_keep_what_the_bound_denies_her(rt: HostRuntime) -> Result<(), Fail> {
        let alloc = rt.alloc();
        let list = parse_text(
            alloc,
            b"ALLOW - READ_DATA|WRITE_DATA amy\nALLOW - READ_DATA EVERYONE@\n",
        )?;
        let bound = parse_text(
            alloc,
            b"DENY - WRITE_DATA amy\nALLOW - READ_DATA|WRITE_DATA EVERYONE@\n",
        )?;
        let kept = restricted(alloc, &list, &bound)?;
        assert!(rt;
            kept == parse_text(
                alloc,
                b"ALLOW - READ_DATA amy\nALLOW - READ_DATA EVERYONE@\n"
            )?
        );
        Ok(())
    }

    #[test]
    fn amy_may_read_and_write_by_one_ace(rt: HostRuntime) -> Result<(), Fail> {
        let alloc = rt.alloc();
        let list = parse_text(
            alloc,
            b"ALLOW - READ_DATA amy\nDENY - EXECUTE bob\nALLOW - WRITE_DATA amy\n",
        )?;
        let tidied = tidy(alloc, &list)?;
        assert!(rt; tidied == parse_text(alloc, b"ALLOW - READ_DATA|WRITE_DATA amy\n")?);
        Ok(())
    }

    #[test]
    fn new_files_do_not_get_what_the_bound_does_not_grant_them(
        rt: HostRuntime,
    ) -> Result<(), Fail> {
        let alloc = rt.alloc();
        let list = parse_text(
            alloc,
            b"ALLOW FILE|INHERITONLY READ_DATA|WRITE_DATA EVERYONE@\n",
        )?;
        let bound = parse_text(alloc, b"ALLOW FILE READ_DATA EVERYONE@\n")?;
        assert!(rt; restricted(alloc, &list, &bound)? == list);
        let kept = restricted_everywhere(alloc, &list, &bound)?;
        assert!(rt; kept == parse_text(alloc, b"ALLOW FILE|INHERITONLY READ_DATA EVERYONE@\n")?);
        Ok(())
    }

    #[test]
    fn a_deny_of_a_user_whom_no_ace_allows_changes_nothing(rt: HostRuntime) -> Result<(), Fail> {
        let alloc = rt.alloc();
        let first = parse_text(alloc, b"DENY - WRITE_DATA bob\nALLOW - READ_DATA OWNER@\n")?;
        let second = parse_text(alloc, b"ALLOW - READ_DATA OWNER@\n")?;
        assert!(rt; same_views(alloc, &first.view(), &second.view())?);
        Ok(())
    }

    #[test]
    fn a_list_without_the_deny_of_bob_grants_him_more(rt: HostRuntime) -> Result<(), Fail> {
        let alloc = rt.alloc();
        let policy = parse_text(
            alloc,
            b"DENY - WRITE_DATA bob\nALLOW - READ_DATA|WRITE_DATA EVERYONE@\n",
        )?;
        let list = parse_text(alloc, b"ALLOW - READ_DATA|WRITE_DATA EVERYONE@\n")?;
        let more = excess(alloc, &list, &policy)?.ok_or("the list grants no more")?;
        assert!(rt; more.user.as_slice() == b"bob".as_slice() && more.bit == Mask::WRITE_DATA);
        assert!(rt; excess(alloc, &policy, &list)?.is_none());
        Ok(())
    }

    #[test]
    fn bob_may_write_and_may_not_read(rt: HostRuntime) -> Result<(), Fail> {
        let alloc = rt.alloc();
        let list = parse_text(
            alloc,
            b"ALLOW - WRITE_DATA bob\nALLOW - READ_DATA|WRITE_DATA OWNER@\n",
        )?;
        let write = Right::new(1).ok_or("1 is the number of WRITE_DATA")?;
        let missing = implies(alloc, &list, write, Mask::READ_DATA)?.ok_or(
            "whoever may write may read",
        )?;
        assert!(rt; missing.user.as_slice() == b"bob".as_slice() && missing.bit == Mask::READ_DATA);
        Ok(())
    }

    #[test]
    fn everybody_but_temps_may_read_and_amy_in_any_case(rt: HostRuntime) -> Result<(), Fail> {
        let alloc = rt.alloc();
        let list = parse_text(
            alloc,
            b"ALLOW - READ_DATA amy\nDENY GROUP READ_DATA temps\nALLOW - READ_DATA EVERYONE@\n",
        )?;
        let text = holders(alloc, &list, Mask::READ_DATA)?;
        assert!(rt;
            text.as_slice() == b"everybody\nbut not group temps\nbut user amy\n".as_slice()
        );
        Ok(())
    }
}
