//! The examples of the doc comments. Each test has the lines of the example of one call, in the same order. The bytes
//! are in the layout of RFC 4506, and the numbers of the rights are those of RFC 8881, section 6.2.1.3.1.

use acl_nfs4::*;
use std::test::Fail;

#[test]
fn parse_whole_returns_the_list_of_the_bytes(rt: HostRuntime) -> Result<(), Fail> {
    let bytes = b"\0\0\0\x01\0\0\0\0\0\0\0\0\0\0\0\x01\0\0\0\x06OWNER@\0\0";
    let list = AclView::parse_whole(bytes)?;
    assert!(rt; list.len() == 1);
    for ace in list.aces() {
        assert!(rt; ace.principal() == Principal::Owner);
    }
    Ok(())
}

#[test]
fn read_mask_returns_the_rights_that_a_field_names(rt: HostRuntime) -> Result<(), Fail> {
    let mask = read_mask(b"READ_DATA|EXECUTE").ok_or("no such right")?;
    assert!(rt; mask.bits() == 0x21);
    Ok(())
}

#[test]
fn ace_at_reads_one_ace_after_the_other(rt: HostRuntime) -> Result<(), Fail> {
    let bytes = b"\0\0\0\x01\0\0\0\0\0\0\0\0\0\0\0\x01\0\0\0\x06OWNER@\0\0";
    if let Some(first) = ace_at(bytes, 0, Profile::FULL)? {
        assert!(rt; first.ace.who == b"OWNER@".as_slice() && first.end == 28);
        assert!(rt; ace_at(bytes, first.end, Profile::FULL)?.is_none());
    }
    Ok(())
}

mod ample {
    use super::*;

    #[test]
    fn parse_text_returns_the_list_of_the_lines(rt: HostRuntime) -> Result<(), Fail> {
        let alloc = rt.alloc();
        let text = b"ALLOW - READ_DATA OWNER@\nDENY GROUP WRITE_DATA staff\n";
        let list = parse_text(alloc, text)?;
        assert!(rt; list.len() == 2);
        assert!(rt; list.weight() == 2);
        Ok(())
    }

    #[test]
    fn parse_whole_leaves_audits_out_of_the_part(rt: HostRuntime) -> Result<(), Fail> {
        let alloc = rt.alloc();
        let bytes =
            b"\0\0\0\x02\0\0\0\x02\0\0\0\x10\0\0\0\x01\0\0\0\x03bob\0\0\0\0\0\0\0\0\0\0\0\0\x01\0\0\0\x04NOW@";
        let part = AccessPart::parse_whole(alloc, bytes)?;
        assert!(rt; part.left_out() == 1);
        for ace in part.aces() {
            assert!(rt; ace.is_unknown());
        }
        Ok(())
    }

    #[test]
    fn with_groups_puts_a_group_for_an_unknown_name(rt: HostRuntime) -> Result<(), Fail> {
        let alloc = rt.alloc();
        let bytes = b"\0\0\0\x01\0\0\0\0\0\0\0\0\0\0\0\x01\0\0\0\x04NOW@";
        let part = AccessPart::parse_whole(alloc, bytes)?;
        let list = part.with_groups(alloc, b"?")?;
        assert!(rt; list == parse_text(alloc, b"ALLOW GROUP READ_DATA NOW@?")?);
        Ok(())
    }

    #[test]
    fn push_adds_an_ace_to_a_list(rt: HostRuntime) -> Result<(), Fail> {
        let alloc = rt.alloc();
        let mut list = Acl::new(alloc);
        let mask = read_mask(b"READ_DATA").ok_or("no such right")?;
        list.push(AceRef {
            kind: Kind::Allow,
            flags: Flags::NONE,
            mask,
            who: b"alice",
        })?;
        assert!(rt; list.len() == 1);
        Ok(())
    }

    #[test]
    fn encode_writes_the_bytes_of_a_list(rt: HostRuntime) -> Result<(), Fail> {
        let alloc = rt.alloc();
        let list = parse_text(alloc, b"ALLOW - READ_DATA OWNER@")?;
        let mut room = [0u8; 28];
        list.encode(&mut Counted::new(room.as_mut_slice()))?;
        assert!(rt; AclView::parse_whole(&room)?.len() == 1);
        Ok(())
    }

    #[test]
    fn decode_reads_the_list_at_the_front_of_a_source(rt: HostRuntime) -> Result<(), Fail> {
        let alloc = rt.alloc();
        let mut source = Counted::new(b"\0\0\0\0 and more".as_slice());
        let list = decode(alloc, &mut source)?;
        assert!(rt; list.is_empty());
        Ok(())
    }

    #[test]
    fn a_feed_takes_a_list_in_pieces(rt: HostRuntime) -> Result<(), Fail> {
        let alloc = rt.alloc();
        let mut feed = Feed::new(alloc);
        assert!(rt; feed.feed(&[0, 0]) == Fed::More);
        assert!(rt; feed.feed(&[0, 0, 0xff]) == Fed::Done { taken: 2 });
        assert!(rt; feed.finish()?.is_empty());
        Ok(())
    }
}
