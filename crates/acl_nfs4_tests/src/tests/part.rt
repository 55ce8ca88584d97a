//! The part of a list that access reads. The numbers of the types are those of RFC 8881, section 6.2.1.1, its section
//! 6.2.1.5 has the special identifiers, and the places are those of the layout of RFC 4506.

use acl_nfs4::*;
use std::test::Fail;

// AUDIT, DENY INTERACTIVE@ and ALLOW OWNER@, each of READ_DATA, and one ALARM of WRITE_DATA for bob.
static LIST: &[u8; 96] = b"\0\0\0\x04\
    \0\0\0\x02\0\0\0\x10\0\0\0\x01\0\0\0\x03bob\0\
    \0\0\0\x01\0\0\0\x01\0\0\0\x01\0\0\0\x0cINTERACTIVE@\
    \0\0\0\0\0\0\0\x01\0\0\0\x01\0\0\0\x06OWNER@\0\0\
    \0\0\0\x03\0\0\0\x20\0\0\0\x02\0\0\0\x03bob\0\
    ";

// A place, a byte there, and the fault of the list with this byte, as a reader of other lists has it.
static DAMAGED: [(usize, u8, u64, Reason); 8] = [
    (1, 2, 0, Reason::TooManyAces),
    (7, 4, 4, Reason::AceType),
    (10, 1, 8, Reason::FlagBits),
    (14, 8, 12, Reason::MaskBits),
    (19, 0, 16, Reason::WhoLength),
    (40, 0xff, 40, Reason::WhoUtf8),
    (51, 0x07, 40, Reason::WhoControl),
    (95, 1, 95, Reason::Padding),
];

mod ample {
    use super::*;

    #[test]
    fn audit_and_alarm_are_left_out(rt: HostRuntime) -> Result<(), Fail> {
        let part = AccessPart::parse_whole(rt.alloc(), LIST)?;
        assert!(rt; part.left_out() == 2);
        let rows: [(Kind, u8, &[u8], bool); 2] = [
            (Kind::Deny, 0x41, b"INTERACTIVE@", true),
            (Kind::Allow, 0x01, b"OWNER@", false),
        ];
        assert!(rt; part.aces().len() == rows.len());
        for (ace, (kind, flags, who, is_unknown)) in part.aces().iter().zip(rows) {
            assert!(rt; (ace.kind, ace.flags.bits(), ace.mask) == (kind, flags, Mask::READ_DATA));
            assert!(rt; ace.who == who && ace.is_unknown() == is_unknown);
        }
        Ok(())
    }

    #[test]
    fn other_fields_are_refused_as_in_other_lists(rt: HostRuntime) -> Result<(), Fail> {
        for (place, byte, offset, reason) in DAMAGED {
            let mut bytes = *LIST;
            for to in bytes.iter_mut().skip(place).take(1) {
                *to = byte;
            }
            let found = AccessPart::parse_whole(rt.alloc(), &bytes).err();
            assert!(rt; found == Some(Fault { offset, reason }), "{place}");
        }
        Ok(())
    }
}
