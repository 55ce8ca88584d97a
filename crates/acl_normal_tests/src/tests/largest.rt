//! The largest list: as many ACEs as a list may have, each with a principal of its own, in 1,572,868 bytes. The bytes
//! are written by hand (RFC 8881, section 6.2.1, and RFC 4506, sections 4.10 and 4.13).

use acl_nfs4::{Fault, Reason};
use acl_normal::normal_bytes;
use std::alloc::{AllocError, Global};
use std::test::Fail;

const DIGITS: &[u8; 10] = b"0123456789";

// Writes the ACE with this type and mask whose who is `u` and the number in five digits.
fn write_ace(bytes: &mut Vec<u8>, kind: u8, mask: u8, number: usize) -> Result<(), AllocError> {
    bytes.extend_from_slice(&[0, 0, 0, kind, 0, 0, 0, 0, 0, 0, 0, mask, 0, 0, 0, 6, b'u'])?;
    for power in [10_000, 1_000, 100, 10, 1usize] {
        bytes.push(DIGITS[number / power % 10])?;
    }
    bytes.extend_from_slice(&[0, 0])
}

// The list in which every other user may read, and the others may not; the last ACE has its own mask.
fn largest(alloc: Global, last_mask: u8) -> Result<Vec<u8>, AllocError> {
    let mut bytes = Vec::new(alloc);
    bytes.extend_from_slice(&[0, 1, 0, 0])?;
    for pair in 0..32_767usize {
        write_ace(&mut bytes, 1, 1, 2 * pair)?;
        write_ace(&mut bytes, 0, 1, 2 * pair + 1)?;
    }
    write_ace(&mut bytes, 1, 1, 65_534)?;
    write_ace(&mut bytes, 0, last_mask, 65_535)?;
    Ok(bytes)
}

// The list of the users who may read.
fn readers(alloc: Global) -> Result<Vec<u8>, AllocError> {
    let mut bytes = Vec::new(alloc);
    bytes.extend_from_slice(&[0, 0, 0x80, 0])?;
    for pair in 0..32_768usize {
        write_ace(&mut bytes, 0, 1, 2 * pair + 1)?;
    }
    Ok(bytes)
}

mod ample {
    use super::*;

    #[test]
    fn the_largest_list_has_its_normal_form(rt: HostRuntime) -> Result<(), Fail> {
        let source = largest(rt.alloc(), 1)?;
        let wanted = readers(rt.alloc())?;
        assert!(rt; source.len() == 1_572_868);
        assert!(rt; wanted.len() == 786_436);
        let form = normal_bytes(rt.alloc(), &source)?;
        assert!(rt; *form == *wanted);
        Ok(())
    }

    #[test]
    fn the_largest_list_with_one_right_more_is_too_heavy_at_its_last_mask(
        rt: HostRuntime,
    ) -> Result<(), Fail> {
        let source = largest(rt.alloc(), 3)?;
        let wanted = Fault {
            offset: 1_572_852,
            reason: Reason::TooHeavy,
        };
        assert!(rt; matches!(normal_bytes(rt.alloc(), &source), Err(fault) if fault == wanted));
        Ok(())
    }
}
