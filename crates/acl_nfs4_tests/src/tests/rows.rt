//! Lists as rows, and the bytes that spell them by RFC 4506, sections 4.2, 4.10 and 4.13, over RFC 8881, section 6.2.1.

use acl_lists_for_tests::AceRow;
use acl_nfs4::*;
use std::alloc::{AllocError, Global};
use std::process::Abort;

/// The row ALLOW READ_DATA EVERYONE@.
pub const EVERYONE: AceRow = (Kind::Allow, 0, 1, b"EVERYONE@");

/// Adds a word, the most significant byte first.
pub fn append_word(bytes: &mut Vec<u8>, number: u32) -> Result<(), AllocError> {
    bytes.extend_from_slice(&number.to_be_bytes())
}

fn word_of(len: usize) -> u32 {
    u32::try_from(len).unwrap_or(u32::MAX)
}

/// Adds the bytes that spell the ACE of a row, with its padding.
pub fn append_ace(bytes: &mut Vec<u8>, (kind, flags, mask, who): AceRow) -> Result<(), AllocError> {
    append_word(bytes, if kind == Kind::Allow { 0 } else { 1 })?;
    append_word(bytes, flags)?;
    append_word(bytes, mask)?;
    append_word(bytes, word_of(who.len()))?;
    bytes.extend_from_slice(who)?;
    for _ in 0..(4 - who.len() % 4) % 4 {
        bytes.push(0)?;
    }
    Ok(())
}

/// Returns the bytes that spell the list of these rows.
pub fn spelled(alloc: Global, rows: &[AceRow]) -> Result<Vec<u8>, AllocError> {
    let mut bytes = Vec::new(alloc);
    append_word(&mut bytes, word_of(rows.len()))?;
    for row in rows {
        append_ace(&mut bytes, *row)?;
    }
    Ok(bytes)
}

fn is_row(ace: &AceRef<'_>, (kind, flags, mask, who): AceRow) -> bool {
    ace.kind == kind
        && ace.flags.bits() as u32 == flags
        && ace.mask.bits() == mask
        && ace.who == who
}

/// Returns whether the ACEs are those of the rows, in order.
pub fn shows(aces: Aces<'_>, rows: &[AceRow]) -> bool {
    let mut at = 0usize;
    for ace in aces {
        let Some(row) = rows.get(at) else {
            return false;
        };
        if !is_row(&ace, *row) {
            return false;
        }
        at = at.wrapping_add(1);
    }
    at == rows.len()
}

/// Copies a list of any length. Fails if memory runs out.
pub fn check_copy(rt: &impl Abort, alloc: Global, list: &Acl) -> Result<(), AllocError> {
    let copy = list.copy(alloc)?;
    assert!(rt; copy == *list);
    Ok(())
}
