//! Inputs that are made of parts, without expected values.

use std::alloc::{AllocError, Global};

/// Repeats a part this many times, between what is before and after it.
pub fn repeated(
    alloc: Global,
    before: &[u8],
    part: &[u8],
    count: usize,
    behind: &[u8],
) -> Result<Vec<u8>, AllocError> {
    let parts = part.repeat(alloc, count)?;
    [before, &parts, behind].concat(alloc)
}

/// Makes the list that has one ACE this many times.
pub fn repeated_ace(alloc: Global, count: u32, ace: &[u8]) -> Result<Vec<u8>, AllocError> {
    repeated(alloc, &count.to_be_bytes(), ace, count as usize, b"")
}
