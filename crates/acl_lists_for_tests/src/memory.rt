//! What a table of tests answers if memory runs out.

use acl_nfs4::PushFault;

/// Turns a fault into `Memory`, the only fault that the rows of a table can have. A table runs twice: in the file of its
/// subject, where it may return `Memory`, and in `ample`, where it may not.
pub fn kept<T, E: Drop>(answer: Result<T, E>) -> Result<T, PushFault> {
    answer.map_err(|_| PushFault::Memory)
}

/// Returns whether a table holds, or memory ran out.
pub fn passes(answer: Result<(), PushFault>) -> bool {
    matches!(answer, Ok(()) | Err(PushFault::Memory))
}
