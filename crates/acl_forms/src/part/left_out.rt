//! The ACEs of a value that are no part of a list.

use thiserror::Error;

/// An ACE that is left out of a list.
#[derive(Clone, Copy, Debug, PartialEq, Eq)]
pub struct LeftOut {
    /// The number of the ACE among all ACEs of the value, from 0.
    pub place: usize,
    /// The place of the ACE's first byte. The value's first byte is at 0.
    pub offset: u64,
    /// Why the ACE is left out.
    pub reason: LeftOutReason,
}

/// Why an ACE is left out of a list.
#[derive(Clone, Copy, Debug, PartialEq, Eq, Error)]
pub enum LeftOutReason {
    /// The type is AUDIT or ALARM. Such an ACE grants and denies nothing.
    #[error("AuditOrAlarm")]
    AuditOrAlarm,
    /// The type is ALLOW, and the who is a special identifier other than `OWNER@`, `GROUP@` and `EVERYONE@`.
    #[error("SpecialWho")]
    SpecialWho,
}
