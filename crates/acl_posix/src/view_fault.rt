//! Why raw entries are not a valid ACL in canonical order.

use crate::raw_entry::EntryFault;
use crate::tag::Tag;
use thiserror::Error;

/// Why raw entries are not a valid ACL in canonical order. Places count from 0.
#[derive(Clone, Copy, Debug, PartialEq, Eq, Error)]
pub enum ViewFault {
    /// The numbers of the entry at this place are not those of an entry.
    #[error("{1} at entry {0}")]
    Entry(usize, EntryFault),
    /// The entry at this place is not after the entry before it, in canonical order.
    #[error("Order at entry {0}")]
    Order(usize),
    /// An entry with this tag is required, and is absent.
    #[error("Miss {}", .0.name())]
    Miss(Tag),
}
