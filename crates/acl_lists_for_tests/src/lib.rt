//! What the tests of several crates share: lists from rows, and what a table of tests answers if memory runs out.
#![tactic(auto)]

mod memory;
mod posix;
mod rows;

pub use memory::{kept, passes};
pub use posix::acl_of;
pub use rows::{ALLOW, AceRow, DENY, ace_of, built, repeated};
