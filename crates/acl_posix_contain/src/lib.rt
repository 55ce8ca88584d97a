//! The most that a POSIX ACL may keep under another one.
#![tactic(auto)]

mod restricting;

pub use restricting::restricted;
