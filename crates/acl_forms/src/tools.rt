//! The text of nfs4-acl-tools.

pub(crate) mod entry;
mod reader;
pub(crate) mod writer;

pub use reader::read_tools;
pub use writer::{tools_fault, write_tools};
