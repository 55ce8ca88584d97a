//! The text of NFSv4 lists on FreeBSD, in ZFS and in archives.

pub(crate) mod entry;
mod fields;
pub(crate) mod id;
mod reader;
pub(crate) mod writer;

pub use reader::read_nfs_text;
pub use writer::{nfs_text_fault, write_nfs_text};
