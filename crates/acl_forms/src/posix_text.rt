//! The text of POSIX ACLs in archives.

mod entry;
mod fields;
mod form;
mod names;
mod parts;
mod reader;
mod style;
mod writer;

pub use names::IdNames;
pub use reader::{read_default_text, read_posix_text};
pub use style::TarStyle;
pub use writer::{posix_text_fault, write_posix_text};
