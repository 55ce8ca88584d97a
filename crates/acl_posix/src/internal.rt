//! What the crates of this repository share. It is no promise to other users, and may change or go without notice.

pub use crate::attribute::{ENTRY_SIZE, VERSION, VERSION_SIZE, first_fall, stored_raw};
pub use crate::attribute_writer::{entry_bytes, version_bytes};
pub use crate::entry_writer::letter;
pub use crate::field::{TagWord, is_default, is_number, read_id, read_permissions, read_word};
pub use crate::raw_entry::UNDEFINED_ID;
