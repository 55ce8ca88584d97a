//! Calls over the text or the entries of POSIX ACLs.

pub(crate) mod check;
pub(crate) mod creation;
pub(crate) mod entries;
pub(crate) mod entries_check;
pub(crate) mod entries_excess;
pub(crate) mod entries_made;
pub(crate) mod file;
pub(crate) mod forms;
pub(crate) mod names;
pub(crate) mod text_fault;
pub(crate) mod texts;
pub(crate) mod written;
