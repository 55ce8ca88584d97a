//! Lists as XDR: read in memory, read from a source, and written.

pub(crate) mod access_part;
pub(crate) mod ace_at;
pub(crate) mod cursor;
pub(crate) mod decoder;
pub(crate) mod encode;
pub(crate) mod fault;
pub(crate) mod judges;
mod pulling;
pub(crate) mod reading;
pub(crate) mod unknown_groups;
pub(crate) mod view;
