//! The values of the words of a command line.

pub(crate) mod names;
pub(crate) mod options;
pub(crate) mod profile;
pub(crate) mod values;
