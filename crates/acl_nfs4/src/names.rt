//! The names of rights and flags, and the sets that fields name by them.

pub(crate) mod bit_names;
pub(crate) mod flag_names;
pub(crate) mod rights;
