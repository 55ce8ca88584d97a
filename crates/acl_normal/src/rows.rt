//! The rows of the principals of a list: how they are numbered, which places wait, and what is left of each row.

mod heads;
pub(crate) mod numbers;
pub(crate) mod remaining;
pub(crate) mod short_list;
pub(crate) mod waiting;
