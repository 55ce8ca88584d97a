//! The tests of this crate, with values of Samba.

mod lists;
mod parts;
mod sids;
mod values;
