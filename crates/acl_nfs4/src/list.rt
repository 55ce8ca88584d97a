//! The owned list, and the ACEs of a list in order.

pub(crate) mod aces;
pub(crate) mod acl;
pub(crate) mod build;
pub(crate) mod push_fault;
pub(crate) mod renaming;
