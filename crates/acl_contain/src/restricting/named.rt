//! A list and its bound, with the principals that they mention.

use acl_normal::internal::Column;
use acl_perm::Principal;

/// The ACEs of a list and of its bound, and which of some principals each of them names.
#[derive(Drop)]
pub(crate) struct Named<'a> {
    /// The principals that the lists mention, and everyone after them.
    pub(crate) whole: Vec<Principal<'a>>,
    /// The list, but that its ALLOWs have no rights.
    pub(crate) list: Column<'a>,
    pub(crate) bound: Column<'a>,
}
