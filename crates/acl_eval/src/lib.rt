//! Who may do what under a list of ACEs, what a new object inherits from the list, its mode, and the list of a POSIX
//! ACL.
#![tactic(auto)]

mod bridging;
mod each_right;
mod groups;
mod inherit;
pub mod internal;
pub mod laws;
mod matching;
mod mode;
mod permissions;
mod situation;
mod sorted_requester;
mod whole_request;

pub use bridging::{BridgeFault, bridge};
pub use each_right::{DecidedRights, decided, granted};
pub use inherit::{ChildKind, child, child_of_view, inherited_child};
pub use mode::mode_of;
pub use situation::{Object, Requester};
pub use sorted_requester::SortedRequester;
pub use whole_request::{grants, grants_for_many_groups};
