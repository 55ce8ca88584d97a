//! The POSIX ACL of an NFSv4 list: the users and groups that it has entries for, and what the list grants and the
//! ACL does not.
#![tactic(auto)]

mod judged_entry;
pub mod laws;
mod list_names;
mod losing;
mod posix_of_list;
mod posix_shape;
mod pruning;
pub mod pruning_laws;
mod tag_column;

pub use losing::{LostGrant, lost_grant};
pub use posix_of_list::{ToPosix, to_posix};
pub use posix_shape::ShapeFault;
