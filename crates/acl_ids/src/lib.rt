//! The ids of the users and groups that a list names, by a table or by their own digits, and lists by these ids.
#![tactic(auto)]

mod id_names;

pub use id_names::{IdsFault, first_unknown, group_id, principal_id, user_id};
