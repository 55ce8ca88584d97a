//! The list after a change of the mode, and the list for one object.
#![tactic(auto)]

pub mod laws;
mod mode_change;
mod resolving;
mod up_to_three;

pub use mode_change::{ChmodFault, chmod};
pub use resolving::{ResolveFault, resolved};
