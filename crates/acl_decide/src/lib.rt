//! Which ACE decides each right, also where nobody knows whom a special identifier matches.
#![tactic(auto)]

pub mod laws;
mod one_decider;
mod out_names;
mod request_with_unknown;
mod rights_with_unknown;

pub use one_decider::{Decision, deciding_ace};
pub use request_with_unknown::{RequestAnswer, request_answer};
pub use rights_with_unknown::{DecidedWithUnknown, decided_with_unknown};
