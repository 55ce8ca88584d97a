//! A list as bytes that are asked many times, by names or by ids.
#![tactic(auto)]

mod hash_matching;
mod id_ace;
mod id_request;
mod prepared_ace;
mod prepared_ids;
mod prepared_names;

pub use id_request::{IdObject, IdRequester};
pub use prepared_ids::{PreparedIds, prepare_ids};
pub use prepared_names::{Prepared, prepare};
