//! The normal form and the comparison in plain ways. The module is for tests, which compare the fast functions with
//! these.

mod by_rows;
mod emission;
mod normal_form;
mod reduction;
mod small_sets;

pub use by_rows::normalize_by_rows;
pub use normal_form::normalize;
pub use small_sets::{compare, excess};
