//! Tests of this crate, by subject. The head of each file says where its expected values are from.

mod ample;
mod bounds;
mod examples;
mod losses;
mod pruning;
