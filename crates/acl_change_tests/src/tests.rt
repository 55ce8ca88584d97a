//! Tests of this crate, by subject. The head of each file says where its expected values are from.

mod ample;
mod examples;
mod mode_changes;
mod resolving;
