//! Tests of this crate, by subject. The head of each file says where its expected values are from.

mod ample;
mod bridging;
mod creation;
mod examples;
mod granting;
mod lists;
mod modes;
mod naming;
