//! Tests of sets, principals and devices, one file for each. The head of each file says where its expected values are
//! from. The tests of `ample` need enough memory; every other test accepts an answer that says that memory ran out.

mod ample;
mod counted;
mod fused;
mod harness;
mod modes;
mod principals;
mod sets;
mod whole;
