//! Worked examples by subject. The head of each file says where its expected values are from. Each table of lists runs
//! twice: in `ample` with enough memory, so that each answer is exact, and in `scarce` with memory that may run out,
//! which is then an accepted answer and leaves a value as it was.

mod ample;
mod attributes;
mod changes;
mod checks;
mod creation;
mod examples;
mod excess;
mod faults;
mod harness;
mod lists;
mod names;
mod samples;
mod scarce;
mod views;
mod writing;

use harness::Memory;
use std::process::Abort;

// Runs each table of lists.
fn worked_lists<A: Abort>(rt: &A, memory: Memory) {
    lists::tables(rt, memory);
    changes::tables(rt, memory);
    checks::requests(rt, memory);
    creation::new_files(rt, memory);
    excess::differences_of_users(rt, memory);
    excess::differences_of_groups(rt, memory);
}
