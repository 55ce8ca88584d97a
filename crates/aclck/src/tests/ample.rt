//! Every row of every command with enough memory, over devices that work and over devices that fail. The files of the
//! commands have the expected values, and say where they are from. A test of only one command is in the file of that
//! command.

use crate::tests::harness::{Trial, Way};
use crate::tests::{
    bridge, calc_mask, check_nfs, check_posix, child, chmod, compare, create, encode, mode,
    normalize, normalize_inherit, show_nfs, show_posix, table,
};
use std::process::Abort;

// The commands that read a text.
fn texts_hold<A: Abort>(rt: &A, trial: Trial) {
    bridge::TABLE.holds(rt, trial);
    calc_mask::TABLE.holds(rt, trial);
    check_posix::TABLE.holds(rt, trial);
    chmod::TABLE.holds(rt, trial);
    create::TABLE.holds(rt, trial);
    encode::TABLE.holds(rt, trial);
    show_posix::TABLE.holds(rt, trial);
}

// The commands that read lists.
fn lists_hold<A: Abort>(rt: &A, trial: Trial) {
    check_nfs::holds(rt, trial);
    child::TABLE.holds(rt, trial);
    compare::holds(rt, trial);
    mode::TABLE.holds(rt, trial);
    normalize::TABLE.holds(rt, trial);
    normalize_inherit::holds(rt, trial);
    show_nfs::TABLE.holds(rt, trial);
    table::TABLE.holds(rt, trial);
}

#[test]
fn every_row_is_answered_as_it_says(rt: HostRuntime) {
    let trial = Trial::new(rt.alloc(), Way::Ample);
    lists_hold(&rt, trial);
    texts_hold(&rt, trial);
}

#[test]
fn every_failed_read_and_write_and_each_refusal_is_reported_at_once(rt: HostRuntime) {
    let trial = Trial::new(rt.alloc(), Way::Failing);
    lists_hold(&rt, trial);
    texts_hold(&rt, trial);
}

#[test]
fn a_failed_read_of_a_text_is_reported_before_a_fault(rt: HostRuntime) {
    texts_hold(&rt, Trial::new(rt.alloc(), Way::Unread));
}
