//! Every row of every command if memory may run out, which is then an accepted answer to each line. The files of the
//! commands have the expected values, and say where they are from. Each command has a test of its own, because each
//! request for memory that a test makes is refused in turn.

use crate::tests::harness::{Trial, Way};
use crate::tests::{
    bridge, calc_mask, check_nfs, check_posix, child, chmod, compare, create, encode, mode,
    normalize, normalize_inherit, show_nfs, show_posix, table,
};

#[test]
fn bridge_writes_each_list_or_runs_out_of_memory(rt: HostRuntime) {
    bridge::TABLE.holds(&rt, Trial::new(rt.alloc(), Way::Scarce));
}

#[test]
fn calc_mask_writes_each_text_or_runs_out_of_memory(rt: HostRuntime) {
    calc_mask::TABLE.holds(&rt, Trial::new(rt.alloc(), Way::Scarce));
}

#[test]
fn check_nfs_answers_each_row_or_runs_out_of_memory(rt: HostRuntime) {
    check_nfs::holds(&rt, Trial::new(rt.alloc(), Way::Scarce));
}

#[test]
fn check_posix_answers_each_row_or_runs_out_of_memory(rt: HostRuntime) {
    check_posix::TABLE.holds(&rt, Trial::new(rt.alloc(), Way::Scarce));
}

#[test]
fn child_writes_each_list_or_runs_out_of_memory(rt: HostRuntime) {
    child::TABLE.holds(&rt, Trial::new(rt.alloc(), Way::Scarce));
}

#[test]
fn chmod_writes_each_text_or_runs_out_of_memory(rt: HostRuntime) {
    chmod::TABLE.holds(&rt, Trial::new(rt.alloc(), Way::Scarce));
}

#[test]
fn compare_answers_each_pair_or_runs_out_of_memory(rt: HostRuntime) {
    compare::holds(&rt, Trial::new(rt.alloc(), Way::Scarce));
}

#[test]
fn create_writes_each_text_or_runs_out_of_memory(rt: HostRuntime) {
    create::TABLE.holds(&rt, Trial::new(rt.alloc(), Way::Scarce));
}

#[test]
fn encode_writes_each_list_or_runs_out_of_memory(rt: HostRuntime) {
    encode::TABLE.holds(&rt, Trial::new(rt.alloc(), Way::Scarce));
}

#[test]
fn mode_writes_each_mode_or_runs_out_of_memory(rt: HostRuntime) {
    mode::TABLE.holds(&rt, Trial::new(rt.alloc(), Way::Scarce));
}

#[test]
fn normalize_writes_each_normal_form_or_runs_out_of_memory(rt: HostRuntime) {
    normalize::TABLE.holds(&rt, Trial::new(rt.alloc(), Way::Scarce));
}

#[test]
fn normalize_writes_five_forms_or_runs_out_of_memory(rt: HostRuntime) {
    normalize_inherit::holds(&rt, Trial::new(rt.alloc(), Way::Scarce));
}

#[test]
fn show_nfs_writes_each_text_or_runs_out_of_memory(rt: HostRuntime) {
    show_nfs::TABLE.holds(&rt, Trial::new(rt.alloc(), Way::Scarce));
}

#[test]
fn show_posix_writes_each_text_or_runs_out_of_memory(rt: HostRuntime) {
    show_posix::TABLE.holds(&rt, Trial::new(rt.alloc(), Way::Scarce));
}

#[test]
fn table_writes_the_rows_of_a_bit_or_runs_out_of_memory(rt: HostRuntime) {
    table::TABLE.holds(&rt, Trial::new(rt.alloc(), Way::Scarce));
}
