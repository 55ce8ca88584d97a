//! Tests of the commands over devices in memory, one file per command. The head of each file says where its expected
//! values are from. The tests of the modules `ample` need enough memory; every other test accepts that memory runs out.

mod ample;
mod bridge;
mod calc_mask;
mod check_nfs;
mod check_nfs_devices;
mod check_posix;
mod child;
mod chmod;
mod compare;
mod create;
mod encode;
mod harness;
mod lists;
mod mode;
mod normalize;
mod normalize_inherit;
mod scarce;
mod show_nfs;
mod show_posix;
mod table;
mod texts;
