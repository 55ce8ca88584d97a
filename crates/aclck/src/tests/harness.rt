//! Runs of commands over devices in memory, and what each test file compares its rows with. The expected values are in
//! the files of the commands.

mod devices;
mod failures;
mod lists;
mod rows;
mod runs;
mod trial;

pub use devices::{Calls, Devices, FINE};
pub use failures::{fails_at_read, fails_at_write};
pub use lists::{repeated, repeated_ace};
pub use rows::{Asked, Table};
pub use runs::run;
pub use trial::{Answer, Trial, Way};
