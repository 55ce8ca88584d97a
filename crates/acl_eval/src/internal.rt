//! What the crates of this repository share. It is no promise to other users, and may change or go without notice.

pub use crate::bridging::{image, rest_of};
pub use crate::each_right::GrantedSoFar;
pub use crate::matching::Matcher;
pub use crate::permissions::{EXECUTE, READ, WRITE, WRITE_RIGHTS};
