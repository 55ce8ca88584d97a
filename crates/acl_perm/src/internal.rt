//! What the crates of this repository share. It is no promise to other users, and may change or go without notice.

pub use crate::bit::Bit;
pub use crate::bit_names::{BitName, first_name};
pub use crate::kind::kind_name;
pub use crate::lines::{Piece, before_mark, cut_line, is_all_blank, trimmed};
pub use crate::pieces::put_next;
pub use crate::place::place_of;
pub use crate::right_names::RIGHTS;
