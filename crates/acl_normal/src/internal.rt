//! What the crates of this repository share. It is no promise to other users, and may change or go without notice.

pub use crate::comparison::columns::{Column, placings};
pub use crate::comparison::direction::Direction;
pub use crate::comparison::first_difference::{searched, searched_among};
pub use crate::comparison::inversions::denied_before;
pub use crate::comparison::mentioned_principals::{Mentions, mentioned};
pub use crate::comparison::placing::{First, Placing, Whom};
pub use crate::normal_form::{SHORT, long_form};
pub use crate::principal_class::Class;
pub use crate::reduce::collected::collect;
pub use crate::reduce::reduced_list;
pub use crate::rows::remaining::Reduced;
pub use crate::short_form::{have_one_form, short_form};
