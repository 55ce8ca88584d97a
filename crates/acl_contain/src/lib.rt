//! Whether a list grants at most what another does, what it may keep under a bound, who has a right, which rights are
//! needed, and which questions show all that it grants.
#![tactic(auto)]

mod asking;
mod equal_grants;
mod exceeding;
mod holder_lines;
mod implying;
pub mod laws;
mod needed_rights;
mod restricting;
mod tidying;

pub use asking::{Question, QuestionsFault, questions};
pub use equal_grants::same_views;
pub use exceeding::excess;
pub use holder_lines::holders;
pub use implying::implies;
pub use needed_rights::needed_of_view;
pub use restricting::everywhere::restricted_everywhere;
pub use restricting::restricted;
pub use tidying::tidy;
