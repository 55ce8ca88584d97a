//! Tests by tables of worked lists. The expected values are worked by hand: what a list grants by the first match (RFC
//! 8881, section 6.2.1), and the rest by docs/reference/lists.md.

mod ample;
mod asked_questions;
mod equal_lists;
mod examples;
mod excesses;
mod expected;
mod holder_words;
mod implications;
mod lists;
mod needed_rights;
mod restrictions;
mod restrictions_everywhere;
mod tidied_lists;
