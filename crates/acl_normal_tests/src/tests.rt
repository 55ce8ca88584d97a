//! Tests by tables of worked lists, and of the fast functions against the plain ones. The expected values of the tables
//! are worked by hand: what a list grants by the first match (RFC 8881, section 6.2.1), and the normal form, its table
//! and the small situations by docs/reference/lists.md.

mod ample;
mod bytes;
mod differences;
mod examples;
mod excesses;
mod five_forms;
mod forms;
mod harness;
mod largest;
mod merged_rows;
mod names;
mod short_forms;
mod small_situations;
mod tables;
