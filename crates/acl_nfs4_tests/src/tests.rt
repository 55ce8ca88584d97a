//! Tests by subject. The head of each file says where its expected values come from, or what property it checks.

mod ace_at;
mod agreement;
mod devices;
mod examples;
mod feeding;
mod harness;
mod list;
mod names;
mod parse;
mod part;
mod push;
mod readers;
mod renaming;
mod rows;
mod tables;
mod text;
mod unknown_groups;
