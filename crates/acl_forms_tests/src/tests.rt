//! The tests of this crate, with values of the standards and of the tools that read and write the forms. The head of
//! each file says which.

mod acl41;
mod acl41_ids;
mod attributes;
mod examples;
mod form;
mod nfs_text;
mod part;
mod posix_text;
mod shown;
mod tools;
mod whos;
