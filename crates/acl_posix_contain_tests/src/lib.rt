//! The tests of `acl_posix_contain`, over its public items.
#![tactic(auto)]

#[cfg(test)]
mod tests;
