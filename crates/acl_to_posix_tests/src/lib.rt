//! The tests of `acl_to_posix`, over its public items.
#![tactic(auto)]

#[cfg(test)]
mod tests;
