//! The tests of `acl_contain`, over its public items.
#![tactic(auto)]

#[cfg(test)]
mod tests;
