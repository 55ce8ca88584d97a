//! The tests of `acl_ids`, over its public items.
#![tactic(auto)]

#[cfg(test)]
mod tests;
