//! The tests of `acl_normal`, over its public items.
#![tactic(auto)]

#[cfg(test)]
mod tests;
