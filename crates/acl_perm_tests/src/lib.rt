//! The tests of `acl_perm`, over its public items.
#![tactic(auto)]

#[cfg(test)]
mod tests;
