//! The tests of `acl_decide`, over its public items.
#![tactic(auto)]

#[cfg(test)]
mod tests;
