//! The tests of `acl_forms`, over its public items.
#![tactic(auto)]

#[cfg(test)]
mod tests;
