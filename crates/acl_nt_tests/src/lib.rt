//! The tests of `acl_nt`, over its public items.
#![tactic(auto)]

#[cfg(test)]
mod tests;
