//! The tests of `acl_change`, over its public items.
#![tactic(auto)]

#[cfg(test)]
mod tests;
