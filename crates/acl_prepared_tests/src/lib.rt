//! The tests of `acl_prepared`, over its public items.
#![tactic(auto)]

#[cfg(test)]
mod speed;
#[cfg(test)]
mod tests;
