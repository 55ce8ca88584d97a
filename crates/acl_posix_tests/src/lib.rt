//! The tests of `acl_posix`, over its public items.
#![tactic(auto)]

#[cfg(test)]
mod speed;
#[cfg(test)]
mod tests;
