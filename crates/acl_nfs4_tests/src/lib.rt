//! The tests of `acl_nfs4`, over its public items.
#![tactic(auto)]

#[cfg(test)]
mod pieces;
#[cfg(test)]
mod speed;
#[cfg(test)]
mod tests;
