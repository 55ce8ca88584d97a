//! The tests of `acl_eval`, over its public items.
#![tactic(auto)]

#[cfg(test)]
mod decide;
#[cfg(test)]
mod example;
#[cfg(test)]
mod speed;
#[cfg(test)]
mod tests;
