//! Queries that are tidied, as examples. They stand apart from `tidy`, which is cheaper to check without them.

#![tactic(auto)]

#[cfg(test)]
mod alternatives;
#[cfg(test)]
mod chains;
#[cfg(test)]
mod each_rule;
#[cfg(test)]
mod limits;
#[cfg(test)]
mod refusals;
#[cfg(test)]
mod sheet;
#[cfg(test)]
mod stays;
