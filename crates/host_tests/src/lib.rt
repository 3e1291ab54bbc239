//! Tests of hosts, each from start to close, and of their reports with something amiss. They stand in a crate of their
//! own so that `workers` is proved once.
#![tactic(auto)]

#[cfg(test)]
mod amiss;
#[cfg(test)]
mod crossing;
#[cfg(test)]
mod guest;
#[cfg(test)]
mod hosts;
#[cfg(test)]
mod meeting;
#[cfg(test)]
mod reports;
#[cfg(test)]
mod resetting;
#[cfg(test)]
mod runs;
#[cfg(test)]
mod together;
