//! Tests of the device over its public calls, of what no script can show, each a table of rows. They stand in a crate
//! of their own so that the crates below are proved once.
#![tactic(auto)]

#[cfg(test)]
mod device;
#[cfg(test)]
mod disks;
#[cfg(test)]
mod guest;
#[cfg(test)]
mod live;
#[cfg(test)]
mod moves;
#[cfg(test)]
mod opening;
#[cfg(test)]
mod steps;
