//! Tests of a logical unit over its public calls, each a table of rows, and of the hand-off, all with chains of real
//! split queues. They stand in a crate of their own so that `logical_unit` and `handoff` are proved once.
#![tactic(auto)]

#[cfg(test)]
mod acts;
#[cfg(test)]
mod bench;
#[cfg(test)]
mod calls;
#[cfg(test)]
mod hand;
#[cfg(test)]
mod port;
#[cfg(test)]
mod seats;
#[cfg(test)]
mod unit;
