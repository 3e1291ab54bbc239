//! Tests of the split virtqueue (VIRTIO 1.2, 2.7) and of the packed one (2.8) over the public calls of their crates,
//! each a table of rows. They stand in a crate of their own so that the rings are proved once.
#![tactic(auto)]

#[cfg(test)]
mod bench;
#[cfg(test)]
mod moves;
#[cfg(test)]
mod tests;
