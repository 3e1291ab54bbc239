//! Tests of the lowest crates over their public calls, each a table of rows: layouts, command blocks, sense data,
//! unit attentions, guest memory, records and stores of blocks. They stand in a crate of their own so that those are
//! proved once.
#![tactic(auto)]

#[cfg(test)]
mod tests;
