//! Tests of what no script can show of the play of a script: readers and writers that fail. They stand in a crate of
//! their own so that `guest_script` is proved once.
#![tactic(auto)]

#[cfg(test)]
mod failing;
