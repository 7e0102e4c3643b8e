//! The right side of a stage shard, by stage key: the rows of some keys, and the pieces in hand of
//! keys that wait for theirs.
#![tactic(auto)]

mod pieces;
pub mod rights;
