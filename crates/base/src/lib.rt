//! One base shard: the rows that a log leaves, found by their keys.
#![tactic(auto)]

mod index;
pub mod part;
pub mod shard;
