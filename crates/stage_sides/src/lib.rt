//! The rows of a stage shard, which has its left side in full and its right side by stage key: what
//! records of base shards change of its output, and the rows that it has of a view's key.
#![tactic(auto)]

mod found;
mod kept;
mod keys;
pub mod rows;
mod sides;
mod values;
