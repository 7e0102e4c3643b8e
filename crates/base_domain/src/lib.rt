//! The domain of a base shard, over fronts of any kind.
#![tactic(auto)]

pub mod base_domain;
pub mod message;
pub mod packets;
mod writing;
