//! The domain of a stage shard, over fronts of any kind: the shard, and whether it goes on.
#![tactic(auto)]

pub mod stage_domain;
