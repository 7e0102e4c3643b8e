//! The domain of a view shard, over fronts of any kind.
#![tactic(auto)]

mod asks;
pub mod keys;
pub mod message;
pub mod outbox;
mod parts;
pub mod shown;
mod takes;
pub mod turn;
pub mod view_domain;
