//! Sessions: what one caller holds of a running store, over all shards of all views.
#![tactic(auto)]

pub mod fences;
mod orders;
pub mod reads;
pub mod session;
mod sights;
mod turns;
