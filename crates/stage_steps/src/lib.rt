//! The steps of a stage shard: what one message makes of its rows, of the requests that wait, and
//! of what it puts out.
#![tactic(auto)]

mod edges;
mod entries;
mod keyed;
pub mod message;
pub mod outbox;
mod packets;
mod requests;
pub mod shard;
mod steps;
