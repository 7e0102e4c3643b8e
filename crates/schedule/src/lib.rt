//! What a schedule of the protocol is made of: its events and their replies, the places of domains
//! and edges, the queue of each edge, and the sessions.
#![tactic(auto)]

pub mod arguments;
pub mod caller;
mod cuts;
pub mod event;
pub mod places;
pub mod queues;
pub mod readers;
pub mod wire;
