//! What goes between domains: packets, requests and markers, when they are true, and what a base
//! domain puts out.
#![tactic(auto)]

pub mod answer;
pub(crate) mod append;
pub mod base_packet;
pub mod edges;
pub mod groups;
pub mod keyed;
pub mod line;
pub mod marks;
pub mod mode;
pub mod outbox;
pub mod piece;
pub mod reader;
pub mod request;
pub mod split;
pub mod stage_packet;
