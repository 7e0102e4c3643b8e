//! What a session asks of the threads, and what it knows from what comes back.
#![tactic(auto)]

pub mod fence;
pub mod want;
pub mod write;
