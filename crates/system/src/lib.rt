//! The store as it runs: its threads, and the sessions that it gives.
#![tactic(auto)]

mod domains;
mod starter;
pub mod system;
pub mod threads;
