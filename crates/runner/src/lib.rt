//! Runs scripts in the sessions of a plan that it starts.
#![tactic(auto)]

mod answers;
mod orders;
pub mod play;
mod race;
mod reads;
mod writes;
