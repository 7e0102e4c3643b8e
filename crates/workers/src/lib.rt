//! The threads of a store: the loop of a thread, and the turns of each kind of domain that it
//! serves.
#![tactic(auto)]

mod base_seat;
pub mod crew;
pub mod duty;
pub mod gate;
mod stage_seat;
mod view_seat;
mod worker;
