//! The events of a schedule over all domains of a plan, in one value with no thread.
#![tactic(auto)]

mod counts;
mod events;
mod fences;
mod reads;
mod settles;
mod stops;
mod wants;
pub mod world;
mod writes;
