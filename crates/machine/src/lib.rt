//! All domains of a plan and all edges between them in one value, and what moves in it: messages
//! and orders.
#![tactic(auto)]

pub mod bases;
pub mod deliveries;
pub mod machine;
pub mod orders;
pub mod stages;
pub mod starts;
mod turns;
pub mod views;
