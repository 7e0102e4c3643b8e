//! What the stage of a plan makes of the rows of its sides: all of it at once, and step by step
//! as the rows change. Nothing here waits, and nothing fails unless memory is refused.
#![tactic(auto)]

pub mod cells;
pub mod difference;
pub mod filter;
pub mod shape;
pub mod side;
pub mod stage;
pub mod total;
