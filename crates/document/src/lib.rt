//! A recipe as it is written: from a TOML value to the draft of a plan, and why a recipe is
//! refused.
#![tactic(auto)]

pub mod error;
mod fields;
mod names;
pub mod reading;
mod stage;
pub mod word;
