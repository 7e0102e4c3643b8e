//! Recipes: from a TOML text to a checked plan.
#![tactic(auto)]

pub mod recipe;
mod spots;
