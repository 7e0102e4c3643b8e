//! What a reader has to believe: entries, logs, queries over fronts, histories, and which of them
//! are legal.
#![tactic(auto)]

mod blocks;
mod display;
pub mod entry;
pub mod floors;
pub mod fronts;
pub mod item;
pub mod lengths;
pub mod list;
pub mod place;
pub mod places;
