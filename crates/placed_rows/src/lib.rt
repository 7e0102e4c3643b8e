//! Rows that lie whole in one place, with their texts, where they can.
#![tactic(auto)]

pub mod display;
pub mod field;
pub mod in_place;
pub mod placed;
pub mod row_view;
