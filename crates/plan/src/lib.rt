//! A checked plan: tables, one stage over them, and views of what the stage gives.
#![tactic(auto)]

pub mod domain;
pub mod draft;
pub mod kinds;
pub mod names;
mod naming;
mod passes;
pub mod plan;
pub mod stage;
pub mod table;
