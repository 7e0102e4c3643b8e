//! The texts of schedules: what their lines ask for, the events that this is over a plan, and how
//! replies are printed.
#![tactic(auto)]

pub mod event_line;
pub mod events;
pub mod reader;
pub mod replies;
