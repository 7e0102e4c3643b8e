//! The definitions as programs: plain, slow, and exact. Nothing here is kept between two calls, and
//! nothing is found by an index; each call evaluates what it is asked anew over whole fronts. The
//! store's own code is compared with it.
#![tactic(auto)]

pub mod cuts;
pub mod floors;
pub mod front;
mod groups;
pub mod legal;
pub mod logs;
pub mod own;
pub mod query;
pub mod rows;
mod shape;
pub mod stage;
mod totals;
