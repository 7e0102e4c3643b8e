//! A hash map whose entries also stand in an order, from the latest to the oldest.
//!
//! The entries lie side by side in an `IndexMap`, and a ring of links between their positions keeps
//! the order: Java's `LinkedHashMap` and the crate `hashlink` do the same with nodes that are
//! allocated one by one.
#![tactic(auto)]

pub mod iter;
pub mod map;
mod ring;
