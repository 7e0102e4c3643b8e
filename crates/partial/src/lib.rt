//! State that is kept for some keys: what is known of a key is a hole, a gather with the pieces
//! in hand, or a filled entry. A gather counts each change of each source once, whatever comes
//! between the pieces, so a filled entry is the sum of the parts that the sources have.
#![tactic(auto)]

pub mod bags;
pub mod filled;
pub mod gather;
pub mod partial;
pub mod pieces;
mod waiting;
