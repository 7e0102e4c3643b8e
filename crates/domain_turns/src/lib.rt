//! What a domain is made of before its first message, one message of each kind of domain, with what
//! becomes of it outside, which packets can be taken as one, and who waits for a key.
#![tactic(auto)]

pub mod base_turns;
pub mod fresh;
pub mod joins;
pub mod stage_turns;
pub mod view_turns;
pub mod waits;
