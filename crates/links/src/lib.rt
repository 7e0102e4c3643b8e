//! The links between the threads of a store: the inbox of a domain and the order in which it is
//! taken, the mailbox and the bell of a session, and which domains have stopped. They carry
//! messages of any type, and know nothing of them.
#![tactic(auto)]

pub mod bell;
pub mod inbox;
mod line;
pub mod look;
pub mod mailbox;
pub mod queues;
pub mod stops;
pub mod turns;
