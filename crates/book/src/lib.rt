//! The words that threads share, and what each that holds one knows of the history.
#![tactic(auto)]

pub mod book;
pub mod cut;
pub mod front;
pub mod law;
pub mod log;
pub mod part;
pub mod reply;
pub mod session;
mod step;
pub mod view_copy;
