//! What leads from thread to thread in a running store: what comes to each domain and to each
//! session, and the plan and the book that all share.
#![tactic(auto)]

pub mod crews;
pub mod mail;
pub mod routes;
