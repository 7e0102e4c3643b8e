//! Schedules that are run over a plan, event by event, and printed reply by reply, in one thread.
#![tactic(auto)]

pub mod replay;
