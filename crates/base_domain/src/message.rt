//! What comes to a base shard.
use model::entry::Entry;
use packet::request::{Marker, Request};

/// A write: its session, the number of its call, and the entry.
#[derive(Drop)]
pub struct Write {
    pub session: usize,
    pub number: u64,
    pub entry: Entry,
}

/// What comes to a base shard: a write, a request of a stage shard, or a marker of a fence.
#[derive(Drop)]
pub enum ToBase {
    Write(Write),
    Request { stage: usize, request: Request },
    Marker(Marker),
}
