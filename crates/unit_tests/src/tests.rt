//! The tests.
mod cells;
mod cuts;
mod gaps;
mod inboxes;
mod indexes;
mod keys;
mod packets;
mod plans;
mod rows;
mod sessions;
mod shards;
mod texts;
mod threads;
