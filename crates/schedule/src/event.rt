//! Events of a schedule, and their replies.
use model::entry::Entry;
use model::lengths::Lengths;
use plan::domain::{DomainId, Edge};
use row::refused::Refused;
use row::row::Row;
use row::value::Value;

/// An event: a call of a session, the delivery of the first message of an edge, an order to evict
/// a stage key or a key of a view, a stop of a domain, or deliveries until all edges are empty.
/// Tables and views stand by their names; an edge or a domain is what its text names, if it names
/// one.
#[derive(Drop)]
pub enum Event {
    Write {
        session: usize,
        table: String,
        entry: Entry,
    },
    Try {
        session: usize,
        view: String,
        key: Value,
    },
    Want {
        session: usize,
        view: String,
        key: Value,
    },
    Fence {
        session: usize,
    },
    Count {
        session: usize,
        view: String,
    },
    Deliver {
        edge: Option<Edge>,
    },
    EvictStage {
        key: Value,
    },
    EvictView {
        view: String,
        key: Value,
    },
    Stop {
        domain: Option<DomainId>,
    },
    Settle,
}

/// The reply to an event. The sessions that are listed are those whose fences have ended, in order.
#[derive(Drop)]
pub enum Reply {
    Accepted {
        table: usize,
        shard: usize,
        index: u64,
    },
    Refused(Refused),
    Hit {
        rows: Vec<Row>,
        cut: Lengths,
    },
    Miss,
    Wanted,
    FenceSent,
    Asked(u64),
    Delivered,
    Idle,
    Fenced(usize),
    Evicted,
    Stopped,
    Settled(Vec<usize>),
    Unsettled(Vec<usize>),
}
