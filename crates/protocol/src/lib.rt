//! The protocol as functions that compute: what each domain does with a message, and every
//! schedule of them. Each function here is a law: it does nothing, and its contract says what
//! holds of the definitions.
#![tactic(auto)]

ghost use Rattle.protocol.specs.{Laws.EveryEdge, Laws.EveryPlace, Laws.EveryTurn, Laws.EveryBasePacket, Laws.EveryEviction, Laws.StageCap, Laws.ViewCap, Laws.AreCounted, Theorem.EverySchedule};

/// For every plan and every schedule the replies tell of a legal history.
pub fn every_schedule()
    ensures legal { EverySchedule }
{}

/// The edges on which messages lie, by the places of their ends, are the plan's, in its order; and
/// where a source or a view shard is found, it stands.
pub fn every_edge()
    ensures wires { EveryEdge }
    ensures places { EveryPlace }
{}

/// For every plan and every schedule, between any two deliveries, the first packet on each edge to
/// a domain that runs starts at the front that the domain holds: none is out of turn.
pub fn every_turn()
    ensures next { EveryTurn }
{}

/// Each packet that a base shard puts out is true, where each entry of its log is lawful.
pub fn every_base_packet()
    ensures truth { EveryBasePacket }
{}

/// The keys that a packet evicts for left rows are in the order of values, each once: those of the
/// view shard's keys that one of the rows has.
pub fn every_eviction()
    ensures keys { EveryEviction }
{}

/// After each message a stage shard with no request that waits has no more filled right keys than
/// its cap; a view shard that has no more filled keys than its cap stays so.
pub fn every_cap()
    ensures stage { StageCap }
    ensures view { ViewCap }
{}

/// A view shard counts each request that it sends, up to the greatest number of 64 bits, where its
/// count is no more than that, and a packet is of a stage shard of the plan.
pub fn every_request()
    ensures counted { AreCounted }
{}
