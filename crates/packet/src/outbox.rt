//! What a base domain puts out.
ghost use Rattle.std.specs.Prelude.{◌≡◌, ◌==◌, ◌<◌, [], ◌∷◌, true, None, Some, map, length, slice_index_or, slice_set, IfOk, OnOk, OnErr, IsOkUnless};
ghost use Rattle.packet.specs.{Messages.none_of, Messages.to_one, Outboxes.IsClear, Outboxes.HaveRoom, Outboxes.no_edge, Outboxes.packets_on};

use crate::answer::Answer;
use crate::base_packet::BasePacket;
use crate::edges::Edges;
use model::fronts::Fronts;
use row::refused::Refused;
use std::alloc::{AllocError, Global};
use std::marker::Model;

/// All that one message makes a base domain put out: for each stage shard its packets in order, and
/// one place for the reply to a write, which takes no memory.
#[derive(Drop)]
pub struct Outbox<F: Fronts> {
    edges: Edges<BasePacket<F>>,
    reply: Option<Answer<F>>,
}

impl<F: Fronts> Model for Outbox<F> {
    ghost use Rattle.packet.specs.Outboxes.{OutboxView};

    ghost Value = { OutboxView F };

    ghost view = { λ o. record { edges = o.edges; reply = o.reply } };
}

impl<F: Fronts> Outbox<F> {
    /// An empty outbox with an edge to each of `stages` stage shards. Errors: memory only.
    pub fn new(alloc: Global, stages: usize) -> Result<Outbox<F>, AllocError>
        ensures clear { IfOk result (λ o. IsClear o) }
        ensures edges { IfOk result (λ o. length o.edges ≡ stages) }
    {
        let edges = Edges::new(alloc, stages)?;
        Ok(Outbox { edges, reply: None })
    }

    /// How many stage shards there are.
    pub fn stages(&self) -> usize
        ensures { result ≡ length self.now.edges }
    {
        self.edges.count()
    }

    /// Room for one packet more on each edge, so that `push` takes no memory. `NoMemory` leaves the
    /// packets and the reply as they were, and so does success.
    pub fn reserve(&mut self) -> Result<(), Refused>
        ensures only { IsOkUnless result Refused.NoMemory }
        ensures room { OnOk result (HaveRoom self.new.edges) }
        ensures packets { packets_on self.new.edges ≡ packets_on self.old.edges }
        ensures reply { self.new.reply ≡ self.old.reply }
    {
        self.edges.reserve()
    }

    /// Puts a packet on the edge to one stage shard alone. `NoMemory` leaves all edges clear.
    pub fn send_to_one(&mut self, stage: usize, packet: BasePacket<F>) -> Result<(), Refused>
        requires clear { packets_on self.old.edges ≡ none_of self.old.edges }
        requires stage { stage < length self.old.edges }
        ensures only { IsOkUnless result Refused.NoMemory }
        ensures sent { OnOk result (packets_on self.new.edges
            ≡ to_one (length self.old.edges) stage (packet ∷ [])) }
        ensures unsent { OnErr result (packets_on self.new.edges ≡ none_of self.new.edges) }
        ensures edges { length self.new.edges ≡ length self.old.edges }
        ensures reply { self.new.reply ≡ self.old.reply }
    {
        self.edges.send_to_one(stage, packet)
    }

    /// Puts each packet on the edge to its stage shard, in room that is there. It takes no memory.
    pub fn send_to_each(&mut self, packets: Vec<BasePacket<F>>)
        requires clear { packets_on self.old.edges ≡ none_of self.old.edges }
        requires room { HaveRoom self.old.edges }
        requires count { length packets.items ≡ length self.old.edges }
        ensures sent { packets_on self.new.edges ≡ map (λ k. k ∷ []) packets.items }
        ensures edges { length self.new.edges ≡ length self.old.edges }
        ensures reply { self.new.reply ≡ self.old.reply }
    {
        self.edges.send_to_each(packets);
    }

    /// Whether the first packet to a stage shard carries rows that come or go.
    pub fn has_changes(&self, stage: usize) -> bool {
        match self.edges.first(stage) {
            Some(packet) => packet.has_changes(),
            None => false,
        }
    }

    /// Whether there is no packet to a stage shard, as `Edges::is_clear`.
    pub fn is_clear(&self, stage: usize) -> bool
        ensures clear { result
            ≡ (length (slice_index_or self.now.edges stage no_edge).packets == 0) }
        ensures same { result ≡ true
            → packets_on self.now.edges ≡ slice_set (packets_on self.now.edges) stage [] }
    {
        self.edges.is_clear(stage)
    }

    /// All packets to a stage shard, in order, moved out of the outbox. It takes no memory.
    pub fn take(&mut self, alloc: Global, stage: usize) -> Vec<BasePacket<F>>
        requires { stage < length self.old.edges }
        ensures packets { result.items ≡ (slice_index_or self.old.edges stage no_edge).packets }
        ensures rest { packets_on self.new.edges ≡ slice_set (packets_on self.old.edges) stage [] }
        ensures reply { self.new.reply ≡ self.old.reply }
    {
        self.edges.take(alloc, stage)
    }

    /// Keeps the room of a list that `take` gave and that has nothing left, as `Edges::keep_room`
    /// does. It takes no memory.
    pub fn keep_room(&mut self, stage: usize, room: Vec<BasePacket<F>>)
        requires { stage < length self.old.edges }
        ensures packets { packets_on self.new.edges ≡ packets_on self.old.edges }
        ensures reply { self.new.reply ≡ self.old.reply }
    {
        self.edges.keep_room(stage, room);
    }

    /// The packets to each stage shard, and the reply, moved out of it. It takes no memory.
    pub fn into_parts(self) -> (Edges<BasePacket<F>>, Option<Answer<F>>)
        ensures edges { result.0 ≡ self.edges }
        ensures reply { result.1 ≡ self.reply }
    {
        (self.edges, self.reply)
    }

    /// The reply, in its place; one that was there is dropped. It takes no memory.
    pub fn set_reply(&mut self, answer: Answer<F>)
        ensures { self.new ≡ record self.old { reply = Some answer } }
    {
        self.reply = Some(answer);
    }

    /// The reply, if there is one, moved out of its place. It takes no memory.
    pub fn take_reply(&mut self) -> Option<Answer<F>>
        ensures reply { result ≡ self.old.reply }
        ensures rest { self.new ≡ record self.old { reply = None } }
    {
        self.reply.take()
    }
}
