//! What a stage domain puts out.
ghost use Rattle.std.specs.Prelude.{◌≡◌, ◌==◌, ◌<◌, ◌++◌, [], true, length, map, slice_index_or, slice_set, IfOk, OnOk};
ghost use Rattle.packet.specs.Outboxes.{no_edge, packets_on, with_one};
ghost use Rattle.protocol.specs.StageSteps.{append_each};
ghost use Rattle.stage_steps.specs.{Told.perhaps, Outboxes.IsSilent};

use model::fronts::Fronts;
use packet::edges::Edges;
use packet::request::Request;
use packet::stage_packet::StagePacket;
use std::alloc::{AllocError, Global};
use std::marker::Model;

/// All that one message makes a stage domain put out: for each view shard its packets, and for each
/// source the requests to it, in order.
#[derive(Drop)]
pub struct StageOutbox<F: Fronts> {
    packets: Edges<StagePacket<F>>,
    requests: Edges<Request>,
}

impl<F: Fronts> Model for StageOutbox<F> {
    ghost use Rattle.stage_steps.specs.Outboxes.{OutboxView};

    ghost Value = { OutboxView };

    ghost view = { λ o. record { packets = o.packets; requests = o.requests } };
}

impl<F: Fronts> StageOutbox<F> {
    /// An outbox with an edge to each of `readers` view shards and of `sources` sources, and
    /// nothing in it. Errors: memory only.
    pub fn new(alloc: Global, readers: usize, sources: usize) -> Result<StageOutbox<F>, AllocError>
        ensures clear { IfOk result (λ o. IsSilent o) }
        ensures readers { IfOk result (λ o. length o.packets ≡ readers) }
        ensures sources { IfOk result (λ o. length o.requests ≡ sources) }
    {
        Ok(StageOutbox {
            packets: Edges::new(alloc, readers)?,
            requests: Edges::new(alloc, sources)?,
        })
    }

    /// How many view shards there are.
    pub fn readers(&self) -> usize
        ensures { result ≡ length self.now.packets }
    {
        self.packets.count()
    }

    /// How many sources there are.
    pub fn sources(&self) -> usize
        ensures { result ≡ length self.now.requests }
    {
        self.requests.count()
    }

    /// Whether the first packet to a view shard carries rows that come or go.
    pub fn has_changes(&self, reader: usize) -> bool {
        match self.packets.first(reader) {
            Some(packet) => packet.has_changes(),
            None => false,
        }
    }

    /// Whether there is no packet to a view shard, as `Edges::is_clear`.
    pub fn has_no_packets(&self, reader: usize) -> bool
        ensures clear { result
            ≡ (length (slice_index_or self.now.packets reader no_edge).packets == 0) }
        ensures same { result ≡ true
            → packets_on self.now.packets ≡ slice_set (packets_on self.now.packets) reader [] }
    {
        self.packets.is_clear(reader)
    }

    /// Whether there is no request to a source, as `Edges::is_clear`.
    pub fn has_no_requests(&self, source: usize) -> bool
        ensures clear { result
            ≡ (length (slice_index_or self.now.requests source no_edge).packets == 0) }
        ensures same { result ≡ true
            → packets_on self.now.requests ≡ slice_set (packets_on self.now.requests) source [] }
    {
        self.requests.is_clear(source)
    }

    /// The packets to a view shard, in order, moved out of it. It takes no memory.
    pub fn take_packets(&mut self, alloc: Global, reader: usize) -> Vec<StagePacket<F>>
        requires { reader < length self.old.packets }
        ensures packets { result.items ≡ (slice_index_or self.old.packets reader no_edge).packets }
        ensures rest { packets_on self.new.packets
            ≡ slice_set (packets_on self.old.packets) reader [] }
        ensures others { self.new ≡ record self.old { packets = self.new.packets } }
    {
        self.packets.take(alloc, reader)
    }

    /// Keeps the room of a list that `take_packets` gave and that has nothing left, as
    /// `Edges::keep_room` does. It takes no memory.
    pub fn keep_room(&mut self, reader: usize, room: Vec<StagePacket<F>>)
        requires { reader < length self.old.packets }
        ensures packets { packets_on self.new.packets ≡ packets_on self.old.packets }
        ensures others { self.new ≡ record self.old { packets = self.new.packets } }
    {
        self.packets.keep_room(reader, room);
    }

    /// The requests to a source, in order, moved out of it. It takes no memory.
    pub fn take_requests(&mut self, alloc: Global, source: usize) -> Vec<Request>
        requires { source < length self.old.requests }
        ensures requests { result.items
            ≡ (slice_index_or self.old.requests source no_edge).packets }
        ensures rest { packets_on self.new.requests
            ≡ slice_set (packets_on self.old.requests) source [] }
        ensures others { self.new ≡ record self.old { requests = self.new.requests } }
    {
        self.requests.take(alloc, source)
    }

    /// Keeps the room of a list that `take_requests` gave and that has nothing left, as
    /// `Edges::keep_room` does. It takes no memory.
    pub fn keep_request_room(&mut self, source: usize, room: Vec<Request>)
        requires { source < length self.old.requests }
        ensures requests { packets_on self.new.requests ≡ packets_on self.old.requests }
        ensures others { self.new ≡ record self.old { requests = self.new.requests } }
    {
        self.requests.keep_room(source, room);
    }

    /// Drops all that is put out. It takes no memory.
    pub fn clear(&mut self)
        ensures silent { IsSilent self.new }
        ensures readers { length self.new.packets ≡ length self.old.packets }
        ensures sources { length self.new.requests ≡ length self.old.requests }
    {
        self.packets.clear();
        self.requests.clear();
    }

    /// Puts to each view shard the packet of its place, if there is one, behind what is there.
    /// Errors: memory only; then some are put.
    pub(crate) fn tell(&mut self, packets: Vec<Option<StagePacket<F>>>) -> Result<(), AllocError>
        requires { length packets.items ≡ length self.old.packets }
        ensures told { OnOk result (packets_on self.new.packets
            ≡ append_each (packets_on self.old.packets) (map perhaps packets.items)) }
        ensures readers { length self.new.packets ≡ length self.old.packets }
        ensures requests { self.new.requests ≡ self.old.requests }
    {
        let mut reader = 0;
        for packet in packets {
            self.tell_one(reader, packet)?;
            reader += 1;
        }
        Ok(())
    }

    /// Puts a packet to a view shard, if there is one, behind what is there. Errors: memory only.
    pub(crate) fn tell_one(
        &mut self,
        reader: usize,
        packet: Option<StagePacket<F>>,
    ) -> Result<(), AllocError>
        requires { reader < length self.old.packets }
        ensures told { OnOk result (packets_on self.new.packets ≡ slice_set
            (packets_on self.old.packets) reader
            (slice_index_or (packets_on self.old.packets) reader [] ++ perhaps packet)) }
        ensures readers { length self.new.packets ≡ length self.old.packets }
        ensures requests { self.new.requests ≡ self.old.requests }
    {
        match packet {
            Some(packet) => self.packets.append(reader, packet).map_err(|_| AllocError),
            None => Ok(()),
        }
    }

    /// Asks a source, behind what it is asked for already. Errors: memory only.
    pub(crate) fn ask(&mut self, source: usize, request: Request) -> Result<(), AllocError>
        requires { source < length self.old.requests }
        ensures asked { OnOk result (packets_on self.new.requests
            ≡ with_one source request (packets_on self.old.requests)) }
        ensures sources { length self.new.requests ≡ length self.old.requests }
        ensures packets { self.new.packets ≡ self.old.packets }
    {
        self.requests
            .append(source, request)
            .map_err(|_| AllocError)
    }

    /// The packets to each view shard and the requests to each source, moved out of it. It takes no
    /// memory.
    pub fn into_parts(self) -> (Edges<StagePacket<F>>, Edges<Request>)
        ensures packets { result.0 ≡ self.packets }
        ensures requests { result.1 ≡ self.requests }
    {
        (self.packets, self.requests)
    }
}
