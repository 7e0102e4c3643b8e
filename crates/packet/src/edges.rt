//! What is put out on edges.
ghost use Rattle.std.specs.Prelude.{◌≡◌, ◌==◌, ◌<◌, [], ◌∷◌, true, map, length, slice_get, slice_index_or, slice_set, IfOk, OnOk, OnErr, IsOkUnless};
ghost use Rattle.std.specs.Option.{option_map};
ghost use Rattle.packet.specs.{Messages.none_of, Messages.to_one, Outboxes.HaveRoom, Outboxes.no_edge, Outboxes.packets_on, Outboxes.with_one, Outboxes.with_packet, Outboxes.with_packet_on};

use row::refused::Refused;
use std::alloc::{AllocError, Global};
use std::marker::Model;
use std::mem;

/// For how many an edge with nothing on it keeps room.
const KEPT: usize = 8;

/// What goes on one edge, in the order in which it goes.
#[derive(Drop)]
struct Edge<P: Drop> {
    packets: Vec<P>,
}

impl<P: Drop> Model for Edge<P> {
    ghost use Rattle.std.specs.Prelude.{◌-◌};
    ghost use Rattle.std.specs.Vec.{vec_len, vec_capacity};
    ghost use Rattle.packet.specs.Outboxes.{EdgeView, edge_with};

    ghost Value = { EdgeView P };

    ghost view = { λ e. edge_with e.packets.items (vec_capacity e.packets - vec_len e.packets) };
}

impl<P: Drop> Edge<P> {
    /// Nothing, and room for nothing.
    fn new(alloc: Global) -> Edge<P>
        ensures { result.packets ≡ [] }
    {
        Edge {
            packets: Vec::new(alloc),
        }
    }

    /// Room for one more: for just one where there is nothing on it, as most messages put out one.
    fn reserve(&mut self) -> Result<(), Refused>
        ensures only { IsOkUnless result Refused.NoMemory }
        ensures room { OnOk result (0 < self.new.room) }
        ensures rest { self.new ≡ record self.old { room = self.new.room } }
    {
        let reserved = if self.packets.is_empty() {
            self.packets.reserve_exact(1)
        } else {
            self.packets.reserve(1)
        };
        reserved.map_err(|_| Refused::NoMemory)
    }

    /// Puts it behind the others, in room that is there.
    fn push(&mut self, packet: P)
        requires { 0 < self.old.room }
        ensures { self.new ≡ with_packet packet self.old }
    {
        self.packets.push_reserved(packet);
    }

    /// Puts these on it in place of what is there.
    fn fill(&mut self, packets: Vec<P>)
        ensures { self.new.packets ≡ packets.items }
    {
        self.packets = packets;
    }

    /// Drops what is on it.
    fn clear(&mut self)
        ensures { self.new.packets ≡ [] }
    {
        self.packets.clear();
    }

    /// All that is on it, moved out of it.
    fn take(&mut self, alloc: Global) -> Vec<P>
        ensures packets { result.items ≡ self.old.packets }
        ensures rest { self.new.packets ≡ [] }
    {
        mem::replace(&mut self.packets, Vec::new(alloc))
    }

    /// Keeps the room of an empty list, where nothing is on it.
    fn keep_room(&mut self, room: Vec<P>)
        ensures { self.new.packets ≡ self.old.packets }
    {
        if self.packets.is_empty() && room.is_empty() && room.capacity() <= KEPT {
            self.packets = room;
        }
    }
}

/// What one message makes a domain put out on each of its edges of a kind, in order.
#[derive(Drop)]
pub struct Edges<P: Drop> {
    edges: Vec<Edge<P>>,
}

impl<P: Drop> Model for Edges<P> {
    ghost use Rattle.std.specs.Prelude.{List};
    ghost use Rattle.packet.specs.Outboxes.{EdgeView};

    ghost Value = { List (EdgeView P) };

    ghost view = { λ o. o.edges.items };
}

impl<P: Drop> Edges<P> {
    /// So many edges with nothing on them. Errors: memory only.
    pub fn new(alloc: Global, count: usize) -> Result<Edges<P>, AllocError>
        ensures clear { IfOk result (λ o. packets_on o ≡ none_of o) }
        ensures count { IfOk result (λ o. length o ≡ count) }
    {
        let mut edges = Vec::new(alloc);
        for _ in 0..count {
            edges.push(Edge::new(alloc))?;
        }
        Ok(Edges { edges })
    }

    /// How many edges there are.
    pub fn count(&self) -> usize
        ensures { result ≡ length self.now }
    {
        self.edges.len()
    }

    /// What is first on an edge; `None` where nothing is, or there is no such edge.
    pub fn first(&self, edge: usize) -> Option<&P>
        ensures { option_map (λ p. p.now) result
            ≡ slice_get (slice_index_or self.now edge no_edge).packets 0 }
    {
        match self.edges.get(edge) {
            Some(edge) => edge.packets.first(),
            None => None,
        }
    }

    /// Whether nothing is on an edge, or there is no such edge. Constant time.
    pub fn is_clear(&self, edge: usize) -> bool
        ensures clear { result ≡ (length (slice_index_or self.now edge no_edge).packets == 0) }
        ensures same { result ≡ true
            → packets_on self.now ≡ slice_set (packets_on self.now) edge [] }
    {
        match self.edges.get(edge) {
            Some(edge) => edge.packets.is_empty(),
            None => true,
        }
    }

    /// Room for one more on each edge, so that `push` takes no memory. `NoMemory` leaves what is on
    /// the edges as it was, and so does success.
    pub fn reserve(&mut self) -> Result<(), Refused>
        ensures only { IsOkUnless result Refused.NoMemory }
        ensures room { OnOk result (HaveRoom self.new) }
        ensures packets { packets_on self.new ≡ packets_on self.old }
    {
        for at in 0..self.edges.len() {
            self.edges[at].reserve()?;
        }
        Ok(())
    }

    /// Puts it behind the others on an edge, in room that is there.
    fn push(&mut self, edge: usize, packet: P)
        requires edge { edge < length self.old }
        requires room { 0 < (slice_index_or self.old edge no_edge).room }
        ensures { self.new ≡ with_packet_on edge packet self.old }
    {
        self.edges[edge].push(packet);
    }

    /// Puts a packet behind the others on an edge. `NoMemory` leaves what is on the edges.
    pub fn append(&mut self, edge: usize, packet: P) -> Result<(), Refused>
        requires edge { edge < length self.old }
        ensures only { IsOkUnless result Refused.NoMemory }
        ensures packets { OnOk result (packets_on self.new
            ≡ with_one edge packet (packets_on self.old)) }
        ensures err { OnErr result (packets_on self.new ≡ packets_on self.old) }
        ensures edges { length self.new ≡ length self.old }
    {
        self.edges[edge].reserve()?;
        self.push(edge, packet);
        Ok(())
    }

    /// Drops all that is on the edges. It takes no memory.
    pub fn clear(&mut self)
        ensures packets { packets_on self.new ≡ none_of self.new }
        ensures edges { length self.new ≡ length self.old }
    {
        for edge in 0..self.edges.len() {
            self.edges[edge].clear();
        }
    }

    /// Puts a packet on one edge, and nothing on the others. `NoMemory` leaves all edges clear.
    pub fn send_to_one(&mut self, edge: usize, packet: P) -> Result<(), Refused>
        requires clear { packets_on self.old ≡ none_of self.old }
        requires edge { edge < length self.old }
        ensures only { IsOkUnless result Refused.NoMemory }
        ensures sent { OnOk result (packets_on self.new
            ≡ to_one (length self.old) edge (packet ∷ [])) }
        ensures unsent { OnErr result (packets_on self.new ≡ none_of self.new) }
        ensures edges { length self.new ≡ length self.old }
    {
        self.reserve()?;
        self.push(edge, packet);
        Ok(())
    }

    /// Puts these packets on one edge, in order, and nothing on the others. It takes no memory.
    pub fn send_all_to_one(&mut self, edge: usize, packets: Vec<P>)
        requires clear { packets_on self.old ≡ none_of self.old }
        requires edge { edge < length self.old }
        ensures sent { packets_on self.new ≡ to_one (length self.old) edge packets.items }
        ensures edges { length self.new ≡ length self.old }
    {
        self.edges[edge].fill(packets);
    }

    /// Puts each packet on the edge of its place, in room that is there. It takes no memory.
    pub fn send_to_each(&mut self, packets: Vec<P>)
        requires clear { packets_on self.old ≡ none_of self.old }
        requires room { HaveRoom self.old }
        requires count { length packets.items ≡ length self.old }
        ensures sent { packets_on self.new ≡ map (λ k. k ∷ []) packets.items }
        ensures edges { length self.new ≡ length self.old }
    {
        let mut edge = 0;
        for packet in packets {
            self.push(edge, packet);
            edge += 1;
        }
    }

    /// All that is on an edge, in order, moved out of it; nothing is left. It takes no memory.
    pub fn take(&mut self, alloc: Global, edge: usize) -> Vec<P>
        requires { edge < length self.old }
        ensures packets { result.items ≡ (slice_index_or self.old edge no_edge).packets }
        ensures rest { packets_on self.new ≡ slice_set (packets_on self.old) edge [] }
    {
        self.edges[edge].take(alloc)
    }

    /// Gives an edge the room of a list that was taken from it and has nothing left; a list with room
    /// for more than eight is dropped. So edges that are filled and emptied in turn soon take no more
    /// memory. What is on the edges stays. It takes no memory.
    pub fn keep_room(&mut self, edge: usize, room: Vec<P>)
        requires { edge < length self.old }
        ensures packets { packets_on self.new ≡ packets_on self.old }
    {
        self.edges[edge].keep_room(room);
    }
}
