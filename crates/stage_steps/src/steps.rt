//! The step of a stage shard: what it makes of a packet, a request or an order, and the stage keys
//! that go.
ghost use Rattle.std.specs.Prelude.{◌≡◌, ◌<◌, ◌∷◌, ◌==◌, ◌&&◌, [], OnOk, Some, length, map, not, slice_get};
ghost use Rattle.row.specs.{Cells.datum_of};
ghost use Rattle.model.specs.Places.{sources};
ghost use Rattle.packet.specs.{Codes.mark_of, Lines.entries_of, Messages.Piece as PieceView, Outboxes.packets_on, Readers.is_left, Readers.readers, Readers.right_tag};
ghost use Rattle.protocol.specs.{Stages.Done, StageSteps.append_each, StageSteps.caps, StageSteps.looks, StageSteps.marker_taken, StageSteps.next, StageSteps.oldest_goes, StageSteps.order_taken, StageSteps.packet_taken, StageSteps.piece_taken, StageSteps.quiet, StageSteps.step, StageSteps.takes};
ghost use Rattle.stage_steps.specs.{Codes.message_of, Outboxes.AreEdges, Outboxes.IsSilent, Outboxes.OutboxView, Shards.IsFrom, Shards.IsPut, Shards.IsSame, Shards.IsShard, Shards.IsWhole, Shards.Meets, Shards.gone_to, Shards.has_no_entry, Shards.stage_of, Told.told};

use crate::entries::right_source;
use crate::message::ToStage;
use crate::outbox::StageOutbox;
use crate::packets::{News, packets};
use crate::shard::StageShard;
use model::fronts::Fronts;
use packet::base_packet::BasePacket;
use packet::request::Marker;
use plan::domain::Tag;
use plan::plan::Plan;
use row::value::Value;
use std::alloc::{AllocError, Global};

impl<'p, F: Fronts> StageShard<'p, F> {
    /// Takes a message, looks at the requests that wait, and keeps to the cap. A packet starts at
    /// the front that the line has of its source. Errors: memory only; then nothing is said of the
    /// shard, and some of what it puts out may be put. Cost: that of what the message is, of `look`
    /// where the message may end the wait of a request, and of `keep_cap`.
    pub fn step(
        &mut self,
        alloc: Global,
        message: ToStage<F>,
        out: &mut StageOutbox<F>,
    ) -> Result<(), AllocError>
        requires whole { IsShard self.old }
        requires edges { AreEdges self.old.plan out.old }
        requires silent { IsSilent out.old }
        requires meets { Meets self.old (message_of message) }
        ensures whole { OnOk result (IsShard self.new) }
        ensures edges { AreEdges self.old.plan out.new }
        ensures same { IsSame self.old self.new }
        ensures done { OnOk result (IsPut (step (stage_of self.old) (message_of message))
            out.new self.new) }
    {
        self.take(alloc, message, out)?;
        self.keep_cap(alloc, out)
    }

    /// Takes a message, and looks at the requests that wait where it may end the wait of one: a
    /// further request makes none of those before it ready.
    fn take(
        &mut self,
        alloc: Global,
        message: ToStage<F>,
        out: &mut StageOutbox<F>,
    ) -> Result<(), AllocError>
        requires whole { IsShard self.old }
        requires edges { AreEdges self.old.plan out.old }
        requires silent { IsSilent out.old }
        requires meets { Meets self.old (message_of message) }
        ensures whole { OnOk result (IsWhole self.new) }
        ensures edges { AreEdges self.old.plan out.new }
        ensures same { IsSame self.old self.new }
        ensures done { (d : Done) → IsPut d out.old self.old → OnOk result (IsPut
            (next (next d (λ s. takes s (message_of message))) looks) out.new self.new) }
    {
        match message {
            ToStage::Packet { source, packet } => self.take_and_look(alloc, source, packet, out),
            ToStage::Request(ask) => self.look_at(alloc, ask, out),
            ToStage::Order(key) => self.evict_and_look(alloc, &key, out),
        }
    }

    /// Takes a packet, and looks at the requests that wait. One that brings no entry makes no stage
    /// key a hole, and ends no wait unless it fills one.
    fn take_and_look(
        &mut self,
        alloc: Global,
        source: usize,
        packet: BasePacket<F>,
        out: &mut StageOutbox<F>,
    ) -> Result<(), AllocError>
        requires whole { IsShard self.old }
        requires edges { AreEdges self.old.plan out.old }
        requires silent { IsSilent out.old }
        requires from { IsFrom self.old.plan self.old.shard source packet }
        requires next { slice_get (entries_of self.old.line) source ≡ Some packet.from }
        ensures whole { OnOk result (IsWhole self.new) }
        ensures edges { AreEdges self.old.plan out.new }
        ensures same { IsSame self.old self.new }
        ensures done { (d : Done) → IsPut d out.old self.old → OnOk result (IsPut (next (next d
            (λ s. packet_taken s source packet packet.piece packet.marker)) looks)
            out.new self.new) }
    {
        let has_no_entry = brings_no_entry(&packet);
        let filled = self.rows.filled();
        self.take_packet(alloc, source, packet, out)?;
        if !has_no_entry {
            return self.look(alloc, out);
        }
        if self.rows.filled() == filled {
            return Ok(());
        }
        self.answer_ready(alloc, out)
    }

    /// Makes a filled stage key a hole, as `evict` does, and looks at the requests that wait.
    fn evict_and_look(
        &mut self,
        alloc: Global,
        key: &Value,
        out: &mut StageOutbox<F>,
    ) -> Result<(), AllocError>
        requires whole { IsShard self.old }
        requires edges { AreEdges self.old.plan out.old }
        ensures whole { OnOk result (IsWhole self.new) }
        ensures edges { AreEdges self.old.plan out.new }
        ensures same { IsSame self.old self.new }
        ensures done { (d : Done) → IsPut d out.old self.old → OnOk result (IsPut (next (next d
            (λ s. order_taken s s.right (datum_of key.now))) looks) out.new self.new) }
    {
        self.evict(alloc, key, out)?;
        self.look(alloc, out)
    }

    /// Takes a packet, by what it carries.
    fn take_packet(
        &mut self,
        alloc: Global,
        source: usize,
        packet: BasePacket<F>,
        out: &mut StageOutbox<F>,
    ) -> Result<(), AllocError>
        requires whole { IsWhole self.old }
        requires edges { AreEdges self.old.plan out.old }
        requires from { IsFrom self.old.plan self.old.shard source packet }
        requires next { slice_get (entries_of self.old.line) source ≡ Some packet.from }
        ensures whole { OnOk result (IsWhole self.new) }
        ensures edges { AreEdges self.old.plan out.new }
        ensures same { IsSame self.old self.new }
        ensures done { (d : Done) → IsPut d out.old self.old → OnOk result (IsPut (next d
            (λ s. packet_taken s source packet packet.piece packet.marker)) out.new self.new) }
    {
        if packet.piece().is_some() {
            return self.take_piece(alloc, source, packet);
        }
        match packet.marker() {
            Some(marker) => self.take_marker(alloc, source, marker, out),
            None => self.take_entry(alloc, source, packet, out),
        }
    }

    /// Takes a marker of a source, and sends it on to each view shard once it has come from all.
    /// Errors: memory only; then nothing is said of the markers, and some are told. Cost: a look at
    /// each marker that waits, and for one that is sent on a copy of the line for each view shard.
    fn take_marker(
        &mut self,
        alloc: Global,
        source: usize,
        marker: Marker,
        out: &mut StageOutbox<F>,
    ) -> Result<(), AllocError>
        requires whole { IsWhole self.old }
        requires edges { AreEdges self.old.plan out.old }
        requires source { source < length (sources self.old.plan) }
        ensures whole { OnOk result (IsWhole self.new) }
        ensures edges { AreEdges self.old.plan out.new }
        ensures same { IsSame self.old self.new }
        ensures done { (d : Done) → IsPut d out.old self.old → OnOk result (IsPut
            (next d (λ s. marker_taken s source (mark_of marker))) out.new self.new) }
    {
        match self.marks.come(alloc, source, marker)? {
            None => Ok(()),
            Some(marker) => self.tell_marker(alloc, marker, out),
        }
    }

    /// Sends a marker to each view shard.
    fn tell_marker(
        &self,
        alloc: Global,
        marker: Marker,
        out: &mut StageOutbox<F>,
    ) -> Result<(), AllocError>
        requires whole { IsWhole self.now }
        requires edges { AreEdges self.now.plan out.old }
        ensures edges { AreEdges self.now.plan out.new }
        ensures requests { out.new.requests ≡ out.old.requests }
        ensures told { OnOk result (packets_on out.new.packets ≡ append_each
            (packets_on out.old.packets) (map (λ r. told self.now.plan self.now.shard
            (entries_of self.now.line) (entries_of self.now.line) [] [] (Some (mark_of marker)) r
            ∷ []) (readers self.now.plan))) }
    {
        let news = News {
            plan: self.plan,
            stage: self.shard,
            from: &self.line,
            to: &self.line,
            records: &[],
            names: &[],
            marker: Some(marker),
        };
        out.tell(packets(alloc, &news, true)?)
    }

    /// Takes the packet of a piece, which starts at the front that the line has of its source: the
    /// rows that a right source has of a stage key that waits for them; with the last of them the
    /// key is filled, behind all that are. A piece of a left source, by a tag of a view, of a key
    /// that does not wait or that has the source's piece changes nothing. It puts out nothing.
    /// Errors: memory only; then nothing is said of the shard. Cost: that of
    /// `StageRows::give`.
    fn take_piece(
        &mut self,
        alloc: Global,
        source: usize,
        packet: BasePacket<F>,
    ) -> Result<(), AllocError>
        requires whole { IsWhole self.old }
        requires from { IsFrom self.old.plan self.old.shard source packet }
        requires next { slice_get (entries_of self.old.line) source ≡ Some packet.from }
        ensures whole { OnOk result (IsWhole self.new) }
        ensures same { IsSame self.old self.new }
        ensures done { (d : Done) (out : OutboxView) (piece : PieceView)
            → packet.piece ≡ Some piece → AreEdges self.old.plan out → IsPut d out self.old
            → OnOk result (IsPut (next d (λ s. quiet (record s {
              right = piece_taken s source piece;
            }))) out self.new) }
    {
        self.plan.keeps_profile();
        let (_front, _changes, piece) = packet.into_parts();
        let Some(piece) = piece else {
            return Ok(());
        };
        if !is_of_right_side(self.plan, source, piece.tag()) {
            return Ok(());
        }
        let (key, rows) = piece.into_parts();
        let own = right_source(self.plan, source);
        self.rows.give(alloc, own, &key, rows)?;
        Ok(())
    }

    /// Makes a filled stage key a hole, and tells each view shard of its keys that have left rows
    /// of it; any other key stays, and nobody is told. Errors: memory only; then nothing is said of
    /// the shard, and some are told. Cost: that of `tell_gone` where the key was filled, else a
    /// look-up by hash.
    fn evict(
        &mut self,
        alloc: Global,
        key: &Value,
        out: &mut StageOutbox<F>,
    ) -> Result<(), AllocError>
        requires whole { IsWhole self.old }
        requires edges { AreEdges self.old.plan out.old }
        ensures whole { OnOk result (IsWhole self.new) }
        ensures edges { AreEdges self.old.plan out.new }
        ensures same { IsSame self.old self.new }
        ensures done { (d : Done) → IsPut d out.old self.old → OnOk result (IsPut
            (next d (λ s. order_taken s s.right (datum_of key.now))) out.new self.new) }
    {
        self.rows.keeps_order();
        if self.rows.open(key) {
            self.tell_gone(alloc, key, out)?;
        }
        Ok(())
    }

    /// While no request waits, makes stage keys holes until the filled ones are no more than the
    /// cap, those first that were filled first, and tells each view shard of its keys that have
    /// left rows of them. Errors: memory only; then nothing is said of the shard, and some are
    /// told. Cost: that of `tell_gone` for each key that goes.
    fn keep_cap(&mut self, alloc: Global, out: &mut StageOutbox<F>) -> Result<(), AllocError>
        requires whole { IsWhole self.old }
        requires edges { AreEdges self.old.plan out.old }
        ensures whole { OnOk result (IsWhole self.new) }
        ensures edges { AreEdges self.old.plan out.new }
        ensures same { IsSame self.old self.new }
        ensures done { (d : Done) → IsPut d out.old self.old
            → OnOk result (IsPut (next d caps) out.new self.new) }
    {
        if !self.pending.is_empty() {
            return Ok(());
        }
        let excess = self.rows.filled().saturating_sub(self.plan.cap());
        for _gone in 0..excess {
            self.open_oldest(alloc, out)?;
        }
        Ok(())
    }

    /// Makes the stage key a hole that was filled first, if one is filled.
    fn open_oldest(&mut self, alloc: Global, out: &mut StageOutbox<F>) -> Result<(), AllocError>
        requires whole { IsWhole self.old }
        requires edges { AreEdges self.old.plan out.old }
        ensures whole { OnOk result (IsWhole self.new) }
        ensures edges { AreEdges self.old.plan out.new }
        ensures others { self.new ≡ record self.old { rows = self.new.rows } }
        ensures done { (d : Done) → IsPut d out.old self.old → OnOk result (IsPut
            (next d (λ s. oldest_goes s s.right)) out.new self.new) }
    {
        match self.rows.open_oldest() {
            Some(key) => self.tell_gone(alloc, &key, out),
            None => Ok(()),
        }
    }

    /// Tells each view shard of its keys that have left rows of a stage key, of which no change can
    /// be told any more: it evicts them, in order and each once; one that has none is told nothing.
    /// Errors: memory only; then some are told. Cost: for each view a copy of the key of each left
    /// row of the stage key and a sort of them, and for each view shard that is told a copy of the
    /// line.
    fn tell_gone(
        &self,
        alloc: Global,
        key: &Value,
        out: &mut StageOutbox<F>,
    ) -> Result<(), AllocError>
        requires whole { IsWhole self.now }
        requires edges { AreEdges self.now.plan out.old }
        ensures edges { AreEdges self.now.plan out.new }
        ensures requests { out.new.requests ≡ out.old.requests }
        ensures told { OnOk result (packets_on out.new.packets ≡ append_each
            (packets_on out.old.packets) (map (gone_to self.now (datum_of key.now))
            (readers self.now.plan))) }
    {
        let mut names = Vec::new(alloc);
        for view in 0..self.plan.views() {
            names.push(self.rows.ahead(alloc, view, key)?)?;
        }
        let news = News {
            plan: self.plan,
            stage: self.shard,
            from: &self.line,
            to: &self.line,
            records: &[],
            names: &names,
            marker: None,
        };
        out.tell(packets(alloc, &news, false)?)
    }
}

/// Whether the packet brings a piece or a marker, and so no entry.
fn brings_no_entry<F: Fronts>(packet: &BasePacket<F>) -> bool
    ensures { result ≡ has_no_entry packet.now }
{
    packet.piece().is_some() || packet.marker().is_some()
}

/// Whether a piece of the source by this tag is one of the right side.
fn is_of_right_side(plan: &Plan, source: usize, tag: Tag) -> bool
    ensures { result ≡ (not (is_left plan.now source) && (tag.0 == right_tag)) }
{
    plan.keeps_profile();
    source >= plan.table(plan.left().table()).shards() && tag.0 == 0
}
