//! The packets of a base shard: those of an entry, the answer to a request, and a marker.
ghost use Rattle.std.specs.Prelude.{◌<◌, ◌≡◌, ◌≤◌, IfOk, List, None, OnErr, Some, length, map, ℕ};
ghost use Rattle.std.specs.List.{range_with_len};
ghost use Rattle.std.specs.Option.{option_map};
ghost use Rattle.model.specs.{Logs.Change, Places.layout_of, Places.table_of};
ghost use Rattle.base.specs.Shards.{IsAt};
ghost use Rattle.packet.specs.{Codes.mark_of, Readers.side_in, Truth.IsTrueBase, Truth.base_piece, Truth.column_of};
ghost use Rattle.protocol.specs.BaseSteps.{piece_for, still};
ghost use Rattle.base_domain.specs.{Codes.base_of, Told.part_packet};

use base::part::Part;
use base::shard::BaseShard;
use model::fronts::Fronts;
use packet::base_packet::BasePacket;
use packet::piece::Piece;
use packet::request::{Marker, Request};
use plan::domain::Tag;
use plan::plan::Plan;
use plan::stage::Side;
use row::record::Record;
use row::row::Row;
use std::alloc::{AllocError, Global};
use std::marker::Model;

/// The packet of a marker to a stage shard, at the front. It takes no memory.
pub fn marker_packet<F: Fronts>(alloc: Global, to: F, stage: usize, marker: Marker) -> BasePacket<F>
    ensures { result ≡ still (base_of (F.log to) (F.authors to)) stage None
        (Some (mark_of marker)) }
{
    BasePacket::new(stage, to.len(), to, Vec::new(alloc), None, Some(marker))
}

/// The packet that answers a request of a stage shard, at the front where the rows stand: all of
/// its rows of the key, in order. A table that is none of the stage's has none. Errors: memory
/// only. Cost: that of `BaseShard::lookup`.
pub fn piece_packet<F: Fronts>(
    alloc: Global,
    plan: &Plan,
    table: usize,
    shard: &BaseShard,
    to: F,
    stage: usize,
    request: Request,
) -> Result<BasePacket<F>, AllocError>
    requires plan { (F.log to).plan ≡ plan.now }
    requires table { table ≡ table_of plan.now (F.log to).base }
    requires key { shard.now.key ≡ (layout_of plan.now (F.log to).base).key }
    requires front { IsAt shard.now (F.log to).entries }
    ensures { IfOk result (λ k. k ≡ still (base_of (F.log to) (F.authors to)) stage
        (Some (piece_for (base_of (F.log to) (F.authors to)) stage request)) None) }
{
    let rows = rows_for(alloc, plan, table, shard, stage, &request)?;
    let tag = request.tag();
    let piece = Piece::new(tag, request.into_key(), rows);
    let len = to.len();
    Ok(BasePacket::new(stage, len, to, Vec::new(alloc), Some(piece), None))
}

/// The rows that a stage shard asks for, in order.
fn rows_for(
    alloc: Global,
    plan: &Plan,
    table: usize,
    shard: &BaseShard,
    stage: usize,
    request: &Request,
) -> Result<Vec<Row>, AllocError>
    ensures { IfOk result (λ v. (b : ℕ) (front : List Change) → IsAt shard.now front
        → table ≡ table_of plan.now b → shard.now.key ≡ (layout_of plan.now b).key
        → v.items ≡ base_piece plan.now b stage front request.now.tag request.now.key) }
{
    plan.keeps_profile();
    let Some(side) = side_at(plan, table) else {
        return Ok(Vec::new(alloc));
    };
    let part = Part {
        column: side.key(),
        shards: plan.stages(),
        shard: stage,
    };
    shard.lookup(alloc, column_of(plan, request.tag()), request.key(), part)
}

/// The side of the stage that the table is, if it is one.
pub(crate) fn side_at(plan: &Plan, table: usize) -> Option<&Side>
    ensures { option_map (λ s. s.now) result ≡ side_in plan.now table }
{
    if plan.left().table() == table {
        return Some(plan.left());
    }
    match plan.right() {
        Some(side) if side.table() == table => Some(side),
        _ => None,
    }
}

/// The column in which a base shard looks for a key of the tag.
fn column_of(plan: &Plan, tag: Tag) -> usize
    ensures { result ≡ column_of plan.now tag.0 }
{
    if tag.0 == 0 {
        return match plan.right() {
            Some(side) => side.key(),
            None => 0,
        };
    }
    let view = (tag.0 as usize - 1).saturating_sub(15);
    if view < plan.views() {
        plan.view(view).key()
    } else {
        0
    }
}

/// The records of an entry for each stage shard, and room for as many packets, so that these are
/// made with no memory but that of their fronts.
#[derive(Drop)]
pub(crate) struct StageParts<F: Fronts> {
    records: Vec<Vec<Record>>,
    room: Vec<BasePacket<F>>,
}

impl<F: Fronts> Model for StageParts<F> {
    ghost use Rattle.std.specs.Prelude.{◌≡◌, ◌≤◌, [], List, length, map};
    ghost use Rattle.std.specs.Vec.{vec_capacity};
    ghost use Rattle.row.specs.declared.record.Record.{Record};

    ghost Value = { List (List Record) };

    ghost view = { λ p. map (λ w. w.items) p.records.items };

    ghost invariant = { λ p. (p.room.items ≡ []) × (length p.records.items ≤ vec_capacity p.room) };
}

impl<F: Fronts> StageParts<F> {
    /// These records, and room for a packet of each part. Errors: memory only.
    pub(crate) fn new(alloc: Global, records: Vec<Vec<Record>>) -> Result<StageParts<F>, AllocError>
        ensures { IfOk result (λ p. p ≡ map (λ w. w.items) records.items) }
    {
        let room = Vec::with_capacity(alloc, records.len())?;
        Ok(StageParts { records, room })
    }

    /// The packet of each part, from this many entries on to the front of the right. Errors:
    /// memory, and only for a front, where its kind may refuse.
    pub(crate) fn packets(
        self,
        right: &F::Right,
        alloc: Global,
        from: u64,
    ) -> Result<Vec<BasePacket<F>>, AllocError>
        requires within { from ≤ length (F.log (F.front right.now)).entries }
        requires truth { (j : ℕ) → j < length self
            → IsTrueBase (part_packet (F.log (F.front right.now)) from self j) }
        ensures packets { IfOk result (λ v. v.items ≡ map (part_packet
            (F.log (F.front right.now)) from self) (range_with_len 0 (length self))) }
        ensures only { OnErr result F.may_refuse }
    {
        let mut packets = self.room;
        let mut stage = 0;
        for changes in self.records {
            let to = F::of(right, alloc)?;
            packets.push_reserved(BasePacket::new(stage, from, to, changes, None, None));
            stage += 1;
        }
        Ok(packets)
    }
}
