//! What a stage shard tells a view shard.
ghost use Rattle.std.specs.Prelude.{◌≡◌, ◌==◌, ◌≤◌, ◌↔◌, length, not, IfOk, IsTrue, OnErr, OnOk};
ghost use Rattle.packet.specs.{Codes.stage_packet_of, Joined.AreOne, Joined.GoesOnStage, Joined.at_most, Joined.joined_stage, Lines.AreOf, Lines.entries_of, Lines.fronts_to, Lines.lengths_of, Lines.plan_of, Truth.IsTrueStage};

use crate::append::append;
use crate::keyed::Keyed;
use crate::line::Line;
use crate::piece::Piece;
use crate::reader::Reader;
use crate::request::Marker;
use model::fronts::Fronts;
use row::value::Value;
use smallvec::SmallVec;
use std::alloc::{AllocError, Global};
use std::marker::Model;

/// What a packet of a stage shard carries: the rows that come and go, each beside its key, and the
/// keys of which it cannot tell; or a piece of a key, or a marker.
#[derive(Drop)]
pub struct Content {
    pub changes: Vec<Keyed>,
    pub evicts: Vec<Value>,
    pub piece: Option<Piece>,
    pub marker: Option<Marker>,
}

/// What a packet is made of.
struct Parts<F: Fronts> {
    stage: usize,
    reader: Reader,
    from: SmallVec<u64, 4>,
    to: Line<F>,
    content: Content,
}

// What holds them drops them by this call.
impl<F: Fronts> Drop for Parts<F> {
    fn drop(self) {
        let Parts {
            stage: _,
            reader: _,
            from: _,
            to: _,
            content: _,
        } = self;
    }
}

// Makes each number of entries at most that of the front of its source. Takes no memory.
fn keep_within<F: Fronts>(counts: &mut [u64], line: &Line<F>)
    ensures { counts.new ≡ at_most counts.old (lengths_of line.now) }
{
    for source in 0..counts.len().min(line.sources()) {
        counts[source] = counts[source].min(line.front(source).len());
    }
}

impl<F: Fronts> Parts<F> {
    // Has them end at another line. Takes no memory.
    fn end_at(&mut self, to: Line<F>)
        ensures stage { self.new.stage ≡ self.old.stage }
        ensures reader { self.new.reader ≡ self.old.reader }
        ensures from { self.new.from.items ≡ at_most self.old.from.items (lengths_of self.old.to) }
        ensures to { self.new.to ≡ to }
        ensures content { self.new.content ≡ self.old.content }
    {
        keep_within(self.from.as_mut_slice(), &self.to);
        self.to = to;
    }

    fn into_fields(self) -> (SmallVec<u64, 4>, Line<F>, Content)
        ensures from { result.0 ≡ self.from }
        ensures to { result.1 ≡ self.to }
        ensures content { result.2 ≡ self.content }
    {
        let Parts {
            stage: _,
            reader: _,
            from,
            to,
            content,
        } = self;
        (from, to, content)
    }
}

/// What a stage shard tells a shard of a view, between two lines. By its type it is true: as bags,
/// the stage shard's part of each key at the one line with the changes of the key is its part at
/// the other, but for the keys that it evicts, each once and in order; and a piece is the stage
/// shard's part of its key. The line has a front of each source of its plan. Its parts lie in a box,
/// which stays where it is while the packet goes from hand to hand.
pub struct StagePacket<F: Fronts> {
    parts: Box<Parts<F>>,
}

// What holds one drops it by this call, and need not know its parts.
impl<F: Fronts> Drop for StagePacket<F> {
    fn drop(self) {
        let StagePacket { parts: _ } = self;
    }
}

impl<F: Fronts> Model for StagePacket<F> {
    ghost use Rattle.packet.specs.{Messages.StagePacketView, Codes.stage_packet_of, Lines.AreOf, Lines.plan_of, Truth.IsTrueStage};

    ghost Value = { StagePacketView };

    ghost view = { λ x. stage_packet_of x.parts.value.stage x.parts.value.reader
        x.parts.value.from.items x.parts.value.to x.parts.value.content };

    ghost invariant = { λ x. AreOf (plan_of x.parts.value.to) x.parts.value.to
        × IsTrueStage (stage_packet_of x.parts.value.stage x.parts.value.reader
        x.parts.value.from.items x.parts.value.to x.parts.value.content) };
}

impl<F: Fronts> StagePacket<F> {
    /// A packet that starts at the first `from` entries of each log of its line. Errors: memory.
    pub fn new(
        alloc: Global,
        stage: usize,
        reader: Reader,
        from: SmallVec<u64, 4>,
        to: Line<F>,
        content: Content,
    ) -> Result<StagePacket<F>, AllocError>
        requires of { AreOf (plan_of to) to }
        requires truth { IsTrueStage (stage_packet_of stage reader from.items to content) }
        ensures { IfOk result (λ x. x ≡ stage_packet_of stage reader from.items to content) }
    {
        let parts = Parts {
            stage,
            reader,
            from,
            to,
            content,
        };
        Ok(StagePacket {
            parts: Box::new(alloc, parts)?,
        })
    }

    /// The stage shard that it comes from.
    pub fn stage(&self) -> usize
        ensures { result ≡ self.now.stage }
    {
        self.parts.stage
    }

    /// Whether it carries rows that come or go.
    pub fn has_changes(&self) -> bool
        ensures { result ≡ not (length self.now.changes == 0) }
    {
        !self.parts.content.changes.is_empty()
    }

    /// Whether a packet that goes on where it ends can be one with it: both are updates, which carry
    /// neither a piece nor a marker, the other evicts nothing, and carries no rows where this one
    /// evicts. Constant time.
    pub fn is_one_with(&self, next: &StagePacket<F>) -> bool
        ensures { IsTrue result ↔ AreOne self.now next.now }
    {
        let (own, other) = (&self.parts.content, &next.parts.content);
        own.piece.is_none()
            && own.marker.is_none()
            && other.piece.is_none()
            && other.marker.is_none()
            && other.evicts.is_empty()
            && (own.evicts.is_empty() || other.changes.is_empty())
    }

    /// The shard of a view that it goes to.
    pub fn reader(&self) -> Reader
        ensures view { result.view ≡ self.now.view }
        ensures shard { result.shard ≡ self.now.shard }
    {
        self.parts.reader
    }

    /// How many entries of each log it starts at, with a number for each source at least. Constant
    /// time.
    pub fn from(&self) -> &[u64]
        ensures starts { fronts_to result.now self.now.to ≡ self.now.from }
        ensures count { length self.now.to ≤ length result.now }
    {
        &self.parts.from
    }

    /// The line that it ends at, which has a front of each source of its plan.
    pub fn to(&self) -> &Line<F>
        ensures plan { plan_of result.now ≡ self.now.plan }
        ensures to { entries_of result.now ≡ self.now.to }
        ensures of { AreOf self.now.plan result.now }
    {
        &self.parts.to
    }

    /// Joins to it the packet that goes on where it ends and can be one with it: it ends where that one
    /// ends, and carries the changes of both. Errors: memory only; then it is as it was, and the other
    /// is gone. Cost: a step for each source, and a move of each record of the other, none where it has
    /// no changes of its own.
    pub fn join(&mut self, next: StagePacket<F>) -> Result<(), AllocError>
        requires { GoesOnStage self.old next }
        ensures ok { OnOk result (self.new ≡ joined_stage self.old next) }
        ensures err { OnErr result (self.new ≡ self.old) }
    {
        let (_, to, content) = next.into_parts();
        append(&mut self.parts.content.changes, content.changes)?;
        self.parts.end_at(to);
        Ok(())
    }

    /// Its parts, moved out of it.
    pub fn into_parts(self) -> (SmallVec<u64, 4>, Line<F>, Content)
        ensures parts { self ≡ stage_packet_of self.stage
            (record { view = self.view; shard = self.shard }) result.0.items result.1 result.2 }
        ensures of { AreOf self.plan result.1 }
        ensures truth { IsTrueStage self }
    {
        let StagePacket { parts } = self;
        Box::into_inner(parts).into_fields()
    }
}
