//! What a base shard tells a stage shard.
ghost use Rattle.std.specs.Prelude.{◌≡◌, ◌==◌, ◌≤◌, ◌↔◌, length, not, IsTrue, OnErr, OnOk};
ghost use Rattle.std.specs.Option.{option_map};
ghost use Rattle.packet.specs.{Codes.mark_in, Codes.packet_of, Codes.EndsAt, Joined.GoesOnBase, Joined.IsUpdateBase, Joined.joined_base, Truth.IsTrueBase};

use crate::append::append;
use crate::piece::Piece;
use crate::request::Marker;
use model::fronts::Fronts;
use row::record::Record;
use std::alloc::AllocError;
use std::marker::Model;

/// What the base shard of its front tells a stage shard: the rows that come and go between the
/// first `from` entries of the log and the front, or a piece of a key, or a marker. By its type it
/// is true: as bags, the rows of the stage shard at the one front with the changes are those at the
/// other, and a piece is all rows of its key.
pub struct BasePacket<F: Fronts> {
    marker: Option<Marker>,
    stage: usize,
    from: u64,
    to: F,
    changes: Vec<Record>,
    piece: Option<Piece>,
}

// What holds one drops it by this call, and need not know its parts.
impl<F: Fronts> Drop for BasePacket<F> {
    fn drop(self) {
        let BasePacket {
            marker: _,
            stage: _,
            from: _,
            to: _,
            changes: _,
            piece: _,
        } = self;
    }
}

impl<F: Fronts> Model for BasePacket<F> {
    ghost use Rattle.std.specs.Prelude.{length, ◌≤◌};
    ghost use Rattle.packet.specs.{Messages.BasePacketView, Codes.mark_in, Codes.packet_of, Truth.IsTrueBase};

    ghost Value = { BasePacketView };

    ghost view = { λ k. packet_of k.stage k.from (F.log k.to) k.changes.items k.piece
        (mark_in k.marker) };

    ghost invariant = { λ k. (k.from ≤ length (F.log k.to).entries)
        × IsTrueBase (packet_of k.stage k.from (F.log k.to) k.changes.items k.piece
        (mark_in k.marker)) };
}

impl<F: Fronts> BasePacket<F> {
    /// A packet of these parts, which starts at the first `from` entries of the front's log.
    pub fn new(
        stage: usize,
        from: u64,
        to: F,
        changes: Vec<Record>,
        piece: Option<Piece>,
        marker: Option<Marker>,
    ) -> BasePacket<F>
        requires within { from ≤ length (F.log to).entries }
        requires truth { IsTrueBase (packet_of stage from (F.log to) changes.items piece
            (mark_in marker)) }
        ensures { result ≡ packet_of stage from (F.log to) changes.items piece (mark_in marker) }
    {
        BasePacket {
            stage,
            from,
            to,
            changes,
            piece,
            marker,
        }
    }

    /// What its type says of it.
    pub fn is_true(&self)
        ensures { IsTrueBase self.now }
    {
        let _stage = self.stage;
    }

    /// The stage shard that it goes to.
    pub fn stage(&self) -> usize
        ensures { result ≡ self.now.stage }
    {
        self.stage
    }

    /// The base shard that it comes from.
    pub fn base(&self) -> usize
        ensures { result ≡ self.now.base }
    {
        self.to.base()
    }

    /// Whether it carries rows that come or go.
    pub fn has_changes(&self) -> bool
        ensures { result ≡ not (length self.now.changes == 0) }
    {
        !self.changes.is_empty()
    }

    /// Whether it is an update: it carries neither a piece nor a marker. Constant time.
    pub fn is_update(&self) -> bool
        ensures { IsTrue result ↔ IsUpdateBase self.now }
    {
        self.piece.is_none() && self.marker.is_none()
    }

    /// How many entries the front has that it starts at.
    pub fn from(&self) -> u64
        ensures { result ≡ length self.now.from }
    {
        self.from
    }

    /// The front that it ends at.
    pub fn to(&self) -> &F
        ensures { EndsAt self.now (F.log result.now) }
    {
        &self.to
    }

    /// The piece that it carries, if it does.
    pub fn piece(&self) -> Option<&Piece>
        ensures { option_map (λ p. p.now) result ≡ self.now.piece }
    {
        self.piece.as_ref()
    }

    /// The marker that it carries, if it does.
    pub fn marker(&self) -> Option<Marker>
        ensures { mark_in result ≡ self.now.marker }
    {
        self.marker
    }

    /// Joins to it the packet that goes on where it ends: it ends where that one ends, and carries the
    /// changes of both. Errors: memory only; then it is as it was, and the other is gone. Cost: a move
    /// of each record of the other, none where it has no changes of its own.
    pub fn join(&mut self, next: BasePacket<F>) -> Result<(), AllocError>
        requires { GoesOnBase self.old next }
        ensures ok { OnOk result (self.new ≡ joined_base self.old next) }
        ensures err { OnErr result (self.new ≡ self.old) }
    {
        let (to, changes, _) = next.into_parts();
        append(&mut self.changes, changes)?;
        self.to = to;
        Ok(())
    }

    /// The front that it ends at, its changes and its piece, moved out of it.
    pub fn into_parts(self) -> (F, Vec<Record>, Option<Piece>)
        ensures to { EndsAt self (F.log result.0) }
        ensures changes { result.1.items ≡ self.changes }
        ensures piece { result.2 ≡ self.piece }
        ensures truth { IsTrueBase self }
    {
        let BasePacket {
            marker: _,
            stage: _,
            from: _,
            to,
            changes,
            piece,
        } = self;
        (to, changes, piece)
    }
}
