//! One step of a change of a shown copy.
ghost use Rattle.std.specs.Prelude.{◌≡◌, ◌<◌};
ghost use Rattle.packet.specs.Lines.{AreOf};

use book::front::Front;
use book::law::Naming;
use packet::line::Line;
use std::marker::Model;
use view_domain::shown::KeyChange;

/// A stage shard of the plan and its new line, which has a front of each source.
#[derive(Drop)]
pub struct Moved<J: Naming> {
    pub(crate) stage: usize,
    pub(crate) line: Line<Front<J>>,
}

impl<J: Naming> Model for Moved<J> {
    ghost use Rattle.std.specs.Prelude.{◌<◌};
    ghost use Rattle.packet.specs.Lines.{AreOf};
    ghost use Rattle.shown.specs.Moves.{MovedView};

    ghost Value = { MovedView };

    ghost view = { λ m. record { stage = m.stage; line = m.line } };

    ghost invariant = { λ m. (m.stage < J.plan.stages) × AreOf J.plan m.line };
}

impl<J: Naming> Moved<J> {
    /// The stage shard and its line.
    pub(crate) fn new(stage: usize, line: Line<Front<J>>) -> Moved<J>
        requires stage { stage < J.plan.stages }
        requires of { AreOf J.plan line }
        ensures { result ≡ record { stage = stage; line = line } }
    {
        Moved { stage, line }
    }
}

/// One step of a change: it is taken whole or not at all.
#[derive(Drop)]
pub enum Delta<J: Naming> {
    /// What becomes of a key.
    Key(KeyChange),
    /// The new line of a stage shard.
    Moves(Moved<J>),
    /// How many requests the view's shard has sent.
    Asks(u64),
}
