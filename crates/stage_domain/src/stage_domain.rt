//! One stage shard that takes messages until it stops.
ghost use Rattle.std.specs.Prelude.{◌≡◌, ◌≢◌, ◌<◌, Err, [], IfOk, OnOk, OnErr, IfErr, IsTrue, ◌↔◌};
ghost use Rattle.row.specs.Bags.{Each};
ghost use Rattle.model.specs.Fronts.{LogView};
ghost use Rattle.packet.specs.Lines.{AreOf};
ghost use Rattle.protocol.specs.{StageSteps.step, Stages.packet};
ghost use Rattle.stage_domain.specs.Domains.{Fails, IsDone, IsNew, IsNext, Meets, shard_in, stage_of, stopped};
ghost use Rattle.stage_steps.specs.{Codes.message_of, Outboxes.AreEdges, Outboxes.IsSilent, Shards.IsShard};

use model::fronts::Fronts;
use packet::base_packet::BasePacket;
use packet::line::Line;
use packet::mode::Mode;
use plan::plan::Plan;
use row::refused::Refused;
use stage_steps::message::ToStage;
use stage_steps::outbox::StageOutbox;
use stage_steps::shard::StageShard;
use std::alloc::{AllocError, Global};
use std::marker::Model;

/// One stage shard over a front of each source. The rows of its left side are all here; those of
/// its right side only of stage keys that were asked for and are not evicted.
pub struct StageDomain<'p, F: Fronts> {
    shard: StageShard<'p, F>,
    mode: Mode,
}

// What holds one drops it by this call, and need not know its parts.
impl<F: Fronts> Drop for StageDomain<'_, F> {
    fn drop(self) {
        let StageDomain { shard: _, mode: _ } = self;
    }
}

impl<'p, F: Fronts> Model for StageDomain<'p, F> {
    ghost use Rattle.std.specs.Prelude.{◌≢◌};
    ghost use Rattle.packet.specs.declared.mode.Mode.TheVariants.{Broken};
    ghost use Rattle.stage_domain.specs.Domains.{Domain};
    ghost use Rattle.stage_steps.specs.Shards.{IsShard};

    ghost Value = { Domain };

    ghost view = { λ d. record {
      plan = d.shard.plan;
      shard = d.shard.shard;
      line = d.shard.line;
      rows = d.shard.rows;
      pending = d.shard.pending;
      marks = d.shard.marks;
      mode = d.mode;
    } };

    ghost invariant = { λ d. d.mode ≢ Broken → IsShard d.shard };
}

impl<'p, F: Fronts> StageDomain<'p, F> {
    /// The domain of a shard of the stage, over a line of fronts of empty logs. Where the plan has
    /// a right side each stage key is a hole. Errors: memory only.
    pub fn new(
        alloc: Global,
        plan: &'p Plan,
        shard: usize,
        line: Line<F>,
    ) -> Result<StageDomain<'p, F>, AllocError>
        requires shard { shard < plan.now.stages }
        requires of { AreOf plan.now line }
        requires empty { Each (λ (l : LogView). l.entries ≡ []) line }
        ensures { IfOk result (IsNew plan.now shard line) }
    {
        Ok(StageDomain {
            shard: StageShard::new(alloc, plan, shard, line)?,
            mode: Mode::Running,
        })
    }

    /// The stage shard that it is.
    pub fn shard(&self) -> usize
        ensures { result ≡ self.now.shard }
    {
        self.shard.shard()
    }

    /// The line of fronts that it holds, one of each source of its plan unless it is broken: its
    /// rows are then those of the line.
    pub fn line(&self) -> &Line<F>
        ensures line { result.now ≡ self.now.line }
        ensures of { self.now.mode ≢ Mode.Broken → AreOf self.now.plan result.now }
        ensures truth { self.now.mode ≢ Mode.Broken → IsShard (shard_in self.now) }
    {
        self.shard.line()
    }

    /// Whether it runs, has stopped, or is broken.
    pub fn mode(&self) -> Mode
        ensures { result ≡ self.now.mode }
    {
        self.mode
    }

    /// Stops: from then on it answers `Stopped` to every message, and nothing changes.
    pub fn stop(&mut self)
        ensures running { self.old.mode ≡ Mode.Running → self.new ≡ stopped self.old }
        ensures not { self.old.mode ≢ Mode.Running → self.new ≡ self.old }
    {
        if self.mode == Mode::Running {
            self.mode = Mode::Stopped;
        }
    }

    /// Takes one message into a clear outbox with an edge to each view shard of the plan, view by
    /// view, and to each source.
    ///
    /// Where all goes well it does just what the step of the protocol says. The packet of an entry
    /// moves the line, and each view shard gets one packet, also an empty one, which evicts its
    /// keys of which the change cannot be told. A marker that has come from every source goes to
    /// each. A request waits for the stage keys behind its key, each of which is asked of every
    /// right source once, and is answered when all are filled, in order of arrival. An order makes
    /// its stage key a hole, and evicts the view keys that have left rows of it; the cap does the
    /// same to the keys filled first where no request waits.
    ///
    /// Errors, after which nothing is put out: `Stopped` where it does not run, and then nothing
    /// changes; `Gap` where a packet does not start at the front that is held of its source, and
    /// then it has stopped and all else is as it was; `NoMemory`, and then it is broken. Cost: that
    /// of `StageShard::step`.
    pub fn receive(
        &mut self,
        alloc: Global,
        message: ToStage<F>,
        out: &mut StageOutbox<F>,
    ) -> Result<(), Refused>
        requires clear { IsSilent out.old }
        requires edges { AreEdges self.old.plan out.old }
        requires meets { Meets F.are_one self.old (message_of message) }
        ensures done { OnOk result (IsDone (step (stage_of self.old) (message_of message))
            out.new self.new) }
        ensures next { OnOk result (IsNext self.old (message_of message)) }
        ensures stopped { self.old.mode ≢ Mode.Running → (result ≡ Err Refused.Stopped)
            × (self.new ≡ self.old) × (out.new ≡ out.old) }
        ensures refused { self.old.mode ≡ Mode.Running → IfErr result (λ e. Fails self.old
            (message_of message) e self.new) }
        ensures unsent { OnErr result (IsSilent out.new) }
        ensures edges { AreEdges self.old.plan out.new }
        ensures plan { self.new.plan ≡ self.old.plan }
        ensures shard { self.new.shard ≡ self.old.shard }
    {
        if self.mode != Mode::Running {
            return Err(Refused::Stopped);
        }
        if !self.is_next(&message) {
            self.mode = Mode::Stopped;
            return Err(Refused::Gap);
        }
        if self.shard.step(alloc, message, out).is_err() {
            self.mode = Mode::Broken;
            out.clear();
            return Err(Refused::NoMemory);
        }
        Ok(())
    }

    /// Whether the message is not a packet that starts elsewhere than at the front that is held of
    /// its source.
    fn is_next(&self, message: &ToStage<F>) -> bool
        requires meets { Meets F.are_one self.now (message_of message.now) }
        requires running { self.now.mode ≡ Mode.Running }
        ensures { IsTrue result ↔ IsNext self.now (message_of message.now) }
    {
        match message {
            ToStage::Packet { source, packet } => self.starts_here(*source, packet),
            ToStage::Request(_) | ToStage::Order(_) => true,
        }
    }

    /// Whether the packet starts at the front that is held of its source.
    fn starts_here(&self, source: usize, next: &BasePacket<F>) -> bool
        requires meets { Meets F.are_one self.now (packet source next.now) }
        requires running { self.now.mode ≡ Mode.Running }
        ensures { IsTrue result ↔ IsNext self.now (packet source next.now) }
    {
        let held = self.shard.line().front(source);
        let to = next.to();
        held.meet(to);
        next.is_true();
        held.len() == next.from()
    }
}
