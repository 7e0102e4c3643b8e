//! One view shard over its cut.
ghost use Rattle.std.specs.Prelude.{IfSome, ◌≡◌, ◌≢◌, ◌<◌, ◌+◌, [], Some, None, Err, length, IfOk, OnOk, IfErr};
ghost use Rattle.std.specs.Option.{option_copied};
ghost use Rattle.row.specs.{Bags.Each, Cells.datum_of};
ghost use Rattle.model.specs.{Histories.view_shard, Queries.answer};
ghost use Rattle.packet.specs.{Lines.AreOf, Truth.sent_of};
ghost use Rattle.protocol.specs.{Views.packet as sent_by, Views.want as wanted, Views.order as ordered, ViewSteps.step};
ghost use Rattle.view_domain.specs.{Codes.message_of, Codes.IsFrom, Codes.Meets, Domains.lines_of, Domains.view_of, Domains.stopped, Outboxes.IsClear, Received.AreAnswers, Received.Fails, Received.IsDone, Received.IsReady, Shown.rows_at};

use crate::asks::{Asks, begin_key, count, prepare};
use crate::keys::open_key;
use crate::message::ToView;
use crate::outbox::ViewOutbox;
use crate::shown::ShownChange;
use crate::turn::{hold, starts_at};
use key_rows::kept::KeyRows;
use model::fronts::Fronts;
use packet::line::Line;
use packet::marks::Marks;
use packet::mode::Mode;
use packet::reader::Reader;
use packet::stage_packet::StagePacket;
use partial::partial::Partial;
use plan::domain::Tag;
use plan::plan::Plan;
use row::refused::Refused;
use row::value::Value;
use std::alloc::{AllocError, Global};
use std::marker::Model;

/// One shard of a view over its cut, a line for each stage shard: its keys as partial state. Each
/// filled key has the view's rows over the cut, unless memory was refused in the midst of a
/// message.
pub struct ViewDomain<'p, F: Fronts> {
    plan: &'p Plan,
    reader: Reader,
    tag: Tag,
    cut: Vec<Line<F>>,
    kept: Partial<Value, KeyRows>,
    asked: u64,
    marks: Marks,
    mode: Mode,
}

// What holds one drops it by this call, and need not know its parts.
impl<F: Fronts> Drop for ViewDomain<'_, F> {
    fn drop(self) {
        let ViewDomain {
            plan: _,
            reader: _,
            tag: _,
            cut: _,
            kept: _,
            asked: _,
            marks: _,
            mode: _,
        } = self;
    }
}

impl<'p, F: Fronts> Model for ViewDomain<'p, F> {
    ghost use Rattle.std.specs.Prelude.{◌≡◌, ◌≢◌};
    ghost use Rattle.packet.specs.{Readers.tag_of, declared.mode.Mode.TheVariants.Broken};
    ghost use Rattle.view_domain.specs.Domains.{Domain, HoldsTruth, domain_of};

    ghost Value = { Domain };

    ghost view = { λ d. domain_of d.plan.now d.reader.view d.reader.shard d.cut.items d.kept
        d.asked d.marks d.mode };

    ghost invariant = { λ d. (d.tag.0 ≡ tag_of d.reader.view) × (d.mode ≢ Broken → HoldsTruth
        (domain_of d.plan.now d.reader.view d.reader.shard d.cut.items d.kept d.asked d.marks
        d.mode)) };
}

impl<'p, F: Fronts> ViewDomain<'p, F> {
    /// The domain of a shard of a view over a cut, which has a line of the plan for each stage
    /// shard. No key is filled, and none waits. Errors: memory only.
    pub fn new(
        alloc: Global,
        plan: &'p Plan,
        view: usize,
        shard: usize,
        cut: Vec<Line<F>>,
    ) -> Result<ViewDomain<'p, F>, AllocError>
        requires view { view < length plan.now.views }
        requires stages { length cut.items ≡ plan.now.stages }
        requires of { Each (AreOf plan.now) cut.items }
        ensures { IfOk result (λ d. d ≡ record {
          plan = plan.now;
          view = view;
          shard = shard;
          cut = cut.items;
          kept = record { sources = plan.now.stages; filled = []; waiting = [] };
          asked = 0;
          marks = record { senders = plan.now.stages; waiting = [] };
          mode = Mode.Running;
        }) }
    {
        let kept = Partial::new(alloc, plan.stages())?;
        Ok(ViewDomain {
            plan,
            reader: Reader { view, shard },
            tag: tag_for(plan, view),
            cut,
            kept,
            asked: 0,
            marks: Marks::new(alloc, plan.stages()),
            mode: Mode::Running,
        })
    }

    /// Whether it runs, has stopped, or is broken.
    pub fn mode(&self) -> Mode
        ensures { result ≡ self.now.mode }
    {
        self.mode
    }

    /// Stops: what it holds stays, and from then on it answers `Stopped` to every message. Where it
    /// does not run, nothing changes.
    pub fn stop(&mut self)
        ensures running { self.old.mode ≡ Mode.Running → self.new ≡ stopped self.old }
        ensures not { self.old.mode ≢ Mode.Running → self.new ≡ self.old }
    {
        if self.mode == Mode::Running {
            self.mode = Mode::Stopped;
        }
    }

    /// The shard of its view that it is.
    pub fn shard(&self) -> usize
        ensures { result ≡ self.now.shard }
    {
        self.reader.shard
    }

    /// The view that it is a shard of.
    pub fn view(&self) -> usize
        ensures { result ≡ self.now.view }
    {
        self.reader.view
    }

    /// The rows of a filled key, also where it has stopped: unless it is broken, those of a key of
    /// its shard are the view's over its cut. Takes no memory. Constant time.
    pub fn get(&self, key: &Value) -> Option<&KeyRows>
        ensures rows { option_copied result ≡ rows_at self.now.kept key.now }
        ensures truth { self.now.mode ≢ Mode.Broken → view_shard self.now.plan self.now.view
            (datum_of key.now) ≡ self.now.shard → IfSome (rows_at self.now.kept key.now)
            (λ rows. rows ≡ answer self.now.plan (lines_of self.now.cut) self.now.view
            (datum_of key.now)) }
    {
        self.kept.get(key)
    }

    /// The line of each stage shard: unless it is broken, with a front of each source. Constant
    /// time.
    pub fn cut(&self) -> &[Line<F>]
        ensures cut { result.now ≡ self.now.cut }
        ensures of { self.now.mode ≢ Mode.Broken → Each (AreOf self.now.plan) result.now }
    {
        &self.cut
    }

    /// How many requests it has sent; the count stays at the greatest number.
    pub fn asked(&self) -> u64
        ensures { result ≡ self.now.asked }
    {
        self.asked
    }

    /// Tells what it holds by its type: unless it is broken, each filled key of its shard has the
    /// view's rows over its cut. It does nothing.
    pub fn is_true(&self)
        ensures { self.now.mode ≢ Mode.Broken → AreAnswers self.now }
    {
        let _cut = &self.cut;
    }

    /// Makes a filled key a hole. `NoMemory` breaks the domain.
    fn open(&mut self, alloc: Global, key: Value, out: &mut ViewOutbox<F>) -> Result<(), Refused>
        requires ready { IsReady self.old out.old }
        ensures done { OnOk result (IsDone (ordered (datum_of key))
            (step (view_of self.old) (ordered (datum_of key))) self.old out.new self.new) }
        ensures refused { IfErr result (λ e. Fails (ordered (datum_of key)) self.old e
            out.new self.new) }
        ensures edges { length out.new.requests ≡ length out.old.requests }
    {
        let mut told = Vec::new(alloc);
        let Ok(()) = open_key(&mut self.kept, key, &mut told) else {
            self.mode = Mode::Broken;
            return Err(Refused::NoMemory);
        };
        out.put_shown(ShownChange::of(0, None, told, self.asked, self.asked));
        Ok(())
    }

    /// Makes a hole wait, and asks each stage shard for it. `NoMemory` breaks the domain.
    fn begin(&mut self, alloc: Global, key: Value, out: &mut ViewOutbox<F>) -> Result<(), Refused>
        requires ready { IsReady self.old out.old }
        ensures done { OnOk result (IsDone (wanted (datum_of key))
            (step (view_of self.old) (wanted (datum_of key))) self.old out.new self.new) }
        ensures edges { length out.new.requests ≡ length out.old.requests }
        ensures refused { IfErr result (λ e. Fails (wanted (datum_of key)) self.old e
            out.new self.new) }
    {
        let Ok(begun) = begin_key(alloc, &mut self.kept, self.tag, key) else {
            self.mode = Mode::Broken;
            return Err(Refused::NoMemory);
        };
        let Some(requests) = begun else {
            return Ok(());
        };
        let was = self.asked;
        self.asked = count(was, requests.len());
        let shown = ShownChange::of(0, None, Vec::new(alloc), was, self.asked);
        let Ok(()) = out.put_to_each(requests, shown) else {
            self.mode = Mode::Broken;
            return Err(Refused::NoMemory);
        };
        Ok(())
    }

    /// Takes in a packet, where it starts at the line that is held of its stage shard; else `Gap`
    /// stops the domain. `NoMemory` breaks it.
    fn take(
        &mut self,
        alloc: Global,
        stage: usize,
        sent: StagePacket<F>,
        out: &mut ViewOutbox<F>,
    ) -> Result<(), Refused>
        requires ready { IsReady self.old out.old }
        requires from { IsFrom F.are_one self.old stage sent }
        ensures done { OnOk result (IsDone (sent_by stage (sent_of sent))
            (step (view_of self.old) (sent_by stage (sent_of sent))) self.old out.new self.new) }
        ensures refused { IfErr result (λ e. Fails (sent_by stage (sent_of sent)) self.old e
            out.new self.new) }
        ensures edges { length out.new.requests ≡ length out.old.requests }
    {
        let (from, to, content) = sent.into_parts();
        if !starts_at(&from, &to, &self.cut[stage]) {
            self.mode = Mode::Stopped;
            return Err(Refused::Gap);
        }
        let asks = Asks {
            tag: self.tag,
            cap: self.plan.view(self.reader.view).cap(),
        };
        let Ok(line) = hold(alloc, &mut self.cut[stage], to, &content) else {
            self.mode = Mode::Broken;
            return Err(Refused::NoMemory);
        };
        let Ok(made) = prepare(alloc, &mut self.kept, &mut self.marks, stage, asks, content) else {
            self.mode = Mode::Broken;
            return Err(Refused::NoMemory);
        };
        let was = self.asked;
        self.asked = count(was, made.requests.len());
        let shown = ShownChange::of(stage, line, made.told, was, self.asked);
        out.put(stage, made.requests, shown, made.ack);
        Ok(())
    }

    /// Takes one message into a clear outbox with an edge to each stage shard.
    ///
    /// Where all goes well it does just what the step of the protocol says: a packet is taken in,
    /// its line is held, keys whose piece went are asked for again, the cap is kept, and a fence is
    /// acknowledged whose marker has come from each stage shard; a hole that is wanted begins to
    /// wait, and each stage shard is asked; a filled key that is to go is a hole. What it tells its
    /// shown copy leads from what was held to what is held. Errors: `Gap` just where a packet does
    /// not start at the line that is held of its stage shard, and it has then stopped, with all
    /// else as it was; `NoMemory`, and then nothing is said of what it holds; `Stopped` where it
    /// had stopped, and nothing changes. After an error nothing is put out. Cost: for a packet,
    /// that of its keys and records, one look at each of its fronts, and one look-up for each; for
    /// a key, the number of stage shards.
    pub fn receive(
        &mut self,
        alloc: Global,
        message: ToView<F>,
        out: &mut ViewOutbox<F>,
    ) -> Result<(), Refused>
        requires ready { IsClear out.old }
        requires edges { length out.old.requests ≡ self.old.plan.stages }
        requires meets { Meets F.are_one self.old message }
        ensures done { OnOk result (IsDone (message_of message)
            (step (view_of self.old) (message_of message)) self.old out.new self.new) }
        ensures stopped { self.old.mode ≢ Mode.Running → (result ≡ Err Refused.Stopped)
            × (self.new ≡ self.old) × (out.new ≡ out.old) }
        ensures refused { self.old.mode ≡ Mode.Running → IfErr result (λ e. Fails
            (message_of message) self.old e out.new self.new) }
        ensures edges { length out.new.requests ≡ length out.old.requests }
    {
        if self.mode != Mode::Running {
            return Err(Refused::Stopped);
        }
        match message {
            ToView::Packet { stage, packet } => self.take(alloc, stage, packet, out),
            ToView::Want { key } => self.begin(alloc, key, out),
            ToView::Order { key } => self.open(alloc, key, out),
        }
    }
}

/// The tag by which keys of a view are asked for.
fn tag_for(plan: &Plan, view: usize) -> Tag
    requires { view < length plan.now.views }
    ensures { result.0 ≡ view + 1 }
{
    plan.keeps_profile();
    match view {
        0 => Tag(1),
        1 => Tag(2),
        2 => Tag(3),
        _ => Tag(4),
    }
}
