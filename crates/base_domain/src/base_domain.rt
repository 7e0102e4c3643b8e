//! One base shard with the right to append to its log.
ghost use Rattle.std.specs.Prelude.{◌≡◌, ◌≢◌, ◌<◌, ◌≤◌, Err, [], ◌∷◌, true, false, Some, None, length, map, replicate, IfOk, IfSome, OnOk, OnErr, IfErr, IsOkUnless};
ghost use Rattle.model.specs.{Entries.change_of, Places.layout_of, Places.table_of, Legal.limit};
ghost use Rattle.packet.specs.{Messages.none_of, Outboxes.IsClear, Outboxes.packets_on, Codes.mark_of};
ghost use Rattle.std.specs.List.{range_with_len};
ghost use Rattle.base_domain.specs.{Received.Fails, Received.Goes, Received.IsAnswered, Received.IsCutShort, Received.IsDone, Received.IsFor, Received.IsReady, Received.IsWrite, Received.Stays, Received.base_at, Received.refusal_at, Codes.message_of, Codes.write_of, Told.IsTurn, Told.parts_in};
ghost use Rattle.protocol.specs.{Bases.declined, Bases.next_of, Bases.request, Bases.marker, BaseSteps.appended, BaseSteps.quiet, BaseSteps.step, BaseSteps.still, BaseSteps.piece_for};
ghost use Rattle.base.specs.Shards.{HasKey, IsAt};
ghost use Rattle.plan.specs.Layouts.{table_at};

use crate::message::{ToBase, Write};
use crate::packets::{StageParts, marker_packet, piece_packet, side_at};
use crate::writing::{answer, answer_accepted, decline, ready_for, tell, turn_away, weigh};
use base::shard::BaseShard;
use model::fronts::{Found, Fronts};
use packet::base_packet::BasePacket;
use packet::outbox::Outbox;
use packet::request::{Marker, Request};
use plan::plan::Plan;
use row::refused::Refused;
use std::alloc::{AllocError, Global};
use std::marker::Model;

/// The most entries of a log.
const LIMIT: u64 = 4294967295;

/// One base shard with the right to append to its log, at whose front its rows stand, and for each
/// session the least number that its next write may have.
pub struct BaseDomain<'p, F: Fronts> {
    plan: &'p Plan,
    table: usize,
    shard: BaseShard,
    right: F::Right,
    next: Vec<u64>,
    stopped: bool,
}

// What holds one drops it by this call, and need not know its parts.
impl<F: Fronts> Drop for BaseDomain<'_, F> {
    fn drop(self) {
        let BaseDomain {
            plan: _,
            table: _,
            shard: _,
            right: _,
            next: _,
            stopped: _,
        } = self;
    }
}

impl<'p, F: Fronts> Model for BaseDomain<'p, F> {
    ghost use Rattle.base_domain.specs.Domains.{Domain, HoldsTruth};

    ghost Value = { Domain F };

    ghost view = { λ d. record {
      front = F.front d.right;
      next = d.next.items;
      stopped = d.stopped;
    } };

    ghost invariant = { λ d. HoldsTruth d.plan.now d.table (F.log (F.front d.right))
        (F.authors (F.front d.right)) d.shard d.next.items };
}

impl<'p, F: Fronts> BaseDomain<'p, F> {
    /// The domain of a shard of a table, which takes the right to the shard's log while that is
    /// empty, for this many sessions. Errors: memory only.
    pub fn new(
        alloc: Global,
        plan: &'p Plan,
        table: usize,
        right: F::Right,
        sessions: usize,
    ) -> Result<BaseDomain<'p, F>, AllocError>
        requires plan { (F.log (F.front right)).plan ≡ plan.now }
        requires table { table ≡ table_of plan.now (F.log (F.front right)).base }
        requires place { table < length plan.now.tables }
        requires empty { (F.log (F.front right)).entries ≡ [] }
        requires unsaid { F.authors (F.front right) ≡ [] }
        ensures { IfOk result (λ d. d ≡ record {
          front = F.front right;
          next = replicate sessions 0;
          stopped = false;
        }) }
    {
        let next = vec![in alloc; 0u64; sessions]?;
        Ok(BaseDomain {
            plan,
            table,
            shard: no_rows(alloc, plan, table)?,
            right,
            next,
            stopped: false,
        })
    }

    /// Stops: from then on it answers `Stopped` to every message, and nothing changes.
    pub fn stop(&mut self)
        ensures { self.new ≡ record self.old { stopped = true } }
    {
        let _table = self.table;
        self.stopped = true;
    }

    /// Whether it has stopped.
    pub fn is_stopped(&self) -> bool
        ensures { result ≡ self.now.stopped }
    {
        self.stopped
    }

    /// Answers a request of a stage shard with one packet, which has all rows of the key. Errors:
    /// `NoMemory`, and then no packet is put out, and the domain has stopped.
    fn answer_request(
        &mut self,
        alloc: Global,
        stage: usize,
        ask: Request,
        out: &mut Outbox<F>,
    ) -> Result<(), Refused>
        requires ready { IsReady F.log self.old out.old }
        requires stage { stage < length out.old.edges }
        ensures done { OnOk result (IsDone F.log F.authors (request stage ask) self.old
            (step (base_at F.log F.authors self.old) (request stage ask)) out.new self.new) }
        ensures only { IfErr result (λ e. e ≡ Refused.NoMemory) }
        ensures refused { IfErr result (λ e. IsCutShort F.log F.authors (request stage ask) self.old
            (step (base_at F.log F.authors self.old) (request stage ask)) out.new self.new) }
        ensures edges { length out.new.edges ≡ length out.old.edges }
    {
        let sent = match self.piece(alloc, stage, ask) {
            Ok(packet) => out.send_to_one(stage, packet),
            Err(_) => Err(Refused::NoMemory),
        };
        self.stopped = sent.is_err();
        sent
    }

    /// The packet that answers a request.
    fn piece(&self, alloc: Global, stage: usize, ask: Request) -> Result<BasePacket<F>, AllocError>
        ensures { IfOk result (λ k. k ≡ still (base_at F.log F.authors self.now) stage
            (Some (piece_for (base_at F.log F.authors self.now) stage ask)) None) }
    {
        let to = F::of(&self.right, alloc)?;
        piece_packet(alloc, self.plan, self.table, &self.shard, to, stage, ask)
    }

    /// Sends a marker on to every stage shard, behind all that was sent before. Errors: `NoMemory`,
    /// and then no packet is put out, and the domain has stopped.
    fn pass_marker(
        &mut self,
        alloc: Global,
        mark: Marker,
        out: &mut Outbox<F>,
    ) -> Result<(), Refused>
        requires ready { IsReady F.log self.old out.old }
        ensures done { OnOk result (IsDone F.log F.authors (marker (mark_of mark)) self.old
            (step (base_at F.log F.authors self.old) (marker (mark_of mark))) out.new self.new) }
        ensures only { IfErr result (λ e. e ≡ Refused.NoMemory) }
        ensures refused { IfErr result (λ e. IsCutShort F.log F.authors
            (marker (mark_of mark)) self.old
            (step (base_at F.log F.authors self.old) (marker (mark_of mark))) out.new self.new) }
        ensures edges { length out.new.edges ≡ length out.old.edges }
    {
        if side_at(self.plan, self.table).is_none() {
            return Ok(());
        }
        let sent = self.send_marker(alloc, mark, out);
        self.stopped = sent.is_err();
        sent
    }

    /// One packet with the marker on each edge. `NoMemory` leaves all edges clear.
    fn send_marker(&self, alloc: Global, mark: Marker, out: &mut Outbox<F>) -> Result<(), Refused>
        requires clear { packets_on out.old.edges ≡ none_of out.old.edges }
        requires edges { length out.old.edges ≡ (F.log self.now.front).plan.stages }
        ensures only { IsOkUnless result Refused.NoMemory }
        ensures sent { OnOk result (packets_on out.new.edges
            ≡ map (λ s. still (base_at F.log F.authors self.now) s None (Some (mark_of mark)) ∷ [])
            (range_with_len 0 (F.log self.now.front).plan.stages)) }
        ensures unsent { OnErr result (packets_on out.new.edges ≡ none_of out.new.edges) }
        ensures edges { length out.new.edges ≡ length out.old.edges }
        ensures reply { out.new.reply ≡ out.old.reply }
    {
        let Ok(packets) = self.markers(alloc, mark) else {
            return Err(Refused::NoMemory);
        };
        out.reserve()?;
        out.send_to_each(packets);
        Ok(())
    }

    /// A packet with the marker for each stage shard.
    fn markers(&self, alloc: Global, mark: Marker) -> Result<Vec<BasePacket<F>>, AllocError>
        ensures { IfOk result (λ v. v.items ≡ map (λ s. still (base_at F.log F.authors self.now) s
            None (Some (mark_of mark))) (range_with_len 0 (F.log self.now.front).plan.stages)) }
    {
        let mut packets = Vec::new(alloc);
        for stage in 0..self.plan.stages() {
            let to = F::of(&self.right, alloc)?;
            packets.push(marker_packet(alloc, to, stage, mark))?;
        }
        Ok(packets)
    }

    /// Answers a write that the log refuses, after a look whether this is all of the log. Errors:
    /// `Stopped` where the log has gone on without the domain, which then stops.
    fn refuse(
        &mut self,
        alloc: Global,
        words: &F::Words,
        write: Write,
        refused: Refused,
        out: &mut Outbox<F>,
    ) -> Result<(), Refused>
        requires ready { IsReady F.log self.old out.old }
        requires place { write.session < length self.old.next }
        requires rises { next_of write.session (F.authors self.old.front) ≤ write.number }
        requires why { refusal_at (F.log self.old.front) (change_of write.entry) ≡ Some refused }
        ensures done { OnOk result (Goes F.log F.authors (write_of write) self.old
            (quiet (base_at F.log F.authors self.old) (Some (declined refused))) out.new self.new) }
        ensures refused { IfErr result (λ e. Fails F.log F.authors (write_of write) self.old
            (quiet (base_at F.log F.authors self.old) (Some (declined refused)))
            e out.new self.new) }
        ensures moved { result ≢ Err Refused.NoMemory }
        ensures edges { length out.new.edges ≡ length out.old.edges }
    {
        let Ok(mut front) = F::of(&self.right, alloc) else {
            decline(write, Refused::NoMemory, None, out);
            return Ok(());
        };
        match front.look(alloc, words) {
            Err(_) => {
                decline(write, Refused::NoMemory, None, out);
                Ok(())
            }
            Ok(Found::Here) => {
                answer(write, Some(refused), 0, Some(front), out);
                Ok(())
            }
            Ok(Found::Moved(longer)) => {
                self.stopped = true;
                decline(write, Refused::Stopped, Some(longer), out);
                Err(Refused::Stopped)
            }
        }
    }

    /// Appends the entry of a write that the log allows, all room made before, and sends each stage
    /// shard its packet with its part of the records. Errors: `Stopped` where the log has gone on
    /// without the domain; `NoMemory` where it was refused after the step, and then the write is
    /// answered and no packet is put out. Both stop the domain.
    fn accept(
        &mut self,
        alloc: Global,
        words: &F::Words,
        write: Write,
        parts: Option<StageParts<F>>,
        out: &mut Outbox<F>,
    ) -> Result<(), Refused>
        requires ready { IsReady F.log self.old out.old }
        requires of { IsFor (F.log self.old.front) (length self.old.next) (write_of write) }
        requires parts { parts ≡ parts_in (F.log self.old.front) (change_of write.entry) }
        requires turn { IfSome parts (λ ps. IsTurn (F.log self.old.front)
            (change_of write.entry)) }
        requires rises { next_of write.session (F.authors self.old.front) ≤ write.number }
        requires free { refusal_at (F.log self.old.front) (change_of write.entry) ≡ None }
        requires key { HasKey (layout_of (F.log self.old.front).plan
            (F.log self.old.front).base).key (change_of write.entry) }
        ensures done { OnOk result (Goes F.log F.authors (write_of write) self.old
            (appended (base_at F.log F.authors self.old) write.session write.number
            (change_of write.entry)) out.new self.new) }
        ensures refused { IfErr result (λ e. Fails F.log F.authors (write_of write) self.old
            (appended (base_at F.log F.authors self.old) write.session write.number
            (change_of write.entry)) e out.new self.new) }
        ensures memory { result ≡ Err Refused.NoMemory → F.may_refuse }
        ensures edges { length out.new.edges ≡ length out.old.edges }
    {
        let Ok(kept) = ready_for(alloc, &mut self.shard, &write.entry, out) else {
            decline(write, Refused::NoMemory, None, out);
            return Ok(());
        };
        let index = self.shard.len();
        match F::append(
            &mut self.right,
            alloc,
            words,
            write.session,
            write.number,
            &write.entry,
        ) {
            Ok(Found::Here) => {
                self.next[write.session] = write.number + 1;
                self.shard.commit(kept);
                let told = tell(&self.right, alloc, index, parts, out);
                self.stopped = told.is_err();
                answer_accepted(write, index, told, out)
            }
            Ok(Found::Moved(longer)) => {
                self.stopped = true;
                decline(write, Refused::Stopped, Some(longer), out);
                Err(Refused::Stopped)
            }
            Err(_) => {
                decline(write, Refused::NoMemory, None, out);
                Ok(())
            }
        }
    }

    /// Takes a write. One whose number does not rise changes nothing and has no answer.
    fn write(
        &mut self,
        alloc: Global,
        write: Write,
        words: &F::Words,
        out: &mut Outbox<F>,
    ) -> Result<(), Refused>
        requires ready { IsReady F.log self.old out.old }
        requires of { IsFor (F.log self.old.front) (length self.old.next) (write_of write) }
        ensures done { OnOk result (Goes F.log F.authors (write_of write) self.old
            (step (base_at F.log F.authors self.old) (write_of write)) out.new self.new) }
        ensures refused { IfErr result (λ e. Fails F.log F.authors (write_of write) self.old
            (step (base_at F.log F.authors self.old) (write_of write)) e out.new self.new) }
        ensures memory { result ≡ Err Refused.NoMemory → F.may_refuse }
        ensures edges { length out.new.edges ≡ length out.old.edges }
    {
        if write.number < self.next[write.session] {
            return Ok(());
        }
        let _table = self.plan.table(self.table);
        match weigh(alloc, &self.shard, &write.entry, self.plan, self.table) {
            Ok(Ok(parts)) => self.accept(alloc, words, write, parts, out),
            Ok(Err(refused)) => self.refuse(alloc, words, write, refused, out),
            Err(_) => {
                decline(write, Refused::NoMemory, None, out);
                Ok(())
            }
        }
    }

    /// Takes one message into a clear outbox with an edge to each stage shard of the plan.
    ///
    /// Where all goes well it does just what the step of the protocol says: a request is answered,
    /// a marker is sent on, a write is answered and its packets are sent. A write may instead be
    /// refused for memory, and nothing changes. Errors: `Stopped` where it had stopped, or where
    /// its log has gone on without it, as the front in the reply shows; `NoMemory` where that was
    /// refused for a packet, and then the reply to a write says that it was accepted. A write comes
    /// to that only over fronts that may be refused for memory: all other room is made before its
    /// entry is appended. After an error nothing is on the edges, and it has stopped. Cost: for a
    /// write, that of `BaseShard::reserve`, `reserve_indexes` and `commit`, and of one
    /// `check_changes`, or of one `check` where the table is none of the stage; for a request, that
    /// of `BaseShard::lookup`, which from an append that was refused for memory to the next insert
    /// or update looks at each row.
    pub fn receive(
        &mut self,
        alloc: Global,
        words: &F::Words,
        message: ToBase,
        out: &mut Outbox<F>,
    ) -> Result<(), Refused>
        requires ready { IsClear out.old }
        requires edges { length out.old.edges ≡ (F.log self.old.front).plan.stages }
        requires of { IsFor (F.log self.old.front) (length self.old.next) (message_of message) }
        ensures done { OnOk result (Goes F.log F.authors (message_of message) self.old
            (step (base_at F.log F.authors self.old) (message_of message)) out.new self.new) }
        ensures stopped { self.old.stopped ≡ true → (result ≡ Err Refused.Stopped)
            × (self.new ≡ self.old) × IsAnswered (message_of message) Refused.Stopped out.new }
        ensures refused { self.old.stopped ≡ false → IfErr result (λ e. Fails F.log F.authors
            (message_of message) self.old (step (base_at F.log F.authors self.old)
            (message_of message)) e out.new self.new) }
        ensures memory { IsWrite (message_of message) → result ≡ Err Refused.NoMemory
            → F.may_refuse }
        ensures place { Stays F.log self.old self.new }
        ensures edges { length out.new.edges ≡ length out.old.edges }
    {
        if self.stopped {
            turn_away(message, out);
            return Err(Refused::Stopped);
        }
        match message {
            ToBase::Write(write) => self.write(alloc, write, words, out),
            ToBase::Request { stage, request } => self.answer_request(alloc, stage, request, out),
            ToBase::Marker(marker) => self.pass_marker(alloc, marker, out),
        }
    }
}

/// The shard of a table without rows. Where the table is the right one of the stage it finds rows
/// by the key of that side, by which stage shards ask. Errors: memory only.
fn no_rows(alloc: Global, plan: &Plan, table: usize) -> Result<BaseShard, AllocError>
    requires { table < length plan.now.tables }
    ensures empty { IfOk result (λ s. s ≡ record {
      key = (table_at plan.now table).key;
      limit = limit;
      rows = [];
      length = 0;
      room = None;
    }) }
    ensures front { IfOk result (λ s. IsAt s []) }
{
    let key = plan.table(table).key();
    match plan.right() {
        Some(side) if side.table() == table => {
            BaseShard::with_indexes(alloc, key, LIMIT, &[side.key()])
        }
        _ => Ok(BaseShard::new(alloc, key, LIMIT)),
    }
}
