//! The requests that wait at a stage shard: the look at each, the stage keys that it asks for, and
//! its answer.
ghost use Rattle.std.specs.Prelude.{◌≡◌, ◌<◌, ◌∷◌, [], IfOk, OnOk, length, map, true};
ghost use Rattle.std.specs.List.{list_all};
ghost use Rattle.row.specs.{Bags.Each, Cells.datum_of};
ghost use Rattle.ops.specs.SideRows.{is_here};
ghost use Rattle.packet.specs.{Lines.entries_of, Outboxes.packets_on, Readers.view_of};
ghost use Rattle.protocol.specs.{Stages.Done, Stages.behind, Stages.knows, StageSteps.answered, StageSteps.append_each, StageSteps.asks, StageSteps.asks_for, StageSteps.look, StageSteps.looks, StageSteps.next};
ghost use Rattle.stage_steps.specs.{Outboxes.AreEdges, Shards.IsPut, Shards.IsSame, Shards.IsWhole, Shards.HasBegun, Shards.given, Shards.stage_of, Told.answer_of};

use crate::edges::{edge_to, view_of};
use crate::outbox::StageOutbox;
use crate::shard::StageShard;
use model::fronts::Fronts;
use packet::piece::Piece;
use packet::reader::Reader;
use packet::request::Request;
use packet::stage_packet::{Content, StagePacket};
use plan::domain::Tag;
use plan::plan::Plan;
use row::value::{Value, shard_of};
use stage_sides::rows::StageRows;
use std::alloc::{AllocError, Global};
use std::mem;

impl<'p, F: Fronts> StageShard<'p, F> {
    /// Looks at each request that waits, in order of arrival: the stage keys behind its key begin
    /// to wait where they are holes, and each right source is asked for those; where all right rows
    /// of all of them are here it is answered with one packet to the view shard of its key, else it
    /// waits on. Errors: memory only; then nothing is said of the shard, and some are told or
    /// asked. Cost: for each request at most three look-ups by hash for each left row of its key, and
    /// where one of the stage keys is a hole as many again and two copies of each; for a key that
    /// begins to wait one look-up more, the number of sources, and a copy of it for each right source;
    /// for an answer that of `StageRows::piece` and a copy of the line.
    pub(crate) fn look(&mut self, alloc: Global, out: &mut StageOutbox<F>) -> Result<(), AllocError>
        requires whole { IsWhole self.old }
        requires edges { AreEdges self.old.plan out.old }
        ensures whole { OnOk result (IsWhole self.new) }
        ensures edges { AreEdges self.old.plan out.new }
        ensures same { IsSame self.old self.new }
        ensures done { (d : Done) → IsPut d out.old self.old
            → OnOk result (IsPut (next d looks) out.new self.new) }
    {
        let pending = mem::replace(&mut self.pending, Vec::new(alloc));
        for ask in pending {
            self.look_at(alloc, ask, out)?;
        }
        Ok(())
    }

    /// Looks at one request. Where all is here it is answered, and where no key is a hole it waits
    /// on, with no list of the keys.
    pub(crate) fn look_at(
        &mut self,
        alloc: Global,
        ask: Request,
        out: &mut StageOutbox<F>,
    ) -> Result<(), AllocError>
        requires whole { IsWhole self.old }
        requires edges { AreEdges self.old.plan out.old }
        requires there { view_of ask.tag < length self.old.plan.views }
        ensures whole { OnOk result (IsWhole self.new) }
        ensures edges { AreEdges self.old.plan out.new }
        ensures same { IsSame self.old self.new }
        ensures done { (d : Done) → IsPut d out.old self.old
            → OnOk result (IsPut (next d (λ s. look s ask)) out.new self.new) }
    {
        self.rows.keeps_order();
        let view = view_of(ask.tag());
        if self.rows.knows_behind(view, ask.key()) {
            return self.give(alloc, ask, out);
        }
        if self.rows.has_begun_behind(view, ask.key()) {
            self.pending.push(ask)?;
            return Ok(());
        }
        let needed = self.rows.behind(alloc, view, ask.key())?;
        self.ask_for(alloc, &needed, out)?;
        self.answer(alloc, ask, &needed, out)
    }

    /// Answers each request that waits and lacks nothing any more, in order of arrival, where none
    /// of the stage keys behind it is a hole. Errors: memory only; then nothing is said of the shard,
    /// and some are told. Cost: for each request a look-up by hash, and one for each left row of its
    /// key; for an answer that of `StageRows::piece` and a copy of the line.
    pub(crate) fn answer_ready(
        &mut self,
        alloc: Global,
        out: &mut StageOutbox<F>,
    ) -> Result<(), AllocError>
        requires whole { IsWhole self.old }
        requires edges { AreEdges self.old.plan out.old }
        requires begun { Each (HasBegun (stage_of self.old)) self.old.pending }
        ensures whole { OnOk result (IsWhole self.new) }
        ensures edges { AreEdges self.old.plan out.new }
        ensures same { IsSame self.old self.new }
        ensures done { (d : Done) → IsPut d out.old self.old
            → OnOk result (IsPut (next d looks) out.new self.new) }
    {
        let pending = mem::replace(&mut self.pending, Vec::new(alloc));
        for ask in pending {
            self.answer_or_wait(alloc, ask, out)?;
        }
        Ok(())
    }

    /// Answers a request that lacks nothing, and lets any other wait on.
    fn answer_or_wait(
        &mut self,
        alloc: Global,
        ask: Request,
        out: &mut StageOutbox<F>,
    ) -> Result<(), AllocError>
        requires whole { IsWhole self.old }
        requires edges { AreEdges self.old.plan out.old }
        requires there { view_of ask.tag < length self.old.plan.views }
        requires begun { HasBegun (stage_of self.old) ask }
        ensures whole { OnOk result (IsWhole self.new) }
        ensures edges { AreEdges self.old.plan out.new }
        ensures same { IsSame self.old self.new }
        ensures others { self.new ≡ record self.old { pending = self.new.pending } }
        ensures done { (d : Done) → IsPut d out.old self.old
            → OnOk result (IsPut (next d (λ s. look s ask)) out.new self.new) }
    {
        self.rows.keeps_order();
        let view = view_of(ask.tag());
        if self.rows.knows_behind(view, ask.key()) {
            return self.give(alloc, ask, out);
        }
        self.pending.push(ask)?;
        Ok(())
    }

    /// Asks each right source for those of the stage keys that are holes, which begin to wait.
    fn ask_for(
        &mut self,
        alloc: Global,
        keys: &[Value],
        out: &mut StageOutbox<F>,
    ) -> Result<(), AllocError>
        requires whole { IsWhole self.old }
        requires edges { AreEdges self.old.plan out.old }
        ensures whole { OnOk result (IsWhole self.new) }
        ensures edges { AreEdges self.old.plan out.new }
        ensures others { self.new ≡ record self.old { rows = self.new.rows } }
        ensures lefts { self.new.rows
            ≡ record self.old.rows { right = self.new.rows.right } }
        ensures done { (d : Done) → IsPut d out.old self.old → OnOk result (IsPut
            (next d (λ s. asks s (map datum_of keys.now))) out.new self.new) }
    {
        for key in keys {
            self.ask_one(alloc, key, out)?;
        }
        Ok(())
    }

    /// Asks each right source for a stage key, if it is a hole, and has it wait.
    fn ask_one(
        &mut self,
        alloc: Global,
        key: &Value,
        out: &mut StageOutbox<F>,
    ) -> Result<(), AllocError>
        requires whole { IsWhole self.old }
        requires edges { AreEdges self.old.plan out.old }
        ensures whole { OnOk result (IsWhole self.new) }
        ensures edges { AreEdges self.old.plan out.new }
        ensures others { self.new ≡ record self.old { rows = self.new.rows } }
        ensures lefts { self.new.rows
            ≡ record self.old.rows { right = self.new.rows.right } }
        ensures done { (d : Done) → IsPut d out.old self.old → OnOk result (IsPut
            (next d (λ s. asks s (datum_of key.now ∷ []))) out.new self.new) }
    {
        if !self.rows.begin(alloc, key)? {
            return Ok(());
        }
        ask_sources(alloc, self.plan, key, out)
    }

    /// Answers a request, if all right rows of the stage keys that it needs are here; else it
    /// waits.
    fn answer(
        &mut self,
        alloc: Global,
        ask: Request,
        needed: &[Value],
        out: &mut StageOutbox<F>,
    ) -> Result<(), AllocError>
        requires whole { IsWhole self.old }
        requires edges { AreEdges self.old.plan out.old }
        requires there { view_of ask.tag < length self.old.plan.views }
        requires needed { map datum_of needed.now
            ≡ behind (stage_of self.old) (view_of ask.tag) ask.key }
        ensures whole { OnOk result (IsWhole self.new) }
        ensures edges { AreEdges self.old.plan out.new }
        ensures same { IsSame self.old self.new }
        ensures done { (d : Done) → IsPut d out.old self.old → OnOk result (IsPut
            (next d (λ s. answered s ask (map datum_of needed.now))) out.new self.new) }
    {
        self.rows.keeps_order();
        if knows_all(&self.rows, needed) {
            return self.give(alloc, ask, out);
        }
        self.pending.push(ask)?;
        Ok(())
    }

    /// Answers a request with one packet to the view shard of its key.
    fn give(&self, alloc: Global, ask: Request, out: &mut StageOutbox<F>) -> Result<(), AllocError>
        requires whole { IsWhole self.now }
        requires edges { AreEdges self.now.plan out.old }
        requires there { view_of ask.tag < length self.now.plan.views }
        requires known { list_all (knows (stage_of self.now).right)
            (behind (stage_of self.now) (view_of ask.tag) ask.key) ≡ true }
        ensures edges { AreEdges self.now.plan out.new }
        ensures done { (d : Done) → IsPut d out.old self.now
            → OnOk result (IsPut (next d (λ s. given s ask)) out.new self.now) }
    {
        self.plan.keeps_profile();
        let view = view_of(ask.tag());
        let shard = shard_of(ask.key(), self.plan.view(view).shards());
        let reader = Reader { view, shard };
        let packet = self.piece(alloc, reader, ask)?;
        out.tell_one(edge_to(self.plan, reader), Some(packet))
    }

    /// The packet that answers a request.
    fn piece(
        &self,
        alloc: Global,
        reader: Reader,
        ask: Request,
    ) -> Result<StagePacket<F>, AllocError>
        requires whole { IsWhole self.now }
        requires there { reader.view < length self.now.plan.views }
        requires known { list_all (knows (stage_of self.now).right)
            (behind (stage_of self.now) reader.view ask.key) ≡ true }
        ensures { IfOk result (λ x. x ≡ answer_of self.now.plan self.now.shard
            (entries_of self.now.line) ask.tag reader.view reader.shard ask.key) }
    {
        self.plan.keeps_profile();
        self.rows.keeps_order();
        let rows = self.rows.piece(alloc, reader.view, ask.key())?;
        let tag = ask.tag();
        let content = Content {
            changes: Vec::new(alloc),
            evicts: Vec::new(alloc),
            piece: Some(Piece::new(tag, ask.into_key(), rows)),
            marker: None,
        };
        let lengths = self.line.lengths(alloc)?;
        let line = self.line.try_clone(alloc)?;
        StagePacket::new(alloc, self.shard, reader, lengths, line, content)
    }
}

/// Asks each right source for a stage key, behind what it is asked for already. Errors: memory
/// only; then some are asked. Cost: a copy of the key for each.
fn ask_sources<F: Fronts>(
    alloc: Global,
    plan: &Plan,
    key: &Value,
    out: &mut StageOutbox<F>,
) -> Result<(), AllocError>
    requires edges { AreEdges plan.now out.old }
    ensures edges { AreEdges plan.now out.new }
    ensures packets { out.new.packets ≡ out.old.packets }
    ensures asked { OnOk result (packets_on out.new.requests ≡ append_each
        (packets_on out.old.requests) (asks_for plan.now (datum_of key.now ∷ []))) }
{
    plan.keeps_profile();
    let lefts = plan.table(plan.left().table()).shards();
    for source in lefts..out.sources() {
        let request = Request::new(Tag(0), key.try_clone(alloc)?);
        out.ask(source, request)?;
    }
    Ok(())
}

/// Whether all right rows of each of these stage keys are here.
fn knows_all<'p>(rows: &StageRows<'p>, keys: &[Value]) -> bool
    ensures { result ≡ list_all (λ k. is_here rows.now.right (datum_of k)) keys.now }
{
    keys.iter().all(|key| rows.knows(key))
}
