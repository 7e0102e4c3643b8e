//! The packet of an entry.
ghost use Rattle.std.specs.Prelude.{◌≡◌, IfOk, List, None, OnOk, Some, map, slice_get, slice_set, true};
ghost use Rattle.row.specs.declared.record.Record.{Record as RecordView};
ghost use Rattle.packet.specs.{Lines.AreOf, Lines.entries_of, Readers.readers, Truth.IsLine};
ghost use Rattle.protocol.specs.{StageSteps.entry_taken, StageSteps.next, Stages.Done};
ghost use Rattle.right_rows.specs.Rights.{keys_in};
ghost use Rattle.stage_sides.specs.{Held.AreFound, Held.CanTakeAll, Held.untold_lefts, Kept.kept_at};
ghost use Rattle.stage_steps.specs.{Outboxes.AreEdges, Rows.IsChanged, Rows.IsSeen, Shards.HoldsRows, Shards.IsFrom, Shards.IsPut, Shards.IsSame, Shards.IsWhole, Shards.entry_names, Sides.names_of, Sides.passing_at, Sides.passing_of, Sides.right_source, Sides.source_side, Told.names_in, Told.told_if};

use crate::outbox::StageOutbox;
use crate::packets::{News, packets};
use crate::shard::StageShard;
use model::fronts::Fronts;
use ops::side::Side;
use packet::base_packet::BasePacket;
use packet::line::Line;
use packet::stage_packet::StagePacket;
use plan::plan::Plan;
use plan::stage::Side as SidePlan;
use row::record::Record;
use row::value::Value;
use stage_sides::rows::StageRows;
use std::alloc::{AllocError, Global};

impl<'p, F: Fronts> StageShard<'p, F> {
    /// Takes the packet of an entry, which starts at the front that the line has of its source: the
    /// rows of its side change, the front goes on, and each view shard gets a packet from the old
    /// line to the new. It evicts the keys whose change cannot be told, since right rows of some of
    /// their stage keys are not here. Errors: memory only; then nothing is said of the rows, and
    /// some are told. Cost: that of `StageRows::untold` for each view, that of `StageRows::change`,
    /// and for each view shard a look at each record of the output and a copy of the line.
    pub(crate) fn take_entry(
        &mut self,
        alloc: Global,
        source: usize,
        packet: BasePacket<F>,
        out: &mut StageOutbox<F>,
    ) -> Result<(), AllocError>
        requires whole { IsWhole self.old }
        requires edges { AreEdges self.old.plan out.old }
        requires from { IsFrom self.old.plan self.old.shard source packet }
        requires next { slice_get (entries_of self.old.line) source ≡ Some packet.from }
        ensures whole { OnOk result (IsWhole self.new) }
        ensures edges { AreEdges self.old.plan out.new }
        ensures same { IsSame self.old self.new }
        ensures done { (d : Done) → IsPut d out.old self.old
            → OnOk result (IsPut (next d (λ s. entry_taken s source packet)) out.new self.new) }
    {
        let rows = &mut self.rows;
        let (to, told) = entry_packets(
            alloc, self.plan, self.shard, rows, &self.line, source, packet,
        )?;
        out.tell(told)?;
        self.line = to;
        Ok(())
    }
}

/// Changes the rows, and answers the line with the packet's front, and the packet to each view
/// shard.
fn entry_packets<'p, F: Fronts>(
    alloc: Global,
    plan: &Plan,
    stage: usize,
    rows: &mut StageRows<'p>,
    line: &Line<F>,
    source: usize,
    packet: BasePacket<F>,
) -> Result<(Line<F>, Vec<Option<StagePacket<F>>>), AllocError>
    requires holds { HoldsRows plan.now stage (entries_of line.now) rows.old }
    requires line { IsLine plan.now (entries_of line.now) }
    requires of { AreOf plan.now line.now }
    requires from { IsFrom plan.now stage source packet }
    requires next { slice_get (entries_of line.now) source ≡ Some packet.from }
    ensures moved { IfOk result (λ m. entries_of m.0
        ≡ slice_set (entries_of line.now) source packet.to) }
    ensures line { IfOk result (λ m. IsLine plan.now (entries_of m.0)) }
    ensures of { IfOk result (λ m. AreOf plan.now m.0) }
    ensures holds { OnOk result (HoldsRows plan.now stage
        (slice_set (entries_of line.now) source packet.to) rows.new) }
    ensures keys { keys_in rows.new.right ≡ keys_in rows.old.right }
    ensures told { IfOk result (λ m. (records : List RecordView) × (m.1.items
        ≡ map (told_if true plan.now stage (entries_of line.now)
        (slice_set (entries_of line.now) source packet.to) records
        (entry_names plan.now stage (entries_of line.now) (keys_in rows.old.right) source
        packet.changes) None) (readers plan.now))) }
{
    plan.keeps_profile();
    keeps_order(rows);
    let side = source_side(plan, source);
    let (front, changes, _) = packet.into_parts();
    front.is_log();
    let records = passing(plan, side, changes);
    let names = names(alloc, rows, plan, side, &records)?;
    let changes = change(rows, alloc, side, right_source(plan, source), records)?;
    keeps_order(rows);
    let mut to = line.try_clone(alloc)?;
    to.set(source, front);
    let news = News {
        plan,
        stage,
        from: line,
        to: &to,
        records: &changes,
        names: &names,
        marker: None,
    };
    let told = packets(alloc, &news, true)?;
    Ok((to, told))
}

/// What the rows keep, and of a key that is not here there is no row. Does nothing: a caller learns
/// it.
fn keeps_order<'p>(rows: &StageRows<'p>)
    ensures { IsSeen rows.now }
{
    rows.keeps_order();
}

/// Changes the rows of the side by those of the records that it takes, and answers what that
/// changes of the output over the rows that are here.
fn change<'p>(
    rows: &mut StageRows<'p>,
    alloc: Global,
    side: Side,
    source: usize,
    records: Vec<Record>,
) -> Result<Vec<Record>, AllocError>
    requires found { AreFound rows.old }
    requires covered { CanTakeAll side source (kept_at rows.old.plan side records.items) rows.old }
    ensures changed { IfOk result (λ v. IsChanged side source records.items rows.old rows.new
        v.items) }
    ensures keys { keys_in rows.new.right ≡ keys_in rows.old.right }
{
    let records = rows.kept(side, records);
    rows.change(alloc, side, source, records)
}

/// For each view the keys of the left rows that the records stand for where not all right rows of
/// their stage key are here, in order and each once. Errors: memory only.
fn names<'p>(
    alloc: Global,
    rows: &StageRows<'p>,
    plan: &Plan,
    side: Side,
    records: &[Record],
) -> Result<Vec<Vec<Value>>, AllocError>
    requires plan { rows.now.plan ≡ plan.now }
    ensures { IfOk result (λ v. names_in v.items ≡ names_of plan.now
        (untold_lefts side rows.now records.now)) }
{
    let mut names = Vec::new(alloc);
    for view in 0..plan.views() {
        names.push(rows.untold(alloc, side, view, records)?)?;
    }
    Ok(names)
}

/// The side of the stage that a source is of.
fn source_side(plan: &Plan, source: usize) -> Side
    ensures { result ≡ source_side plan.now source }
{
    plan.keeps_profile();
    if source < plan.table(plan.left().table()).shards() {
        Side::Left
    } else {
        Side::Right
    }
}

/// Which of the right sources it is.
pub(crate) fn right_source(plan: &Plan, source: usize) -> usize
    ensures { result ≡ right_source plan.now source }
{
    plan.keeps_profile();
    source.saturating_sub(plan.table(plan.left().table()).shards())
}

/// Of these records those of rows for which the side's conditions hold, in their order; none where
/// there is no such side. Takes no memory. Cost: a look at each cell of each row.
fn passing(plan: &Plan, side: Side, mut records: Vec<Record>) -> Vec<Record>
    ensures { result.items ≡ passing_at plan.now side records.items }
{
    plan.keeps_profile();
    match side {
        Side::Left => passing_of(plan.left(), records),
        Side::Right => match plan.right() {
            Some(side) => passing_of(side, records),
            None => {
                records.clear();
                records
            }
        },
    }
}

/// Those of the side of the plan.
fn passing_of(side: &SidePlan, mut records: Vec<Record>) -> Vec<Record>
    ensures { result.items ≡ passing_of side.now records.items }
{
    records.retain(|record| side.pass(&record.row));
    records
}
