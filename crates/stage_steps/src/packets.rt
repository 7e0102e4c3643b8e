//! The packets of a stage shard to view shards.
ghost use Rattle.std.specs.Prelude.{◌≡◌, ◌<◌, ◌++◌, filter, map, length, IfOk, OnOk};
ghost use Rattle.row.specs.Cells.{datum_of};
ghost use Rattle.packet.specs.{Codes.mark_in, Lines.AreOf, Lines.entries_of, Readers.Reader as ReaderView, Readers.is_of, Readers.readers, Readers.readers_of, Truth.IsTrueStage};
ghost use Rattle.stage_steps.specs.Told.{evicts_at, is_told, names_in, told, told_if};

use crate::keyed::keyed_for;
use model::fronts::Fronts;
use packet::line::Line;
use packet::reader::Reader;
use packet::request::Marker;
use packet::stage_packet::{Content, StagePacket};
use plan::plan::Plan;
use row::record::Record;
use row::value::{Value, shard_of};
use std::alloc::{AllocError, Global};

/// What a stage shard tells view shards between two lines: records of its output, for each view the
/// keys of which it cannot tell, and a marker.
#[derive(Drop)]
pub(crate) struct News<'a, F: Fronts> {
    pub plan: &'a Plan,
    pub stage: usize,
    pub from: &'a Line<F>,
    pub to: &'a Line<F>,
    pub records: &'a [Record],
    pub names: &'a [Vec<Value>],
    pub marker: Option<Marker>,
}

/// A packet to each shard of each view, view by view, with what of the news is its own; where not
/// each is to be told, none to those of whose keys it can tell all. Errors: memory only. Cost: for
/// each view a copy of each record, and for each of its shards that is told a look at each record
/// and a copy of the line.
pub(crate) fn packets<'a, F: Fronts>(
    alloc: Global,
    news: &News<'a, F>,
    each: bool,
) -> Result<Vec<Option<StagePacket<F>>>, AllocError>
    requires of { AreOf news.now.plan.now news.now.to.now }
    requires truth { (r : ReaderView) → r.view < length news.now.plan.now.views
        → IsTrueStage (told news.now.plan.now news.now.stage (entries_of news.now.from.now)
        (entries_of news.now.to.now) news.now.records.now (names_in news.now.names.now)
        (mark_in news.now.marker) r) }
    ensures { IfOk result (λ v. v.items ≡ map (told_if each news.now.plan.now news.now.stage
        (entries_of news.now.from.now) (entries_of news.now.to.now) news.now.records.now
        (names_in news.now.names.now) (mark_in news.now.marker)) (readers news.now.plan.now)) }
{
    let mut all = Vec::new(alloc);
    for view in 0..news.plan.views() {
        push_view(&mut all, alloc, news, each, view)?;
    }
    Ok(all)
}

/// Adds a packet to each shard of the view.
fn push_view<'a, F: Fronts>(
    all: &mut Vec<Option<StagePacket<F>>>,
    alloc: Global,
    news: &News<'a, F>,
    each: bool,
    view: usize,
) -> Result<(), AllocError>
    requires there { view < length news.now.plan.now.views }
    requires of { AreOf news.now.plan.now news.now.to.now }
    requires truth { (r : ReaderView) → r.view < length news.now.plan.now.views
        → IsTrueStage (told news.now.plan.now news.now.stage (entries_of news.now.from.now)
        (entries_of news.now.to.now) news.now.records.now (names_in news.now.names.now)
        (mark_in news.now.marker) r) }
    ensures { OnOk result (all.new.items ≡ all.old.items ++ map (told_if each news.now.plan.now
        news.now.stage (entries_of news.now.from.now) (entries_of news.now.to.now)
        news.now.records.now (names_in news.now.names.now) (mark_in news.now.marker))
        (readers_of news.now.plan.now view)) }
{
    let shards = news.plan.view(view).shards();
    all.reserve_exact(shards)?;
    for shard in 0..shards {
        let packet = packet_to(alloc, news, each, Reader { view, shard })?;
        all.push(packet)?;
    }
    Ok(())
}

/// The packet to one shard of a view, if it is told.
fn packet_to<'a, F: Fronts>(
    alloc: Global,
    news: &News<'a, F>,
    each: bool,
    reader: Reader,
) -> Result<Option<StagePacket<F>>, AllocError>
    requires there { reader.view < length news.now.plan.now.views }
    requires of { AreOf news.now.plan.now news.now.to.now }
    requires truth { IsTrueStage (told news.now.plan.now news.now.stage
        (entries_of news.now.from.now) (entries_of news.now.to.now) news.now.records.now
        (names_in news.now.names.now) (mark_in news.now.marker)
        (record { view = reader.view; shard = reader.shard })) }
    ensures { IfOk result (λ x. x ≡ told_if each news.now.plan.now news.now.stage
        (entries_of news.now.from.now) (entries_of news.now.to.now) news.now.records.now
        (names_in news.now.names.now) (mark_in news.now.marker)
        (record { view = reader.view; shard = reader.shard })) }
{
    news.plan.keeps_profile();
    let evicts = evicts_to(alloc, news.plan, news.names, reader)?;
    if !is_told(each, &evicts) {
        return Ok(None);
    }
    let column = news.plan.key_place(reader.view);
    let shards = news.plan.view(reader.view).shards();
    let content = Content {
        changes: keyed_for(alloc, column, shards, reader.shard, news.records, &evicts)?,
        evicts,
        piece: None,
        marker: news.marker,
    };
    let lengths = news.from.lengths(alloc)?;
    Ok(Some(StagePacket::new(
        alloc,
        news.stage,
        reader,
        lengths,
        news.to.try_clone(alloc)?,
        content,
    )?))
}

/// Whether a packet that evicts these keys is told.
fn is_told(each: bool, evicts: &[Value]) -> bool
    ensures { result ≡ is_told each (map datum_of evicts.now) }
{
    each || !evicts.is_empty()
}

/// The keys of the view shard among the names of its view.
fn evicts_to(
    alloc: Global,
    plan: &Plan,
    names: &[Vec<Value>],
    reader: Reader,
) -> Result<Vec<Value>, AllocError>
    requires there { reader.view < length plan.now.views }
    ensures { IfOk result (λ v. map datum_of v.items ≡ evicts_at plan.now (names_in names.now)
        (record { view = reader.view; shard = reader.shard })) }
{
    match names.get(reader.view) {
        Some(names) => of_shard(alloc, plan, names, reader),
        None => Ok(Vec::new(alloc)),
    }
}

/// Those of the keys that are of the view shard.
fn of_shard(
    alloc: Global,
    plan: &Plan,
    keys: &[Value],
    reader: Reader,
) -> Result<Vec<Value>, AllocError>
    requires there { reader.view < length plan.now.views }
    ensures { IfOk result (λ v. map datum_of v.items ≡ filter (λ k. is_of plan.now reader.view k
        (record { view = reader.view; shard = reader.shard })) (map datum_of keys.now)) }
{
    plan.keeps_profile();
    let shards = plan.view(reader.view).shards();
    let mut own = Vec::new(alloc);
    for key in keys {
        if shard_of(key, shards) == reader.shard {
            own.push(key.try_clone(alloc)?)?;
        }
    }
    Ok(own)
}
