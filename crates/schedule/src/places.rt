//! Where the domains and edges of a plan stand.
ghost use Rattle.std.specs.Prelude.{◌≡◌, ◌<◌, true, false, map, length, position, slice_get, Some, None, IfOk, IfSome, IfNone};
ghost use Rattle.std.specs.Option.{option_map};
ghost use Rattle.row.specs.Cells.{datum_of, shard};
ghost use Rattle.plan.specs.Layouts.{table_at};
ghost use Rattle.model.specs.{Entries.change_of, Histories.view_shard, Logs.fits, Logs.key_of, Places.base_count, Places.shard_of, Places.source_at, Places.sources, Places.table_of};
ghost use Rattle.base.specs.Shards.{HasKey};
ghost use Rattle.packet.specs.Readers.{readers};
ghost use Rattle.protocol.specs.{Edges.is_domain, Edges.is_edge, Edges.is_there, Edges.place_or, Edges.reader_place, Edges.source_place, Edges.wire_at, Edges.wire_of, Edges.wires, WorldSteps.base_for, WorldSteps.reader_of};
ghost use Rattle.schedule.specs.Codes.{reader_in, spot_of, wire_in};

use crate::readers::{place_of, readers};
use crate::wire::{Spot, Wire, wires};
use model::entry::Entry;
use model::places::{base_at, sources};
use packet::reader::Reader;
use plan::domain::{DomainId, Edge};
use plan::plan::Plan;
use row::value::{Value, shard_of};
use std::alloc::{AllocError, Global};
use std::marker::Model;

/// Where the domains and edges of a plan stand, found once.
pub struct Places<'p> {
    plan: &'p Plan,
    sources: Vec<usize>,
    readers: Vec<Reader>,
    edges: Vec<Edge>,
    wires: Vec<Wire>,
}

// What holds one drops it by this call, and need not know its parts.
impl Drop for Places<'_> {
    fn drop(self) {
        let Places {
            plan: _,
            sources: _,
            readers: _,
            edges: _,
            wires: _,
        } = self;
    }
}

impl<'p> Model for Places<'p> {
    ghost use Rattle.plan.specs.Layouts.{Layout};
    ghost use Rattle.schedule.specs.Placed.{AreOf};

    ghost Value = { Layout };

    ghost view = { λ v. v.plan.now };

    ghost invariant = { λ v. AreOf v.plan.now v.sources.items v.readers.items v.edges.items
        v.wires.items };
}

impl<'p> Places<'p> {
    /// The places of a plan. Errors: memory only. Cost: a look at each edge.
    pub fn new(alloc: Global, plan: &'p Plan) -> Result<Places<'p>, AllocError>
        ensures { IfOk result (λ p. p ≡ plan.now) }
    {
        let sources = sources(alloc, plan)?;
        let readers = readers(alloc, plan)?;
        let edges = plan.edges(alloc)?;
        let wires = wires(alloc, sources.len(), plan.stages(), readers.len())?;
        Ok(Places {
            plan,
            sources,
            readers,
            edges,
            wires,
        })
    }

    /// The plan.
    pub fn plan(&self) -> &'p Plan
        ensures { result.now ≡ self.now }
    {
        self.plan
    }

    /// The base shards that are sources of the stage.
    pub fn sources(&self) -> &[usize]
        ensures { result.now ≡ sources self.now }
    {
        &self.sources
    }

    /// The shards of the views, view by view.
    pub fn readers(&self) -> &[Reader]
        ensures { map reader_in result.now ≡ readers self.now }
    {
        &self.readers
    }

    /// The edges, in the order of the plan's.
    pub fn wires(&self) -> &[Wire]
        ensures { map wire_in result.now ≡ wires self.now }
    {
        &self.wires
    }

    /// The edge of the plan that it is, if it is one. Cost: a look at each edge.
    pub fn wire(&self, edge: Option<Edge>) -> Option<Wire>
        ensures { option_map wire_in result ≡ wire_of self.now edge }
    {
        match edge {
            Some(edge) => self.wire_at(edge_place(&self.edges, edge)),
            None => None,
        }
    }

    /// The edge at a place of the plan's.
    fn wire_at(&self, place: Option<usize>) -> Option<Wire>
        ensures { option_map wire_in result ≡ wire_at self.now place }
    {
        match place {
            Some(place) => wire_among(&self.wires, place),
            None => None,
        }
    }

    /// Which source a base shard is, if it is one. Cost: a look at each source.
    pub fn source_place(&self, base: usize) -> Option<usize>
        ensures { result ≡ source_place self.now base }
    {
        self.sources.iter().position(|own| *own == base)
    }

    /// The base shard that a source is, or 0 where there is no such source.
    pub fn source_at(&self, source: usize) -> usize
        ensures { result ≡ source_at self.now source }
    {
        self.sources.get(source).copied().unwrap_or(0)
    }

    /// The place of a shard of a view among all view shards, or 0.
    fn reader_place(&self, view: usize, shard: usize) -> usize
        ensures { result ≡ place_or (reader_place self.now view shard) }
    {
        place_of(&self.readers, view, shard).unwrap_or(0)
    }

    /// The place of the view shard that has a key of a view. Cost: a look at each view shard.
    pub fn reader_of(&self, view: usize, key: &Value) -> usize
        requires { view < length self.now.views }
        ensures place { result ≡ reader_of self.now view (datum_of key.now) }
        ensures there { slice_get (readers self.now) result ≡ Some (record {
          view = view;
          shard = view_shard self.now view (datum_of key.now);
        }) }
    {
        self.plan.keeps_profile();
        let shards = self.plan.view(view).shards();
        self.reader_place(view, shard_of(key, shards))
    }

    /// The base shard of a table that has an entry's key. Cost: a look at each table.
    pub fn base_for(&self, table: usize, entry: &Entry) -> usize
        requires table { table < length self.now.tables }
        requires fits { fits (table_at self.now table) (change_of entry.now) ≡ true }
        ensures base { result ≡ base_for self.now table (change_of entry.now) }
        ensures table { table_of self.now result ≡ table }
        ensures shard { shard_of self.now result
            ≡ shard (key_of (table_at self.now table).key (change_of entry.now))
            (table_at self.now table).shards }
        ensures range { result < base_count self.now }
    {
        self.plan.keeps_profile();
        base_at(self.plan, table, entry_shard(self.plan, table, entry))
    }

    /// Where a domain stands, if the plan has it. Takes no memory. Cost: a look at each table or at
    /// each view shard.
    pub fn spot(&self, domain: DomainId) -> Option<Spot>
        ensures there { IfSome result (λ s. (is_there self.now domain ≡ true)
            × (s ≡ spot_of self.now domain)) }
        ensures not { IfNone result (is_there self.now domain ≡ false) }
    {
        if !has_domain(self.plan, domain) {
            return None;
        }
        Some(match domain {
            DomainId::Base(table, shard) => Spot::Base(base_at(self.plan, table, shard)),
            DomainId::Stage(shard) => Spot::Stage(shard),
            DomainId::View(view, shard) => Spot::View(self.reader_place(view, shard)),
        })
    }
}

/// Whether the plan has the domain.
fn has_domain(plan: &Plan, domain: DomainId) -> bool
    ensures { result ≡ is_there plan.now domain }
{
    match domain {
        DomainId::Base(table, shard) => {
            table < plan.tables() && shard < plan.table(table).shards()
        }
        DomainId::Stage(shard) => shard < plan.stages(),
        DomainId::View(view, shard) => view < plan.views() && shard < plan.view(view).shards(),
    }
}

/// Whether the two domains are one.
fn is_domain(domain: DomainId, other: DomainId) -> bool
    ensures { result ≡ is_domain domain other }
{
    domain == other
}

/// The place of an edge among these.
fn edge_place(edges: &[Edge], edge: Edge) -> Option<usize>
    ensures { result ≡ position (is_edge edge) edges.now }
{
    edges.iter().position(|other| is_domain(edge.from, other.from) && is_domain(edge.to, other.to))
}

/// The edge at a place among these, if there is one.
fn wire_among(wires: &[Wire], place: usize) -> Option<Wire>
    ensures { result ≡ slice_get wires.now place }
{
    wires.get(place).copied()
}

/// The shard of the table that has the entry's key. It takes no memory.
pub fn entry_shard(plan: &Plan, table: usize, entry: &Entry) -> usize
    requires table { table < length plan.now.tables }
    requires key { HasKey (table_at plan.now table).key (change_of entry.now) }
    ensures shard { result ≡ shard (key_of (table_at plan.now table).key (change_of entry.now))
        (table_at plan.now table).shards }
    ensures range { result < (table_at plan.now table).shards }
{
    plan.keeps_profile();
    let table = plan.table(table);
    match entry {
        Entry::Insert(row) | Entry::Update(row) => {
            shard_of(row.cell(table.key()).value(), table.shards())
        }
        Entry::Delete(key) => shard_of(key, table.shards()),
    }
}
