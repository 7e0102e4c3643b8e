//! Sessions: what one caller holds of the store.
ghost use Rattle.std.specs.Prelude.{◌≡◌, ◌⊎◌, ◌+◌, ◌<◌, ◌≤◌, ℕ, true, false, length, map, replicate};
ghost use Rattle.std.specs.Prelude.{IfOk, IfErr, IfSome, IsTrue, IsFalse};
ghost use Rattle.std.specs.Prelude.{Some, None, []};
ghost use mathlib.Core.List.{IsPrefix};
ghost use Rattle.row.specs.Cells.{datum_of, shard};
ghost use Rattle.plan.specs.Layouts.{table_at, table_named};
ghost use Rattle.model.specs.{Entries.change_of, Histories.floor_at, Legal.IsLegal, Logs.deletes, Logs.fits, Logs.inserts, Logs.key_of, Logs.updates, Places.base_count, Places.layout_of, Places.shard_of, Refusals.write_refusal};
ghost use Rattle.base.specs.Shards.{HasKey};
ghost use Rattle.protocol.specs.Bases.{last_number};
ghost use Rattle.packet.specs.Readers.{readers as readers_of};

use crate::sights::Sights;
use book::law::Naming;
use book::part::Part;
use book::session::SessionWord;
use calls::write::{Call, Told};
use model::entry::Entry;
use model::places::base_at;
use plan::plan::Plan;
use routes::routes::Routes;
use row::refused::Refused;
use row::row::Row;
use row::value::Value;
use schedule::arguments::write_target;
use schedule::places::entry_shard;
use shown::reader::ShownReader;
use std::alloc::Global;
use std::marker::Model;
use std::sync::{Arc, Wait};

/// Where an accepted write stands: its table's place in the plan, the shard of the table, and the
/// index in that shard's log.
#[derive(Clone, Copy, PartialEq, Eq, Debug)]
pub struct Accepted {
    pub table: usize,
    pub shard: usize,
    pub index: u64,
}

/// What a write comes to: where it stands, or why it is refused.
pub type Written = Result<Accepted, Refused>;

/// What one caller holds of the store. It can move to another thread.
pub struct Session<J: Naming> {
    pub(crate) word: SessionWord<J>,
    pub(crate) number: u64,
    pub(crate) waits: u64,
    pub(crate) stolen: bool,
    pub(crate) seen: Part<J>,
    pub(crate) accepted: Vec<Option<u64>>,
    pub(crate) sights: Sights<J>,
    pub(crate) routes: Arc<Routes<J>>,
}

// What holds one drops it by this call, and need not know its parts.
impl<J: Naming> Drop for Session<J> {
    fn drop(self) {
        let Session {
            word: _,
            number: _,
            waits: _,
            stolen: _,
            seen: _,
            accepted: _,
            sights: _,
            routes: _,
        } = self;
    }
}

impl<J: Naming> Model for Session<J> {
    ghost use Rattle.std.specs.Prelude.{◌≤◌, ◌<◌};
    ghost use Rattle.sessions.specs.Callers.{Caller, IsCaller, IsLooking, caller_with};

    ghost Value = { Caller };

    ghost view = { λ s. caller_with s.word.session s.number s.word.answered s.stolen s.seen
        s.accepted.items s.word.floors s.sights };

    ghost invariant = { λ s. IsCaller J.plan (caller_with s.word.session s.number s.word.answered
        s.stolen s.seen s.accepted.items s.word.floors s.sights)
        × (s.word.answered ≤ s.number)
        × IsLooking J.plan (caller_with s.word.session s.number s.word.answered s.stolen s.seen
        s.accepted.items s.word.floors s.sights)
        × (s.word.session < J.sessions) };
}

impl<J: Naming> Session<J> {
    ghost use Rattle.sessions.specs.{Callers.Caller, Callers.KeepsRest, Callers.reader_of, Inserts.Accepts, Inserts.Declines, Inserts.IsTaken, Inserts.IsUntaken, Inserts.Writes, Inserts.call_refusal, Inserts.stolen_refusal};

    /// The session of this word, which has answered nothing and made no call. It has a reader of
    /// each shard of each view, in order, and has accepted no write in any base shard.
    pub fn new(
        word: SessionWord<J>,
        accepted: Vec<Option<u64>>,
        readers: Vec<ShownReader<J>>,
        routes: Arc<Routes<J>>,
    ) -> Session<J>
        requires range { word.session < J.sessions }
        requires answered { word.answered ≡ 0 }
        requires floors { (v j : ℕ) → floor_at word.floors v j ≡ [] }
        requires accepted { accepted.items ≡ replicate (base_count J.plan) None }
        requires readers { map reader_of readers.items ≡ readers_of J.plan }
        ensures session { result.session ≡ word.session }
        ensures number { result.number ≡ 0 }
        ensures answered { result.answered ≡ 0 }
        ensures unspent { result.stolen ≡ false }
        ensures seen { result.seen ≡ word.seen }
        ensures accepted { result.accepted ≡ accepted.items }
        ensures floors { (v j : ℕ) → floor_at result.floors v j ≡ [] }
        ensures shown { result.shown ≡ readers.items }
    {
        let seen = word.part();
        Session {
            word,
            number: 0,
            waits: 0,
            stolen: false,
            seen,
            accepted,
            sights: Sights::new(readers),
            routes,
        }
    }

    /// The plan.
    pub fn plan(&self) -> &Plan
        ensures { result.now ≡ J.plan }
    {
        self.routes.plan()
    }

    // Whether no call can be made any more.
    pub(crate) fn is_spent(&self) -> bool
        ensures spent { IsTrue result → stolen_refusal self.now ≡ Some Refused.Stolen }
        ensures unspent { IsFalse result → (stolen_refusal self.now ≡ None)
            × (self.now.number < last_number) }
    {
        self.stolen || self.number == u64::MAX
    }

    /// Inserts a row into the table of this name, as one step: accepted, the row's entry stands
    /// once, at the index that the answer names, after all that the session had seen. It waits for
    /// the base shard's reply.
    ///
    /// Refused with, looked for in this order: `Stolen` where the session's call numbers are
    /// spent or its word was found moved before, `UnknownTable`, `BadRow` where the row does not
    /// fit, `Stopped` where the base shard or the store has stopped, `Duplicate` where its key is
    /// there, `LogFull`; `NoMemory` at any place after `BadRow`. A refused call leaves the floors
    /// and what was accepted; after `Duplicate` and `LogFull` the session has seen the log that
    /// decided, else what it had. Cost: a look at each table's name, a copy of the row and one of
    /// its key, one message and one reply.
    pub fn insert<R: Wait>(&mut self, rt: &R, alloc: Global, table: &str, row: Row) -> Written
        ensures { Writes J.plan J.sessions self.old self.new table.now (inserts row) result }
    {
        self.write(rt, alloc, table, Entry::Insert(row))
    }

    /// Puts a row in the place of the row of its key, as `insert`, with `Absent` in the place of
    /// `Duplicate`: where no row has the key.
    pub fn update<R: Wait>(&mut self, rt: &R, alloc: Global, table: &str, row: Row) -> Written
        ensures { Writes J.plan J.sessions self.old self.new table.now (updates row) result }
    {
        self.write(rt, alloc, table, Entry::Update(row))
    }

    /// Takes the row of a key away, as `insert`, with `BadKey` in the place of `BadRow`, where the
    /// key is no cell of the key column, and `Absent` in the place of `Duplicate`, where no row has
    /// it.
    pub fn delete<R: Wait>(&mut self, rt: &R, alloc: Global, table: &str, key: Value) -> Written
        ensures { Writes J.plan J.sessions self.old self.new table.now (deletes (datum_of key))
            result }
    {
        self.write(rt, alloc, table, Entry::Delete(key))
    }

    /// Writes an entry to the table of this name, as `insert`, `update` or `delete` does.
    pub fn write<R: Wait>(&mut self, rt: &R, alloc: Global, table: &str, entry: Entry) -> Written
        ensures { Writes J.plan J.sessions self.old self.new table.now (change_of entry) result }
    {
        let answer = self.write_fitting(rt, alloc, table, entry);
        self.seen.is_legal();
        answer
    }

    // Writes an entry to the table of this name, where it fits the table.
    fn write_fitting<R: Wait>(
        &mut self,
        rt: &R,
        alloc: Global,
        table: &str,
        entry: Entry,
    ) -> Written
        ensures spent { stolen_refusal self.old ≡ Some Refused.Stolen
            → (result ≡ Err Refused.Stolen) × (self.new ≡ self.old) }
        ensures why { IfSome (call_refusal J.plan self.old table.now (change_of entry))
            (λ e. result ≡ Err e) }
        ensures accepted { IfOk result (λ a.
            Accepts J.plan self.old self.new table.now (change_of entry) a) }
        ensures refused { IfErr result (λ e.
            Declines J.plan self.old self.new table.now (change_of entry) e) }
    {
        if self.is_spent() {
            return Err(Refused::Stolen);
        }
        let table = fitting_table(self.plan(), table, &entry)?;
        let shard = entry_shard(self.plan(), table, &entry);
        let base = base_at(self.plan(), table, shard);
        match self.send(rt, alloc, base, entry) {
            Ok(index) => Ok(Accepted {
                table,
                shard,
                index,
            }),
            Err(refused) => Err(refused),
        }
    }

    // Sends an entry that fits its table to its base shard, and gives the index.
    fn send<R: Wait>(
        &mut self,
        rt: &R,
        alloc: Global,
        base: usize,
        entry: Entry,
    ) -> Result<u64, Refused>
        requires base { base < base_count J.plan }
        requires fits { fits (layout_of J.plan base) (change_of entry) ≡ true }
        requires shard { shard_of J.plan base ≡ shard (key_of (layout_of J.plan base).key
            (change_of entry)) (layout_of J.plan base).shards }
        requires number { self.old.number < last_number }
        ensures taken { IfOk result (λ k. IsTaken self.old self.new base (change_of entry) k) }
        ensures untaken { IfErr result (λ e.
            IsUntaken J.plan self.old self.new base (change_of entry) e) }
    {
        let call = Call {
            session: self.word.number(),
            number: self.number,
            base,
        };
        let Told { answer, seen } = match call.make(rt, alloc, &self.routes, entry, &self.seen) {
            Ok(told) => told,
            Err(refused) => return Err(refused),
        };
        self.number += 1;
        self.seen = seen;
        match answer {
            Ok(index) => {
                self.accepted[base] = Some(index);
                Ok(index)
            }
            Err(refused) => Err(refused),
        }
    }

    /// Of what two sessions have seen one begins the other. Afterwards both have seen one part,
    /// which is no less than either had. It waits for nobody, takes no memory and cannot fail.
    pub fn meet(&mut self, other: &mut Session<J>)
        ensures legal { IsLegal J.plan J.sessions self.new.seen }
        ensures one { IsPrefix self.old.seen other.old.seen
            ⊎ IsPrefix other.old.seen self.old.seen }
        ensures both { self.new.seen ≡ other.new.seen }
        ensures this { IsPrefix self.old.seen self.new.seen }
        ensures that { IsPrefix other.old.seen other.new.seen }
        ensures rest { KeepsRest self.old self.new × KeepsRest other.old other.new }
    {
        self.seen.meet(&mut other.seen);
        self.seen.is_legal();
    }
}

// The place of the table of this name, where the entry fits it and so has a key.
fn fitting_table(plan: &Plan, name: &str, entry: &Entry) -> Result<usize, Refused>
    ensures there { IfOk result (λ t. t < length plan.now.tables) }
    ensures named { IfOk result (λ t. table_named plan.now name.now ≡ Some t) }
    ensures fits { IfOk result (λ t. fits (table_at plan.now t) (change_of entry.now) ≡ true) }
    ensures key { IfOk result (λ t. HasKey (table_at plan.now t).key (change_of entry.now)) }
    ensures free { IfOk result (λ t. write_refusal plan.now (table_named plan.now name.now)
        (change_of entry.now) ≡ None) }
    ensures why { IfErr result (λ e. write_refusal plan.now (table_named plan.now name.now)
        (change_of entry.now) ≡ Some e) }
{
    plan.keeps_profile();
    let table = write_target(plan, name, entry)?;
    Ok(table)
}
