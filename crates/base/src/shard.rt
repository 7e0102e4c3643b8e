//! The rows of one shard of one table, by their keys.
ghost use Rattle.std.specs.Prelude.{◌≡◌, ◌≢◌, ◌+◌, ◌++◌, ◌∷◌, [], List, filter, ◌<◌, ◌↔◌, true, false, IsTrue, IsOk, OnOk, IfOk, IfErr, IfSome, OnErr, IsOkUnless, Some, None, is_some, length};
ghost use Rattle.std.specs.List.Sorted.{IsPermutation};
ghost use Rattle.std.specs.HashMap.{get, spare, IsUnique};
ghost use Rattle.row.specs.{Bags.IsAscending, Cells.datum_of, Cells.cell_at, Cells.has, Cells.row_cmp, Changes.Turns, Groups.equal, Packed.datum_in, ValueMaps.kept_key};
ghost use Rattle.model.specs.{Logs.Change, Logs.inserts, Logs.deletes, Logs.updates, Logs.is_held, Logs.key_of, Logs.rows_of, Refusals.full, Refusals.refusal, Entries.change_of};
ghost use Rattle.base.specs.{Shards.Shard, Shards.IsAt, Shards.HasKey, Shards.HasRoom, Shards.adds_row, Shards.room_after, Shards.rows_with, Shards.rows_after, Shards.rows_changed, Shards.after_entry, Shards.refusal_of, Shards.verdict, Indexed.IsOf, Parts.found, Records.plus_of, Records.minus_of, Records.records_of, Records.records_at, Records.record_count};

use crate::index::{Index, copies_in, expect_all, indexes_by, lose_all, ready_by, settle_all};
use crate::part::Part;
use model::entry::Entry;
use row::cells::Cell;
use row::grouped::Grouped;
use row::record::{Record, Sign};
use row::refused::Refused;
use row::row::Row;
use row::value::Value;
use row::value_map::ValueMap;
use std::alloc::{AllocError, Global};
use std::marker::Model;
use std::mem;

/// The rows that a log leaves in one shard of one table, each found by its key in constant
/// (expected) time, and by the columns of its indexes.
pub struct BaseShard {
    key_column: usize,
    limit: u64,
    entry_count: u64,
    rows: ValueMap<Row>,
    ready: Option<Value>,
    indexes: Vec<Index>,
}

// What holds one drops it by this call, and need not know its parts.
impl Drop for BaseShard {
    fn drop(self) {
        let BaseShard {
            key_column: _,
            limit: _,
            entry_count: _,
            rows: _,
            ready: _,
            indexes: _,
        } = self;
    }
}

impl Model for BaseShard {
    ghost use Rattle.base.specs.{Shards.Shard, Indexed.AreIndexes, Stored.IsStored, Stored.stored};
    ghost use Rattle.std.specs.HashMap.{values};

    ghost Value = { Shard };

    ghost view = { λ s. stored s.key_column s.limit s.entry_count s.rows s.ready };

    ghost invariant = { λ s. IsStored s.key_column s.rows s.ready
        × AreIndexes (values s.rows) s.indexes.items };
}

impl BaseShard {
    /// A shard with no rows, for a table with this key column and a log of at most `limit`
    /// entries. It takes no memory.
    pub fn new(alloc: Global, key_column: usize, limit: u64) -> BaseShard
        ensures empty { result ≡ record {
          key = key_column;
          limit = limit;
          rows = [];
          length = 0;
          room = None;
        } }
        ensures front { IsAt result [] }
    {
        BaseShard {
            key_column,
            limit,
            entry_count: 0,
            rows: ValueMap::new(alloc),
            ready: None,
            indexes: Vec::new(alloc),
        }
    }

    /// A shard as of `new` that also keeps its rows grouped by each of these columns: an index for
    /// `lookup`. Errors: memory only.
    pub fn with_indexes(
        alloc: Global,
        key_column: usize,
        limit: u64,
        columns: &[usize],
    ) -> Result<BaseShard, AllocError>
        ensures empty { IfOk result (λ s. s ≡ record {
          key = key_column;
          limit = limit;
          rows = [];
          length = 0;
          room = None;
        }) }
        ensures front { IfOk result (λ s. IsAt s []) }
    {
        Ok(BaseShard {
            key_column,
            limit,
            entry_count: 0,
            rows: ValueMap::new(alloc),
            ready: None,
            indexes: indexes_by(alloc, columns)?,
        })
    }

    /// How many entries the log has so far.
    pub fn len(&self) -> u64
        ensures { result ≡ self.now.length }
    {
        self.entry_count
    }

    /// The log has no entries yet.
    pub fn is_empty(&self) -> bool
        ensures { IsTrue result ↔ (self.now.length ≡ 0) }
    {
        self.len() == 0
    }

    /// Whether the log may take the entry next: `Duplicate` for an Insert of a key that is held,
    /// `Absent` for a Delete or an Update of a key that is not, and then `LogFull` where the log
    /// has its limit of entries. It changes nothing, takes no memory, and looks one key up.
    pub fn check(&self, entry: &Entry) -> Result<(), Refused>
        requires { HasKey self.now.key (change_of entry.now) }
        ensures rows { result ≡ verdict (refusal_of self.now (change_of entry.now)) }
        ensures front { (front : List Change) → IsAt self.now front → result
            ≡ verdict (refusal self.now.key self.now.limit front (change_of entry.now)) }
    {
        self.check_found(entry, self.find(entry).is_some())
    }

    /// What `check` says of an entry whose key is held, or is not.
    fn check_found(&self, entry: &Entry, held: bool) -> Result<(), Refused>
        requires { held ≡ is_held self.now.key self.now.rows
            (key_of self.now.key (change_of entry.now)) }
        ensures { result ≡ verdict (refusal_of self.now (change_of entry.now)) }
    {
        match entry {
            Entry::Insert(_) => {
                if held {
                    Err(Refused::Duplicate)
                } else {
                    self.check_limit()
                }
            }
            Entry::Delete(_) | Entry::Update(_) => {
                if held {
                    self.check_limit()
                } else {
                    Err(Refused::Absent)
                }
            }
        }
    }

    /// `LogFull` where the log has its limit of entries.
    fn check_limit(&self) -> Result<(), Refused>
        ensures { result ≡ verdict (full self.now.limit self.now.length) }
    {
        if self.limit <= self.len() {
            Err(Refused::LogFull)
        } else {
            Ok(())
        }
    }

    /// The row of the entry's key, where one is held. One look-up.
    fn find(&self, entry: &Entry) -> Option<&Row>
        requires { HasKey self.now.key (change_of entry.now) }
        ensures held { is_some result ≡ is_held self.now.key self.now.rows
            (key_of self.now.key (change_of entry.now)) }
        ensures only { IfSome result (λ r. filter (has self.now.key
            (key_of self.now.key (change_of entry.now))) self.now.rows ≡ r.now ∷ []) }
    {
        let key = key_in(entry, self.key_column);
        self.rows.get(key.value())
    }

    /// What `check` says of the entry and, where it allows it, what the entry changes in the rows:
    /// plus the row of an Insert, minus the row of a Delete's key, and for an Update minus the old
    /// row of its key, then plus the new one. Errors: memory only, and only for an entry that is
    /// allowed. One look-up of a key, and a copy of each of these rows, at most two.
    pub fn check_changes(
        &self,
        alloc: Global,
        entry: &Entry,
    ) -> Result<Result<Vec<Record>, Refused>, AllocError>
        requires { HasKey self.now.key (change_of entry.now) }
        ensures refused { IfOk result (λ r. IfErr r (λ e. refusal_of self.now (change_of entry.now)
            ≡ Some e)) }
        ensures lawful { OnErr result (refusal_of self.now (change_of entry.now) ≡ None) }
        ensures allowed { IfOk result (λ r. OnOk r (refusal_of self.now (change_of entry.now)
            ≡ None)) }
        ensures records { IfOk result (λ r. IfOk r (λ v. v.items
            ≡ records_at self.now (change_of entry.now))) }
        ensures count { IfOk result (λ r. IfOk r (λ v. length v.items
            ≡ record_count (change_of entry.now))) }
        ensures turns { IfOk result (λ r. IfOk r (λ v. Turns self.now.rows v.items
            (rows_with self.now (change_of entry.now)))) }
        ensures records_at { IfOk result (λ r. IfOk r (λ v. (front : List Change)
            → IsAt self.now front → v.items
            ≡ records_of self.now.key (rows_of self.now.key front) (change_of entry.now))) }
        ensures turns_at { IfOk result (λ r. IfOk r (λ v. (front : List Change)
            → IsAt self.now front → Turns (rows_of self.now.key front) v.items
            (rows_of self.now.key (front ++ change_of entry.now ∷ [])))) }
    {
        let found = self.find(entry);
        if let Err(refused) = self.check_found(entry, found.is_some()) {
            return Ok(Err(refused));
        }
        let records = self.records(alloc, entry, found)?;
        Ok(Ok(records))
    }

    /// The records of a lawful entry, for whose key this row is found.
    fn records(
        &self,
        alloc: Global,
        entry: &Entry,
        found: Option<&Row>,
    ) -> Result<Vec<Record>, AllocError>
        requires lawful { refusal_of self.now (change_of entry.now) ≡ None }
        requires held { is_some found ≡ is_held self.now.key self.now.rows
            (key_of self.now.key (change_of entry.now)) }
        requires only { IfSome found (λ r. filter (has self.now.key
            (key_of self.now.key (change_of entry.now))) self.now.rows ≡ r.now ∷ []) }
        ensures records { IfOk result (λ v. v.items ≡ records_at self.now (change_of entry.now)) }
        ensures count { IfOk result (λ v. length v.items ≡ record_count (change_of entry.now)) }
    {
        let mut records = Vec::new(alloc);
        match entry {
            Entry::Insert(row) => records.push(plus(alloc, row)?)?,
            Entry::Delete(_) => records.push(self.minus(alloc, entry, found)?)?,
            Entry::Update(row) => {
                records.push(self.minus(alloc, entry, found)?)?;
                records.push(plus(alloc, row)?)?;
            }
        }
        Ok(records)
    }

    /// One less of the row that is found for the entry's key, which is held.
    fn minus(&self, alloc: Global, entry: &Entry, found: Option<&Row>) -> Result<Record, AllocError>
        requires held { is_held self.now.key self.now.rows
            (key_of self.now.key (change_of entry.now)) ≡ true }
        requires found { is_some found ≡ is_held self.now.key self.now.rows
            (key_of self.now.key (change_of entry.now)) }
        requires only { IfSome found (λ r. filter (has self.now.key
            (key_of self.now.key (change_of entry.now))) self.now.rows ≡ r.now ∷ []) }
        ensures record { IfOk result (λ r. r ≡ minus_of r.row) }
        ensures only { IfOk result (λ r. filter (has self.now.key
            (key_of self.now.key (change_of entry.now))) self.now.rows ≡ r.row ∷ []) }
    {
        let row = found.unwrap();
        Ok(Record {
            row: row.try_clone(alloc)?,
            sign: Sign::Minus,
        })
    }

    /// The rows of the part that have the value in the column, in order, a repeat each time: what
    /// the front of the log has of them. Errors: memory only. Cost: where an index by the column
    /// stands and no row waits in it (`reserve_indexes`), one look-up by hash, a look at each row
    /// of the value unless the part is by that column too, and a copy of each that is found. Else a
    /// look at each row of the shard, a copy of each that is found, and a sort of those.
    pub fn lookup(
        &self,
        alloc: Global,
        column: usize,
        value: &Value,
        part: Part,
    ) -> Result<Vec<Row>, AllocError>
        requires { part.shards ≢ 0 }
        ensures rows { IfOk result (λ v. v.items
            ≡ found column (datum_of value.now) part self.now.rows) }
        ensures front { IfOk result (λ v. (front : List Change) → IsAt self.now front → v.items
            ≡ found column (datum_of value.now) part (rows_of self.now.key front)) }
    {
        if let Some(rows) = self.index(column) {
            return copies_in(alloc, rows.rows_of(value), column, value, part);
        }
        let mut found = Vec::new(alloc);
        for row in self.rows.values() {
            if part.has(row) && row.has(column, value) {
                found.push(row.try_clone(alloc)?)?;
            }
        }
        found.sort()?;
        Ok(found)
    }

    /// The rows by the column, where they are found by it.
    fn index(&self, column: usize) -> Option<&Grouped>
        ensures found { IfSome result (λ g. (g.now.column ≡ column) × IsOf g.now self.now.rows) }
        ensures in_order { IfSome result (λ g. IsAscending row_cmp g.now.rows) }
    {
        ready_by(&self.indexes, column)
    }

    /// Room for the entry, so that `commit` takes no memory. Only an Insert needs any: one more
    /// place for a row, and a copy of its key. `NoMemory` leaves the shard as it was. Mostly one
    /// copy of the key; at times the rows' places are moved to a larger table.
    pub fn reserve(&mut self, alloc: Global, entry: &Entry) -> Result<(), Refused>
        requires { HasKey self.old.key (change_of entry.now) }
        ensures only { IsOkUnless result Refused.NoMemory }
        ensures unneeded { adds_row (change_of entry.now) ≡ false → IsOk result }
        ensures unchanged { adds_row (change_of entry.now) ≡ false → self.new ≡ self.old }
        ensures room { OnOk result (HasRoom self.new (change_of entry.now)) }
        ensures err { OnErr result (self.new ≡ self.old) }
        ensures rest { self.new ≡ record self.old { room = self.new.room } }
        ensures front { (front : List Change) → IsAt self.old front → IsAt self.new front }
    {
        match entry {
            Entry::Insert(row) => self.make_room(alloc, row.cell(self.key_column).value()),
            Entry::Delete(_) | Entry::Update(_) => Ok(()),
        }
    }

    /// Room for a row with the key.
    fn make_room(&mut self, alloc: Global, key: &Value) -> Result<(), Refused>
        ensures only { IsOkUnless result Refused.NoMemory }
        ensures ok { OnOk result (self.new ≡ record self.old { room = Some (datum_of key.now) }) }
        ensures err { OnErr result (self.new ≡ self.old) }
    {
        let key = key.try_clone(alloc).map_err(|_| Refused::NoMemory)?;
        self.rows.reserve_one().map_err(|_| Refused::NoMemory)?;
        self.ready = Some(key);
        Ok(())
    }

    /// Room for the entry in the indexes, so that `commit` keeps them and takes no memory: the row
    /// of an Insert or an Update is added to each beforehand, in the place of one that waited there
    /// for its entry. While it waits, a look-up looks at each row. Where an Insert or an Update
    /// brings a row that waits in none, the indexes end, for good. Errors: memory only, and then
    /// the shard is as it was; of several indexes the row may wait in some. Cost: for each index,
    /// two copies of the row and that of `Grouped::add`, and that of `Grouped::subtract` for a row
    /// that waited; nothing for a Delete.
    pub fn reserve_indexes(&mut self, alloc: Global, entry: &Entry) -> Result<(), AllocError>
        ensures same { self.new ≡ self.old }
        ensures front { (front : List Change) → IsAt self.old front → IsAt self.new front }
    {
        match entry {
            Entry::Insert(row) => self.expect(alloc, row),
            Entry::Delete(_) => Ok(()),
            Entry::Update(row) => self.expect(alloc, row),
        }
    }

    /// Adds the row to the indexes before its entry.
    fn expect(&mut self, alloc: Global, row: &Row) -> Result<(), AllocError>
        ensures { self.new ≡ self.old }
    {
        expect_all(&mut self.indexes, alloc, row)
    }

    /// Applies an entry that `check` allows and that there is room for: an Insert adds its row, a
    /// Delete takes the row of its key away, and an Update puts its row in the place of the one of
    /// the same key. It takes no memory, cannot fail, and looks one key up. Cost: for each index,
    /// for a Delete or an Update also that of `Grouped::subtract`.
    pub fn commit(&mut self, entry: Entry)
        requires key { HasKey self.old.key (change_of entry) }
        requires lawful { refusal_of self.old (change_of entry) ≡ None }
        requires room { HasRoom self.old (change_of entry) }
        ensures shard { self.new ≡ after_entry self.old (change_of entry) }
        ensures front { (front : List Change) → IsAt self.old front
            → IsAt self.new (front ++ change_of entry ∷ []) }
    {
        self.apply(entry);
        self.count();
    }

    /// Changes the rows by the entry.
    fn apply(&mut self, entry: Entry)
        requires key { HasKey self.old.key (change_of entry) }
        requires lawful { refusal_of self.old (change_of entry) ≡ None }
        requires room { HasRoom self.old (change_of entry) }
        ensures { self.new ≡ record self.old {
          rows = rows_after self.old (change_of entry);
          room = room_after self.old.room (change_of entry);
        } }
    {
        match entry {
            Entry::Insert(row) => self.insert(row),
            Entry::Delete(key) => self.remove(&key),
            Entry::Update(row) => self.replace(row),
        }
    }

    /// One more entry.
    fn count(&mut self)
        requires { self.old.length < self.old.limit }
        ensures { self.new ≡ record self.old { length = self.old.length + 1 } }
    {
        let _limit = self.limit;
        self.entry_count += 1;
    }

    /// Adds a row whose key is ready and not held.
    fn insert(&mut self, row: Row)
        requires key { self.old.key < length row }
        requires room { self.old.room ≡ Some (cell_at row self.old.key) }
        requires absent { is_held self.old.key self.old.rows (cell_at row self.old.key) ≡ false }
        ensures { self.new ≡ record (rows_changed self.old (inserts row)) { room = None } }
    {
        if let Some(key) = self.ready.take() {
            settle_all(&mut self.indexes, &row);
            put(&mut self.rows, key, row);
        }
    }

    /// Takes the row of the key away.
    fn remove(&mut self, key: &Value)
        ensures { self.new ≡ rows_changed self.old (deletes (datum_of key.now)) }
    {
        if let Some(row) = self.rows.remove(key) {
            lose_all(&mut self.indexes, &row);
        }
    }

    /// Puts the row in the place of the one of the same key, which is held.
    fn replace(&mut self, row: Row)
        requires key { self.old.key < length row }
        requires held { is_held self.old.key self.old.rows (cell_at row self.old.key) ≡ true }
        ensures { self.new ≡ rows_changed self.old (updates row) }
    {
        settle_all(&mut self.indexes, &row);
        let key = row.cell(self.key_column);
        let place = self.rows.get_mut(key.value()).unwrap();
        drop(key);
        let old = mem::replace(place, row);
        lose_all(&mut self.indexes, &old);
    }
}

/// The key of the entry's row, which is in this column.
fn key_in(entry: &Entry, column: usize) -> Cell<'_>
    requires { HasKey column (change_of entry.now) }
    ensures { datum_in result ≡ key_of column (change_of entry.now) }
{
    match entry {
        Entry::Insert(row) => row.cell(column),
        Entry::Delete(key) => Cell::Kept(key),
        Entry::Update(row) => row.cell(column),
    }
}

/// One more of the row.
fn plus(alloc: Global, row: &Row) -> Result<Record, AllocError>
    ensures { IfOk result (λ r. r ≡ plus_of row.now) }
{
    Ok(Record {
        row: row.try_clone(alloc)?,
        sign: Sign::Plus,
    })
}

/// Puts the row under a key that none has yet, in room that is there.
fn put(rows: &mut ValueMap<Row>, key: Value, row: Row)
    requires room { 0 < spare rows.old }
    requires absent { get equal rows.old key ≡ None }
    ensures entries { IsPermutation ((kept_key key, row) ∷ rows.old.entries)
        rows.new.entries }
    ensures unique { IsUnique equal rows.new }
{
    let _ = rows.insert(key, row);
}
