//! A base shard of notes, one entry after another.
ghost use Rattle.std.specs.Prelude.{◌≡◌, ◌≢◌, ◌∷◌, [], IfOk, codes};
ghost use Rattle.row.specs.Cells.{int, text};
ghost use Rattle.model.specs.Entries.{change_of};
ghost use Rattle.base.specs.Shards.{HasKey};

use base::part::Part;
use base::shard::BaseShard;
use model::entry::Entry;
use row::record::{Record, Sign};
use row::refused::Refused;
use row::row::Row;
use row::value::Value;
use std::alloc::{AllocError, Global};
use std::test::Fail;

/// An entry of a note, by its id and its author.
#[derive(Clone, Copy)]
enum Change {
    Insert(u8, u8),
    Update(u8, u8),
    Delete(u8),
}

/// A note that comes or goes, by its id and its author.
type Signed = (Sign, u8, u8);

/// An entry, and what it changes or why it is refused.
type Step = (Change, Result<&'static [Signed], Refused>);

/// Entries of a log of at most six.
const STEPS: &[Step] = &[
    (Change::Insert(1, 7), Ok(&[(Sign::Plus, 1, 7)])),
    (Change::Insert(1, 8), Err(Refused::Duplicate)),
    (Change::Insert(2, 7), Ok(&[(Sign::Plus, 2, 7)])),
    (Change::Update(3, 7), Err(Refused::Absent)),
    (
        Change::Update(1, 8),
        Ok(&[(Sign::Minus, 1, 7), (Sign::Plus, 1, 8)]),
    ),
    (
        Change::Update(1, 8),
        Ok(&[(Sign::Minus, 1, 8), (Sign::Plus, 1, 8)]),
    ),
    (Change::Delete(3), Err(Refused::Absent)),
    (Change::Delete(2), Ok(&[(Sign::Minus, 2, 7)])),
    (Change::Delete(2), Err(Refused::Absent)),
    (Change::Insert(2, 9), Ok(&[(Sign::Plus, 2, 9)])),
    (Change::Insert(3, 7), Err(Refused::LogFull)),
    (Change::Insert(2, 7), Err(Refused::Duplicate)),
    (Change::Delete(2), Err(Refused::LogFull)),
    (Change::Delete(3), Err(Refused::Absent)),
];

/// Entries of a log of at most two.
const FULL: &[Step] = &[
    (Change::Insert(1, 7), Ok(&[(Sign::Plus, 1, 7)])),
    (Change::Insert(2, 7), Ok(&[(Sign::Plus, 2, 7)])),
    (Change::Insert(3, 7), Err(Refused::LogFull)),
    (Change::Insert(1, 7), Err(Refused::Duplicate)),
    (Change::Delete(3), Err(Refused::Absent)),
    (Change::Delete(1), Err(Refused::LogFull)),
];

/// An author, a number of shards of ids, one of them, and the note that is found after the steps.
const LOOKUPS: &[(u8, usize, usize, Option<u8>)] = &[
    (7, 1, 0, None),
    (8, 1, 0, Some(1)),
    (8, 2, 0, None),
    (8, 2, 1, Some(1)),
    (9, 2, 0, Some(2)),
];

#[test]
fn entries_of_a_log(rt: HostRuntime) -> Result<(), Fail> {
    let mut notes = Notes {
        shard: BaseShard::new(rt.alloc(), 0, 6),
    };
    assert!(rt; notes.shard.is_empty());
    notes.take_all(rt.alloc(), STEPS)?;
    assert!(rt; notes.shard.len() == 6);
    for (place, (author, shards, shard, id)) in LOOKUPS.iter().enumerate() {
        let part = Part {
            column: 0,
            shards: *shards,
            shard: *shard,
        };
        let found = find(&notes.shard, rt.alloc(), *author, part)?;
        assert!(rt; is_only(&found, *id, *author), "look-up {place}");
    }
    Ok(())
}

#[test]
fn entries_of_a_full_log(rt: HostRuntime) -> Result<(), Fail> {
    let mut notes = Notes {
        shard: BaseShard::new(rt.alloc(), 0, 2),
    };
    notes.take_all(rt.alloc(), FULL)
}

/// A base shard of notes.
#[derive(Drop)]
struct Notes {
    shard: BaseShard,
    ghost key: { shard.key ≡ 0 },
}

impl Notes {
    fn take_all(&mut self, alloc: Global, steps: &[Step]) -> Result<(), Fail> {
        for (place, step) in steps.iter().enumerate() {
            if !self.is_answered(alloc, *step)? {
                return Err(Fail::new(place));
            }
        }
        Ok(())
    }

    // Whether the change is accepted with the wanted records, or refused as wanted.
    fn is_answered(&mut self, alloc: Global, (change, wanted): Step) -> Result<bool, Fail> {
        let entry = entry_of(alloc, change)?;
        match write(&mut self.shard, alloc, entry) {
            Ok(records) => Ok(wanted.is_ok_and(|notes| are_signed(&records, notes))),
            Err(Refused::NoMemory) => Err(Fail::from(AllocError)),
            Err(refused) => Ok(wanted.err() == Some(refused)),
        }
    }
}

// The notes of the author that belong to the part.
fn find(shard: &BaseShard, alloc: Global, author: u8, part: Part) -> Result<Vec<Row>, AllocError>
    requires { part.shards ≢ 0 }
{
    shard.lookup(alloc, 1, &Value::Int(i64::from(author)), part)
}

// Whether the rows are the one note, or none where there is none.
fn is_only(rows: &[Row], id: Option<u8>, author: u8) -> bool {
    match (rows, id) {
        ([], None) => true,
        ([row], Some(id)) => is_note(row, id, author),
        _ => false,
    }
}

// Checks the entry and tells what it changes, makes room for it and applies it.
fn write(shard: &mut BaseShard, alloc: Global, entry: Entry) -> Result<Vec<Record>, Refused>
    requires { HasKey shard.old.key (change_of entry) }
    ensures { shard.new.key ≡ shard.old.key }
{
    let records = shard.check_changes(alloc, &entry)??;
    shard.reserve(alloc, &entry)?;
    shard.commit(entry);
    Ok(records)
}

fn note(alloc: Global, id: i64, author: i64) -> Result<Row, AllocError>
    ensures { IfOk result (λ r. r ≡ int id ∷ int author ∷ text (codes "a") ∷ []) }
{
    let mut cells = Vec::new(alloc);
    cells.push(Value::Int(id))?;
    cells.push(Value::Int(author))?;
    cells.push(Value::text(alloc, "a")?)?;
    Row::new(alloc, cells)
}

// The entry, which has a key.
fn entry_of(alloc: Global, change: Change) -> Result<Entry, AllocError>
    ensures { IfOk result (λ e. HasKey 0 (change_of e)) }
{
    match change {
        Change::Insert(id, author) => {
            Ok(Entry::Insert(note(alloc, i64::from(id), i64::from(author))?))
        }
        Change::Update(id, author) => {
            Ok(Entry::Update(note(alloc, i64::from(id), i64::from(author))?))
        }
        Change::Delete(id) => Ok(Entry::Delete(Value::Int(i64::from(id)))),
    }
}

// Whether these are the changes, in order.
fn are_signed(records: &[Record], wanted: &[Signed]) -> bool {
    for (place, signed) in wanted.iter().enumerate() {
        if !is_at(records, place, *signed) {
            return false;
        }
    }
    records.len() == wanted.len()
}

fn is_at(records: &[Record], place: usize, (sign, id, author): Signed) -> bool {
    match records.get(place) {
        Some(record) => record.sign == sign && is_note(&record.row, id, author),
        None => false,
    }
}

/// Whether this is the author's note of the id.
fn is_note(row: &Row, id: u8, author: u8) -> bool {
    row.has(0, &Value::Int(i64::from(id))) && row.has(1, &Value::Int(i64::from(author)))
}
