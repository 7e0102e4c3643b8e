//! Look-ups of a base shard with an index, beside those of one without.
ghost use Rattle.std.specs.Prelude.{◌≡◌, ◌≢◌, ◌∷◌, List, IfOk};
ghost use Rattle.row.specs.Cells.{Datum};
ghost use Rattle.model.specs.Entries.{change_of};
ghost use Rattle.base.specs.Shards.{HasKey};

use base::part::Part;
use base::shard::BaseShard;
use model::entry::Entry;
use row::refused::Refused;
use row::row::Row;
use row::value::Value;
use std::alloc::{AllocError, Global};
use std::test::Fail;

/// How many entries are written.
const ENTRIES: usize = 1000;

const KEYS: u64 = 64;

/// The values of the column that is asked by; the rows of the last have no such column.
const GROUPS: u64 = 6;

#[test]
fn an_index_finds_what_a_look_at_each_row_finds(rt: HostRuntime) -> Result<(), Fail> {
    let mut shards = Shards::new(rt.alloc())?;
    let mut random = Random { state: 7 };
    let mut written = 0;
    for _turn in 0..4 * ENTRIES {
        if written >= ENTRIES {
            break;
        }
        if shards.turn(rt.alloc(), &mut random)? {
            written += 1;
        }
    }
    assert!(rt; written == ENTRIES, "{written} entries");
    Ok(())
}

/// Numbers that follow from the first.
#[derive(Drop)]
struct Random {
    state: u64,
}

impl Random {
    // A number below the end.
    fn below(&mut self, end: u64) -> u64
        requires { end ≢ 0 }
    {
        self.state = (self.state % 2_147_483_648) * 1_103_515_245 + 12_345;
        (self.state % 2_147_483_648) / 65_536 % end
    }
}

/// Two shards of the same rows, of which one has an index by column 1.
#[derive(Drop)]
struct Shards {
    indexed: BaseShard,
    plain: BaseShard,
    ghost keys: { (indexed.key ≡ 0) × (plain.key ≡ 0) },
}

impl Shards {
    fn new(alloc: Global) -> Result<Shards, AllocError> {
        let indexed = BaseShard::with_indexes(alloc, 0, 1_000_000, &[1])?;
        let plain = BaseShard::new(alloc, 0, 1_000_000);
        Ok(Shards { indexed, plain })
    }

    // Writes a next entry, and says whether it was allowed. After it, and before it where the room
    // for it is made, both shards find the same.
    fn turn(&mut self, alloc: Global, random: &mut Random) -> Result<bool, Fail> {
        let entry = next_entry(alloc, random)?;
        if self.plain.check(&entry).is_err() {
            return Ok(false);
        }
        self.indexed.reserve_indexes(alloc, &entry)?;
        self.agree(alloc)?;
        write(alloc, &mut self.indexed, &entry)?;
        write(alloc, &mut self.plain, &entry)?;
        self.agree(alloc)?;
        Ok(true)
    }

    fn agree(&self, alloc: Global) -> Result<(), Fail> {
        for group in 0..GROUPS {
            if !self.agree_on(alloc, group)? {
                return Err(Fail::from("the index finds other rows"));
            }
        }
        Ok(())
    }

    // Whether both find the same rows of the group, in one of three parts.
    fn agree_on(&self, alloc: Global, group: u64) -> Result<bool, AllocError> {
        let part = Part {
            column: 0,
            shards: 3,
            shard: (group % 3) as usize,
        };
        let value = Value::number(alloc, i128::from(group))?;
        let found = self.indexed.lookup(alloc, 1, &value, part)?;
        let scanned = self.plain.lookup(alloc, 1, &value, part)?;
        Ok(found == scanned)
    }
}

// An entry of a row with a key and a group, or of the key alone.
fn next_entry(alloc: Global, random: &mut Random) -> Result<Entry, AllocError>
    ensures { IfOk result (λ e. HasKey 0 (change_of e)) }
{
    let key = Value::number(alloc, i128::from(random.below(KEYS)))?;
    let kind = random.below(3);
    if kind == 0 {
        return Ok(Entry::Delete(key));
    }
    let row = row(alloc, key, random.below(GROUPS))?;
    if kind == 1 {
        Ok(Entry::Insert(row))
    } else {
        Ok(Entry::Update(row))
    }
}

fn row(alloc: Global, key: Value, group: u64) -> Result<Row, AllocError>
    ensures { IfOk result (λ r. (d : Datum) × (ds : List Datum) × (r ≡ d ∷ ds)) }
{
    let mut cells = Vec::new(alloc);
    cells.push(key)?;
    if group < GROUPS - 1 {
        cells.push(Value::number(alloc, i128::from(group))?)?;
    }
    Row::new(alloc, cells)
}

// Writes an entry that is allowed.
fn write(alloc: Global, shard: &mut BaseShard, entry: &Entry) -> Result<(), Refused>
    requires { HasKey shard.old.key (change_of entry.now) }
    ensures { shard.new.key ≡ shard.old.key }
{
    let copy = entry.try_clone(alloc)?;
    shard.check(entry)?;
    shard.reserve_indexes(alloc, entry)?;
    shard.reserve(alloc, entry)?;
    shard.commit(copy);
    Ok(())
}
