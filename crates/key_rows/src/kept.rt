//! What a view shard keeps of a key.
ghost use Rattle.std.specs.Prelude.{◌≡◌, IfOk};
ghost use Rattle.row.specs.{BagChanges.with_records, Changes.IsCovered};
ghost use Rattle.partial.specs.{Sums.sum_of_bags, BagLaws.total_changes, BagLaws.total_fits};

use crate::shared::SharedRows;
use partial::gather::Gather;
use row::bag::Bag;
use row::record::Record;
use std::alloc::{AllocError, Global};
use std::marker::Model;

/// The rows of a key, seen as the list of them in order: those that a stage shard has, as they came, or
/// all of them, as readers share them.
pub struct KeyRows {
    kept: Kept,
}

/// How the rows are kept.
#[derive(Drop)]
enum Kept {
    /// As they came.
    Piece(Bag),
    /// As readers share them.
    Whole(SharedRows),
}

// What holds one drops it by this call, and need not know its parts.
impl Drop for KeyRows {
    fn drop(self) {
        let KeyRows { kept: _ } = self;
    }
}

impl Model for KeyRows {
    ghost use Rattle.std.specs.Prelude.{List};
    ghost use Rattle.row.specs.Cells.{Datum};
    ghost use Rattle.key_rows.specs.Kept.{rows_kept};

    ghost Value = { List (List Datum) };

    ghost view = { λ k. rows_kept k.kept };
}

impl KeyRows {
    /// The rows that a stage shard has. Takes no memory.
    pub fn piece(rows: Bag) -> KeyRows
        ensures { result ≡ rows }
    {
        KeyRows {
            kept: Kept::Piece(rows),
        }
    }

    // All rows, which readers can share.
    fn whole(rows: SharedRows) -> KeyRows
        ensures { result ≡ rows }
    {
        KeyRows {
            kept: Kept::Whole(rows),
        }
    }

    /// The rows as readers share them. Errors: memory only, and the sum of pieces mostly needs none.
    /// Constant time for such a sum, else a copy of each row.
    pub fn shared(&self, alloc: Global) -> Result<SharedRows, AllocError>
        ensures { IfOk result (λ r. r ≡ self.now) }
    {
        match &self.kept {
            Kept::Piece(rows) => SharedRows::of(alloc, rows),
            Kept::Whole(rows) => rows.try_clone(alloc),
        }
    }

    // The rows as a bag. Errors: memory only. Cost: where they are shared, a copy of each.
    fn into_bag(self, alloc: Global) -> Result<Bag, AllocError>
        ensures { IfOk result (λ b. b ≡ self) }
    {
        let KeyRows { kept } = self;
        match kept {
            Kept::Piece(rows) => Ok(rows),
            Kept::Whole(rows) => rows.to_bag(alloc),
        }
    }
}

impl Gather for KeyRows {
    type Change = Vec<Record>;

    ghost fits = { λ b c. IsCovered b c.items };

    ghost plus = { λ b c. with_records b c.items };

    ghost total = { sum_of_bags };

    ghost total_changes = { λ before after p c h. total_changes before after p c.items h };

    ghost total_fits = { λ before after p c h. total_fits before after p c.items h };

    /// Adds all rows that the records add, and then takes away those that they take away, so that
    /// their order does not matter. Those that readers share stay. Cost: that of `Bag::apply`, or of
    /// `SharedRows::with_records`.
    fn apply(&mut self, alloc: Global, change: &Vec<Record>) -> Result<(), AllocError> {
        match &mut self.kept {
            Kept::Piece(rows) => rows.apply(alloc, change),
            Kept::Whole(rows) => {
                *rows = rows.with_records(alloc, change)?;
                Ok(())
            }
        }
    }

    /// All rows of the pieces, as readers share them. Cost: that of `Bag::append` for each piece, and a
    /// copy of each row.
    fn gather(alloc: Global, pieces: Vec<KeyRows>) -> Result<KeyRows, AllocError>
        ensures { IfOk result (λ e. e ≡ sum_of_bags pieces.items) }
    {
        let all = sum(alloc, pieces)?;
        Ok(KeyRows::whole(SharedRows::of(alloc, &all)?))
    }
}

/// The sum of the pieces.
#[tactic(auto, using(partial::proofs::BagSums::sum_is))]
fn sum(alloc: Global, pieces: Vec<KeyRows>) -> Result<Bag, AllocError>
    ensures { IfOk result (λ e. e ≡ sum_of_bags pieces.items) }
{
    let mut all = Bag::new(alloc);
    for piece in pieces {
        all.append(piece.into_bag(alloc)?)?;
    }
    let _ = all.rows();
    Ok(all)
}
