//! What a view shard does with what a packet of a stage shard carries.
ghost use Rattle.std.specs.Prelude.{◌≡◌, List, Some, map, slice_get, slice_set, false, IfOk, OnOk, Option};
ghost use Rattle.row.specs.{Groups.equal, declared.value.Value.Value as Key, Cells.Cells, Cells.datum_of};
ghost use Rattle.partial.specs.{States.state_of, Sums.sum_of_bags, Truth.IsTrueOf};
ghost use Rattle.packet.specs.{Keys.is_among, Keys.stands_of, Truth.changes_at, Truth.key_of_piece};
ghost use Rattle.protocol.specs.ViewSteps.{again, capped, drop_all, give_piece};
ghost use Rattle.view_domain.specs.{Shown.LeadsTo, Shown.rows_at, Taken.IsStepOf, Taken.IsPieceFor, Taken.MayTake};

use crate::keys::{cap_keys, evict_keys, fill_key};
use crate::parts::{change_parted, part_by_key};
use crate::shown::KeyChange;
use key_rows::kept::KeyRows;
use packet::keyed::Keyed;
use packet::piece::Piece;
use partial::partial::Partial;
use row::bag::Bag;
use row::value::Value;
use std::alloc::{AllocError, Global};

/// What a packet has done to keys: what becomes of those that are shown, and those whose piece is
/// to be asked for again.
#[derive(Drop)]
pub(crate) struct Taken {
    pub(crate) told: Vec<KeyChange>,
    pub(crate) asks: Vec<Value>,
}

/// Takes in the keys that a source evicts, and then its records, which change nothing at those. No
/// record is of a key that is evicted.
fn take_changes(
    alloc: Global,
    kept: &mut Partial<Value, KeyRows>,
    source: usize,
    changes: Vec<Keyed>,
    evicts: Vec<Value>,
) -> Result<Taken, AllocError>
    requires may { MayTake source (map datum_of evicts.items) changes.items kept.old }
    ensures sources { kept.new.sources ≡ kept.old.sources }
    ensures stands { OnOk result (stands_of kept.new
        ≡ drop_all source (map datum_of evicts.items) (stands_of kept.old)) }
    ensures truth { (k : Key) (parts : List (List Cells)) (part next : List Cells)
        → slice_get parts source ≡ Some part
        → (is_among (map datum_of evicts.items) (datum_of k) ≡ false
        → IsStepOf part (changes_at (datum_of k) changes.items) next)
        → IsTrueOf sum_of_bags parts (state_of equal kept.old k)
        → OnOk result (IsTrueOf sum_of_bags (slice_set parts source next)
        (state_of equal kept.new k)) }
    ensures shown { IfOk result (λ t. LeadsTo (rows_at kept.old) t.told.items kept.new) }
    ensures asks { IfOk result (λ t. map datum_of t.asks.items
        ≡ again source (map datum_of evicts.items) (stands_of kept.old)) }
{
    let mut told = Vec::new(alloc);
    let mut asks = Vec::new(alloc);
    evict_keys(kept, source, evicts, &mut told, &mut asks)?;
    let records = part_by_key(alloc, changes)?;
    change_parted(alloc, kept, source, records, &mut told)?;
    Ok(Taken { told, asks })
}

/// Takes in the piece of a source, if there is one.
#[tactic(auto, using(row::proofs::Keys::equal_is))]
fn take_piece(
    alloc: Global,
    kept: &mut Partial<Value, KeyRows>,
    source: usize,
    piece: Option<Piece>,
    told: &mut Vec<KeyChange>,
) -> Result<(), AllocError>
    ensures sources { kept.new.sources ≡ kept.old.sources }
    ensures stands { OnOk result (stands_of kept.new
        ≡ give_piece source (key_of_piece piece) (stands_of kept.old)) }
    ensures truth { (k : Key) (parts : List (List Cells)) → IsPieceFor piece k parts source
        → IsTrueOf sum_of_bags parts (state_of equal kept.old k)
        → OnOk result (IsTrueOf sum_of_bags parts (state_of equal kept.new k)) }
    ensures shown { (first : Key → Option (List Cells)) → LeadsTo first told.old.items kept.old
        → OnOk result (LeadsTo first told.new.items kept.new) }
{
    let Some(piece) = piece else {
        return Ok(());
    };
    let (key, rows) = piece.into_parts();
    let rows = Bag::of(alloc, rows)?;
    fill_key(alloc, source, key, KeyRows::piece(rows), kept, told)
}

/// Takes in what a packet of a source carries: the keys that it evicts, its records, its piece, and
/// then the cap is kept. What is true of the sources' parts before it is true of those after it.
/// Errors: memory only; what is then kept is not said.
pub(crate) fn take_in(
    alloc: Global,
    kept: &mut Partial<Value, KeyRows>,
    source: usize,
    cap: usize,
    changes: Vec<Keyed>,
    evicts: Vec<Value>,
    piece: Option<Piece>,
) -> Result<Taken, AllocError>
    requires may { MayTake source (map datum_of evicts.items) changes.items kept.old }
    ensures shown { IfOk result (λ t. LeadsTo (rows_at kept.old) t.told.items kept.new) }
    ensures asks { IfOk result (λ t. map datum_of t.asks.items
        ≡ again source (map datum_of evicts.items) (stands_of kept.old)) }
    ensures stands { OnOk result (stands_of kept.new
        ≡ capped cap (give_piece source (key_of_piece piece)
        (drop_all source (map datum_of evicts.items) (stands_of kept.old)))) }
    ensures truth { (k : Key) (parts : List (List Cells)) (part next : List Cells)
        → slice_get parts source ≡ Some part
        → (is_among (map datum_of evicts.items) (datum_of k) ≡ false
        → IsStepOf part (changes_at (datum_of k) changes.items) next)
        → IsPieceFor piece k (slice_set parts source next) source
        → IsTrueOf sum_of_bags parts (state_of equal kept.old k)
        → OnOk result (IsTrueOf sum_of_bags (slice_set parts source next)
        (state_of equal kept.new k)) }
    ensures sources { kept.new.sources ≡ kept.old.sources }
{
    let mut taken = take_changes(alloc, kept, source, changes, evicts)?;
    take_piece(alloc, kept, source, piece, &mut taken.told)?;
    cap_keys(cap, kept, &mut taken.told)?;
    Ok(taken)
}
