//! The rows of a key with many of them, in pieces that copies share.
ghost use Rattle.std.specs.Prelude.{◌≡◌, ◌+◌, ◌<◌, [], ◌∷◌, ◌++◌, IfOk, OnErr, OnOk, length, take, drop};
ghost use Rattle.std.specs.Slice.Iter.{iter_rest};
ghost use Rattle.row.specs.{Bags.IsAscending, Bags.inserted, Bags.joined, Bags.removed, Cells.row_cmp};
ghost use Rattle.key_rows.specs.Pieces.{has_reached, IsPieceOf};

use crate::list::PlacedRows;
use crate::rows::Rows;
use placed_rows::placed::PlacedRow;
use std::alloc::{AllocError, Global};
use std::marker::Model;
use std::slice::Iter;
use std::sync::Arc;

/// So many rows a piece has at most.
const MOST: usize = 32;

/// So many rows a piece has mostly when rows are cut into pieces.
const USUAL: usize = 16;

/// Some rows in order, at least one, that copies share.
pub(crate) struct Piece {
    rows: Arc<Vec<PlacedRow>>,
}

// What holds one drops it by this call, and need not know its parts.
impl Drop for Piece {
    fn drop(self) {
        let Piece { rows: _ } = self;
    }
}

impl Model for Piece {
    ghost use Rattle.std.specs.Prelude.{◌<◌, List, length};
    ghost use Rattle.std.specs.Arc.{arc_value};
    ghost use Rattle.row.specs.{Cells.Datum, Cells.row_cmp, Bags.IsAscending};

    ghost Value = { List (List Datum) };

    ghost view = { λ p. (arc_value p.rows).items };

    ghost invariant = { λ p. IsAscending row_cmp (arc_value p.rows).items × (0 < length (arc_value p.rows).items) };
}

impl Piece {
    /// These rows, which nobody shares yet. Errors: memory only.
    fn of(alloc: Global, rows: PlacedRows) -> Result<Piece, AllocError>
        requires { 0 < length rows }
        ensures { IfOk result (λ p. p ≡ rows) }
    {
        let rows = Arc::new(alloc, rows.into_rows())?;
        Ok(Piece { rows })
    }

    /// The rows in order.
    fn as_slice(&self) -> &[PlacedRow]
        ensures rows { result.now ≡ self.now }
        ensures in_order { IsAscending row_cmp self.now }
        ensures some { 0 < length self.now }
    {
        self.rows.as_slice()
    }

    /// The rows in order.
    pub(crate) fn iter(&self) -> Iter<'_, PlacedRow>
        ensures rows { iter_rest result ≡ self.now }
        ensures some { 0 < length self.now }
    {
        self.as_slice().iter()
    }

    /// A copy of the rows, with room for one more. Errors: memory only. Cost: a copy of each row.
    fn copied(&self, alloc: Global) -> Result<PlacedRows, AllocError>
        ensures { IfOk result (λ r. r ≡ self.now) }
    {
        let rows = self.as_slice();
        PlacedRows::copied(alloc, Rows::of(rows), rows.len().saturating_add(1))
    }

    /// The same rows: in the same memory or, where that has as many copies as can be counted, in
    /// memory of its own. Errors: memory only.
    fn try_clone(&self, alloc: Global) -> Result<Piece, AllocError>
        ensures { IfOk result (λ p. p ≡ self.now) }
    {
        if let Ok(rows) = Arc::try_clone(&self.rows) {
            return Ok(Piece { rows });
        }
        Piece::of(alloc, self.copied(alloc)?)
    }

    /// Whether the row or one that is above it is there: whether the last is no lower.
    fn has_reached(&self, row: &PlacedRow) -> bool
        ensures reached { result ≡ has_reached row_cmp row.now self.now }
        ensures some { 0 < length self.now }
    {
        let rows = self.as_slice();
        !row.compare(&rows[rows.len() - 1]).is_gt()
    }
}

/// Rows in order in pieces, each as often as it is there.
pub(crate) struct PiecedRows {
    pieces: Vec<Piece>,
    len: usize,
}

// What holds one drops it by this call, and need not know its parts.
impl Drop for PiecedRows {
    fn drop(self) {
        let PiecedRows { pieces: _, len: _ } = self;
    }
}

impl Model for PiecedRows {
    ghost use Rattle.std.specs.Prelude.{◌≡◌, List, length};
    ghost use Rattle.row.specs.{Cells.Datum, Cells.row_cmp, Bags.IsAscending, Bags.joined};

    ghost Value = { List (List Datum) };

    ghost view = { λ r. joined r.pieces.items };

    ghost invariant = { λ r. IsAscending row_cmp (joined r.pieces.items) × (r.len ≡ length (joined r.pieces.items)) };
}

impl PiecedRows {
    /// These rows, of which there are some. Errors: memory only. Cost: a move of each row.
    pub(crate) fn of(alloc: Global, rows: PlacedRows) -> Result<PiecedRows, AllocError>
        requires { 0 < length rows }
        ensures { IfOk result (λ r. r ≡ rows) }
    {
        let len = rows.len();
        let pieces = cut(alloc, rows)?;
        Ok(PiecedRows { pieces, len })
    }

    /// The same rows in the same pieces. Errors: memory only. Cost: a step on the count of each piece.
    pub(crate) fn copied(&self, alloc: Global) -> Result<PiecedRows, AllocError>
        ensures { IfOk result (λ r. r ≡ self.now) }
    {
        let pieces = copied(alloc, &self.pieces)?;
        Ok(PiecedRows {
            pieces,
            len: self.len,
        })
    }

    /// The same rows in one place. Errors: memory only. Cost: a copy of each row.
    pub(crate) fn to_list(&self, alloc: Global) -> Result<PlacedRows, AllocError>
        ensures { IfOk result (λ r. r ≡ self.now) }
    {
        PlacedRows::copied(alloc, self.iter(), self.len)
    }

    /// The rows in order.
    #[inline]
    pub(crate) fn iter(&self) -> Rows<'_>
        ensures rows { result ≡ self.now }
        ensures in_order { IsAscending row_cmp self.now }
    {
        Rows::of_pieces(&self.pieces)
    }

    /// How many rows there are. Constant time.
    pub(crate) fn len(&self) -> usize
        ensures rows { result ≡ length self.now }
        ensures in_order { IsAscending row_cmp self.now }
    {
        self.len
    }

    /// Adds one of the row. Errors: memory only; then all is as it was. Finds the piece and the place
    /// in it by halves, and copies the rows of the piece.
    pub(crate) fn add(&mut self, alloc: Global, row: PlacedRow) -> Result<(), AllocError>
        ensures { OnOk result (self.new ≡ inserted row_cmp row self.old) }
    {
        let Some(len) = self.len.checked_add(1) else {
            return Err(AllocError);
        };
        add(alloc, &mut self.pieces, row)?;
        self.len = len;
        Ok(())
    }

    /// Takes away one of the row, where it is there. Errors: memory only; then all is as it was. Finds
    /// the piece and the place in it by halves, and copies the rows of the piece.
    pub(crate) fn take_away(&mut self, alloc: Global, row: &PlacedRow) -> Result<(), AllocError>
        ensures { OnOk result (self.new ≡ removed row_cmp row.now self.old) }
    {
        let taken = take_away(alloc, &mut self.pieces, row)?;
        self.len -= taken;
        Ok(())
    }
}

/// The rows, cut into pieces from the last on. Errors: memory only.
fn cut(alloc: Global, rows: PlacedRows) -> Result<Vec<Piece>, AllocError>
    requires { 0 < length rows }
    ensures { IfOk result (λ p. joined p.items ≡ rows) }
{
    let mut rest = rows;
    let mut pieces = Vec::with_capacity(alloc, rest.len() / USUAL + 1)?;
    while rest.len() > MOST {
        let from = rest.len() - USUAL;
        pieces.push(Piece::of(alloc, rest.split_off(from)?)?)?;
    }
    pieces.push(Piece::of(alloc, rest)?)?;
    pieces.reverse();
    Ok(pieces)
}

/// The same pieces, with room for two more. Errors: memory only.
fn copied(alloc: Global, pieces: &[Piece]) -> Result<Vec<Piece>, AllocError>
    ensures { IfOk result (λ p. p.items ≡ pieces.now) }
{
    let mut copies = Vec::with_capacity(alloc, pieces.len().saturating_add(2))?;
    for piece in pieces {
        copies.push(piece.try_clone(alloc)?)?;
    }
    Ok(copies)
}

/// The piece in which the row's place is: the first that has the row or one above it, else the last.
fn place(pieces: &[Piece], row: &PlacedRow) -> usize
    requires some { 0 < length pieces.now }
    requires in_order { IsAscending row_cmp (joined pieces.now) }
    ensures small { result < length pieces.now }
    ensures place { IsPieceOf row_cmp row.now pieces.now result }
{
    let mut low = 0;
    let mut high = pieces.len() - 1;
    while low < high {
        let middle = low + (high - low) / 2;
        if pieces[middle].has_reached(row) {
            high = middle;
        } else {
            low = middle + 1;
        }
    }
    low
}

/// Adds one of the row. Errors: memory only; then all is as it was.
fn add(alloc: Global, pieces: &mut Vec<Piece>, row: PlacedRow) -> Result<(), AllocError>
    requires { IsAscending row_cmp (joined pieces.old.items) }
    ensures ok { OnOk result (joined pieces.new.items ≡ inserted row_cmp row (joined pieces.old.items)) }
    ensures err { OnErr result (pieces.new.items ≡ pieces.old.items) }
{
    if pieces.is_empty() {
        return begin(alloc, pieces, row);
    }
    let at = place(pieces, &row);
    let mut rows = pieces[at].copied(alloc)?;
    rows.add(row)?;
    put(alloc, pieces, at, rows)
}

/// Adds the row where there is none. Errors: memory only; then there is still none.
fn begin(alloc: Global, pieces: &mut Vec<Piece>, row: PlacedRow) -> Result<(), AllocError>
    requires { pieces.old.items ≡ [] }
    ensures ok { OnOk result (joined pieces.new.items ≡ row ∷ []) }
    ensures err { OnErr result (pieces.new.items ≡ pieces.old.items) }
{
    let mut rows = PlacedRows::copied(alloc, Rows::of(&[]), 1)?;
    rows.add(row)?;
    pieces.push(Piece::of(alloc, rows)?)?;
    Ok(())
}

/// Takes away one of the row, where it is there, and says how many that is. Errors: memory only; then
/// all is as it was.
fn take_away(alloc: Global, pieces: &mut Vec<Piece>, row: &PlacedRow) -> Result<usize, AllocError>
    requires { IsAscending row_cmp (joined pieces.old.items) }
    ensures ok { OnOk result (joined pieces.new.items
        ≡ removed row_cmp row.now (joined pieces.old.items)) }
    ensures taken { IfOk result (λ n. length (joined pieces.new.items) + n
        ≡ length (joined pieces.old.items)) }
    ensures err { OnErr result (pieces.new.items ≡ pieces.old.items) }
{
    if pieces.is_empty() {
        return Ok(0);
    }
    let at = place(pieces, row);
    let mut rows = pieces[at].copied(alloc)?;
    let before = rows.len();
    rows.take_away(row);
    let taken = before - rows.len();
    put(alloc, pieces, at, rows)?;
    Ok(taken)
}

/// Puts the rows in the place of those of the piece: as two pieces where they are too many for one,
/// and as none where there is no row. Errors: memory only; then all is as it was.
fn put(
    alloc: Global,
    pieces: &mut Vec<Piece>,
    at: usize,
    rows: PlacedRows,
) -> Result<(), AllocError>
    requires { at < length pieces.old.items }
    ensures ok { OnOk result (joined pieces.new.items
        ≡ joined (take at pieces.old.items) ++ (rows ++ joined (drop (at + 1) pieces.old.items))) }
    ensures err { OnErr result (pieces.new.items ≡ pieces.old.items) }
{
    if rows.len() == 0 {
        pieces.remove(at);
        return Ok(());
    }
    if rows.len() > MOST {
        return put_halves(alloc, pieces, at, rows);
    }
    pieces[at] = Piece::of(alloc, rows)?;
    Ok(())
}

/// Puts two pieces of the rows in the place of the piece. Errors: memory only; then all is as it was.
fn put_halves(
    alloc: Global,
    pieces: &mut Vec<Piece>,
    at: usize,
    rows: PlacedRows,
) -> Result<(), AllocError>
    requires small { at < length pieces.old.items }
    requires many { 1 < length rows }
    ensures ok { OnOk result (joined pieces.new.items
        ≡ joined (take at pieces.old.items) ++ (rows ++ joined (drop (at + 1) pieces.old.items))) }
    ensures err { OnErr result (pieces.new.items ≡ pieces.old.items) }
{
    let mut front = rows;
    let back = front.split_off(front.len() / 2)?;
    let front = Piece::of(alloc, front)?;
    let back = Piece::of(alloc, back)?;
    pieces.insert(at + 1, back)?;
    pieces[at] = front;
    Ok(())
}
