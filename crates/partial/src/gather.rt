//! What a gather needs of an entry: pieces take changes, and the sum of the pieces takes what a
//! piece takes.
ghost use Rattle.std.specs.Prelude.{◌≡◌, List, ◌∷◌, ◌++◌, OnOk, OnErr, IfOk};

use std::alloc::{AllocError, Global};

/// A kind of entry whose value is the sum of the parts that its sources have. The laws say that
/// a change of one part is the same change of the sum, so an entry stays the sum of its parts
/// where each change of a part is applied to it once. (Partially stateful operators, as in the
/// Noria paper, stand on this.)
///
/// A kind of entry that counts or adds up within a number type takes its sums modulo the size
/// of that type: then the laws hold for all pieces, and whoever knows that the true sum fits the
/// type knows that the entry is that sum.
pub trait Gather: Drop {
    /// A change of an entry or of a piece of one.
    type Change;

    /// What the change takes away is there.
    ghost fits: { Self → Self.Change → Type 0 };

    /// The entry with the change.
    ghost plus: { Self → Self.Change → Self };

    /// The sum of the pieces.
    ghost total: { List Self → Self };

    /// Applies the change, which fits. Errors: memory only; then the entry is as it was.
    fn apply(&mut self, alloc: Global, change: &Self::Change) -> Result<(), AllocError>
        requires { fits self.old change.now }
        ensures applied { OnOk result (self.new ≡ plus self.old change.now) }
        ensures err { OnErr result (self.new ≡ self.old) };

    /// The sum of the pieces. Errors: memory only.
    fn gather(alloc: Global, pieces: Vec<Self>) -> Result<Self, AllocError>
        ensures { IfOk result (λ e. e ≡ total pieces.items) };

    /// A change of one piece is that change of the sum.
    ghost total_changes: { (before after : List Self) (p : Self) (c : Self.Change) → fits p c
        → total (before ++ plus p c ∷ after) ≡ plus (total (before ++ p ∷ after)) c };

    /// A change that fits a piece fits the sum.
    ghost total_fits: { (before after : List Self) (p : Self) (c : Self.Change) → fits p c
        → fits (total (before ++ p ∷ after)) c };
}
