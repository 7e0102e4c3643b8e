//! What a domain asks of a front, wherever its log stands.
ghost use Rattle.std.specs.Prelude.{◌≡◌, List, length, IfOk, OnErr};
ghost use Rattle.model.specs.{Entries.change_of, Fronts.LogView, Fronts.IsLog, Fronts.Agree, Fronts.AllowsEntry, Fronts.IsLonger, Fronts.with_entry, Fronts.with_author, Histories.Author, Steps.OnHere, Steps.OnStay, Steps.IfMoved};

use crate::entry::Entry;
use std::alloc::{AllocError, Global};

/// Where a word stands: at the front, or further on, as a longer front shows.
#[derive(Drop)]
pub enum Found<F> {
    Here,
    Moved(F),
}

/// A kind of front: a value that says how the log of a base shard begins, and goes on saying so.
/// It only tells; what appends is a right, which is not copied.
pub trait Fronts: Drop {
    /// What the steps are taken on.
    type Words;

    /// The right to append to the log of one base shard.
    type Right: Drop;

    /// What the front says of its log.
    ghost log: { Self → LogView };

    /// The author of each of its entries.
    ghost authors: { Self → List Author };

    /// Fronts that say so are known to be of one log.
    ghost are_one: { LogView → LogView → Type 0 };

    /// The front has all of its log that was seen.
    ghost is_all: { Self → Type 0 };

    /// The front at which a right appends.
    ghost front: { Self.Right → Self };

    /// A further front of this kind may be refused for memory.
    ghost may_refuse: { Type 0 };

    /// The number of its base shard.
    fn base(&self) -> usize
        ensures { result ≡ (log self.now).base };

    /// How many entries it has.
    fn len(&self) -> u64
        ensures { result ≡ length (log self.now).entries };

    /// What holds of each front. This is no step of the run.
    fn is_log(&self)
        ensures { IsLog (log self.now) };

    /// A second copy. Errors: memory only, where this kind may refuse.
    fn try_clone(&self, alloc: Global) -> Result<Self, AllocError>
        ensures same { IfOk result (λ f. (log f ≡ log self.now) × (authors f ≡ authors self.now)) }
        ensures only { OnErr result may_refuse };

    /// The front of a right to append. Errors: memory only, where this kind may refuse.
    fn of(right: &Self::Right, alloc: Global) -> Result<Self, AllocError>
        ensures same { IfOk result (λ f. (log f ≡ log (front right.now))
            × (authors f ≡ authors (front right.now))) }
        ensures only { OnErr result may_refuse };

    /// The step of a base shard: its log is this front and one entry more, or its word has moved,
    /// and then the right stays as it was. Errors: memory only, before the step.
    fn append(
        right: &mut Self::Right,
        alloc: Global,
        words: &Self::Words,
        session: usize,
        number: u64,
        entry: &Entry,
    ) -> Result<Found<Self>, AllocError>
        requires { AllowsEntry (log (front right.old)) (authors (front right.old)) session number
            (change_of entry.now) }
        ensures here { OnHere result (log (front right.new)
            ≡ with_entry (log (front right.old)) (change_of entry.now)) }
        ensures author { OnHere result (authors (front right.new)
            ≡ with_author (authors (front right.old)) session number) }
        ensures all { OnHere result (is_all (front right.new)) }
        ensures stays { OnStay result (front right.new ≡ front right.old) }
        ensures moved { IfMoved result (λ f. IsLonger (log (front right.old)) (log f)) };

    /// Whether its word stands at it, or has moved. Errors: memory only.
    fn look(&mut self, alloc: Global, words: &Self::Words) -> Result<Found<Self>, AllocError>
        ensures log { (log self.new ≡ log self.old) × (authors self.new ≡ authors self.old) }
        ensures all { OnHere result (is_all self.new) }
        ensures moved { IfMoved result (λ f. IsLonger (log self.old) (log f)) };

    /// Of two fronts of one log the shorter begins the longer. This is no step of the run.
    fn meet(&self, other: &Self)
        requires { are_one (log self.now) (log other.now) }
        ensures { Agree (log self.now).entries (log other.now).entries };
}
