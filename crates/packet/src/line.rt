//! A front of each source.
ghost use Rattle.std.specs.Prelude.{◌≡◌, ◌<◌, length, map, replicate, IfOk, OnOk, Some, slice_get, slice_set};
ghost use Rattle.packet.specs.Lines.{lengths_of};

use model::fronts::Fronts;
use smallvec::SmallVec;
use std::alloc::{AllocError, Global};
use std::marker::Model;

/// A front of each source of the stage, in order: how far the logs were taken.
pub struct Line<F: Fronts> {
    fronts: Vec<F>,
}

// What holds one drops it by this call, and need not know its parts.
impl<F: Fronts> Drop for Line<F> {
    fn drop(self) {
        let Line { fronts: _ } = self;
    }
}

impl<F: Fronts> Model for Line<F> {
    ghost use Rattle.std.specs.Prelude.{List, map};
    ghost use Rattle.model.specs.Fronts.{LogView};

    ghost Value = { List LogView };

    ghost view = { λ l. map F.log l.fronts.items };
}

impl<F: Fronts> Line<F> {
    /// The line of these fronts.
    pub fn new(fronts: Vec<F>) -> Line<F>
        ensures { result ≡ map F.log fronts.items }
    {
        Line { fronts }
    }

    /// How many sources there are. Constant time.
    pub fn sources(&self) -> usize
        ensures { result ≡ length self.now }
    {
        self.fronts.len()
    }

    /// The front of a source. Constant time.
    pub fn front(&self, source: usize) -> &F
        requires { source < length self.now }
        ensures { slice_get self.now source ≡ Some (F.log result.now) }
    {
        &self.fronts[source]
    }

    /// Puts another front of the source in place of its own. Takes no memory. Constant time.
    pub fn set(&mut self, source: usize, front: F)
        requires { source < length self.old }
        ensures { self.new ≡ slice_set self.old source (F.log front) }
    {
        self.fronts[source] = front;
    }

    /// A second copy. Errors: memory only. Cost: a copy of each front.
    pub fn try_clone(&self, alloc: Global) -> Result<Line<F>, AllocError>
        ensures { IfOk result (λ l. l ≡ self.now) }
    {
        let mut fronts = Vec::with_capacity(alloc, self.fronts.len())?;
        for front in &self.fronts {
            fronts.push(front.try_clone(alloc)?)?;
        }
        Ok(Line { fronts })
    }

    /// Makes it a copy of a line of as many sources, in the memory that it has. Errors: memory only;
    /// then some of its fronts are those of the other. Cost: a copy of each front.
    pub fn copy_from(&mut self, alloc: Global, other: &Line<F>) -> Result<(), AllocError>
        requires { length self.old ≡ length other.now }
        ensures copied { OnOk result (self.new ≡ other.now) }
        ensures sources { length self.new ≡ length self.old }
    {
        for source in 0..other.sources() {
            let front = other.front(source).try_clone(alloc)?;
            self.set(source, front);
        }
        Ok(())
    }

    /// `count` copies of it. Errors: memory only. Cost: a copy of each front for each.
    pub fn copies(&self, alloc: Global, count: usize) -> Result<Vec<Line<F>>, AllocError>
        ensures { IfOk result (λ v. v.items ≡ replicate count self.now) }
    {
        let mut lines = Vec::new(alloc);
        for _ in 0..count {
            lines.push(self.try_clone(alloc)?)?;
        }
        Ok(lines)
    }

    /// How many entries each front has. Up to four take no memory. Errors: memory only.
    pub fn lengths(&self, alloc: Global) -> Result<SmallVec<u64, 4>, AllocError>
        ensures { IfOk result (λ v. v.items ≡ lengths_of self.now) }
    {
        let mut lengths = SmallVec::new(alloc);
        for front in &self.fronts {
            lengths.push(front.len())?;
        }
        Ok(lengths)
    }
}
