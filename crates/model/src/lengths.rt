//! Lengths of the sources' logs, one for each stage shard and source.
ghost use Rattle.std.specs.Prelude.{◌≡◌, ◌↔◌, ◌<◌, ◌≤◌, [], ◌∷◌, ◌++◌, length, map, take, replicate, slice_index_or, slice_set, IfOk, IfSome, IsTrue, OnOk, OnErr};
ghost use Rattle.model.specs.{Histories.len_at, Lines.IsHere, Lines.first_lines, Tables.with_length};

use std::alloc::{AllocError, Global};
use std::marker::Model;

/// A length for each stage shard and each source, in nine words. Those of up to two stage shards and
/// four sources lie in the value itself, so that a copy of them takes no memory and is one of nine
/// words; others lie apart.
pub struct Lengths {
    lines: Lines,
}

/// Where the lines lie.
#[derive(Drop)]
enum Lines {
    /// In the value: so many lines, so many numbers of each, and the numbers.
    Here {
        stages: u8,
        first: u8,
        second: u8,
        firsts: [u64; 4],
        seconds: [u64; 4],
    },
    /// In memory of their own.
    Apart(Vec<Vec<u64>>),
}

// What holds one drops it by this call, and need not know its parts.
impl Drop for Lengths {
    fn drop(self) {
        let Lengths { lines: _ } = self;
    }
}

impl Model for Lengths {
    ghost use Rattle.model.specs.Histories.{Lengths as LengthsView};
    ghost use Rattle.model.specs.Lines.{lines_in, IsHeld};

    ghost Value = { LengthsView };

    ghost view = { λ c. lines_in c.lines };

    ghost invariant = { λ c. IsHeld c.lines };
}

impl Lengths {
    /// For how many stage shards it has a line.
    #[inline]
    pub fn stages(&self) -> usize
        ensures { result ≡ length self.now }
    {
        match &self.lines {
            Lines::Here { stages, .. } => usize::from(*stages),
            Lines::Apart(lines) => lines.len(),
        }
    }

    /// The lengths of a stage shard, in the order of the sources; none where it has no line.
    #[inline]
    pub fn line(&self, stage: usize) -> &[u64]
        ensures { result.now ≡ slice_index_or self.now stage [] }
    {
        match &self.lines {
            Lines::Here {
                first,
                second,
                firsts,
                seconds,
                ..
            } => match stage {
                0 => &firsts[..usize::from(*first)],
                1 => &seconds[..usize::from(*second)],
                _ => &[],
            },
            Lines::Apart(lines) => match lines.get(stage) {
                Some(line) => line.as_slice(),
                None => &[],
            },
        }
    }

    /// No lengths, which are all zeros.
    pub fn empty(alloc: Global) -> Lengths
        ensures { result ≡ [] }
    {
        here(0, 0, 0, [0; 4], [0; 4])
    }

    /// One more line, of whatever length, for the next stage shard. Errors: memory only, and then
    /// nothing changes.
    pub fn push_line(&mut self, alloc: Global, line: &[u64]) -> Result<(), AllocError>
        ensures ok { OnOk result (self.new ≡ self.old ++ line.now ∷ []) }
        ensures err { OnErr result (self.new ≡ self.old) }
    {
        if let Some(longer) = self.with_line_here(line) {
            *self = longer;
            return Ok(());
        }
        let line = Vec::from_slice(alloc, line)?;
        if let Lines::Apart(lines) = &mut self.lines {
            lines.push(line)?;
            return Ok(());
        }
        let mut lines = self.lines_apart(alloc)?;
        lines.push(line)?;
        self.lines = Lines::Apart(lines);
        Ok(())
    }

    // These lengths and one more line, where they lie in the value itself.
    fn with_line_here(&self, line: &[u64]) -> Option<Lengths>
        ensures { IfSome result (λ c. c ≡ self.now ++ line.now ∷ []) }
    {
        let (count, numbers) = counted(line)?;
        match &self.lines {
            Lines::Here { stages: 0, .. } => Some(here(1, count, 0, numbers, [0; 4])),
            Lines::Here {
                stages: 1,
                first,
                firsts,
                ..
            } => Some(here(2, *first, count, *firsts, numbers)),
            _ => None,
        }
    }

    // The lines in memory of their own. Errors: memory only.
    #[inline(never)]
    fn lines_apart(&self, alloc: Global) -> Result<Vec<Vec<u64>>, AllocError>
        ensures { IfOk result (λ v. map (λ l. l.items) v.items ≡ self.now) }
    {
        let mut lines = Vec::new(alloc);
        for stage in 0..self.stages() {
            lines.push(Vec::from_slice(alloc, self.line(stage))?)?;
        }
        Ok(lines)
    }

    /// The same lengths of the sources for each of `stages` stage shards. Errors: memory only.
    pub fn even(alloc: Global, stages: usize, line: &[u64]) -> Result<Lengths, AllocError>
        ensures { IfOk result (λ c. c ≡ replicate stages line.now) }
    {
        let mut lengths = Lengths::empty(alloc);
        for _stage in 0..stages {
            lengths.push_line(alloc, line)?;
        }
        Ok(lengths)
    }

    /// The same lengths: in the value itself, or else in memory of their own. Errors: memory only, and
    /// up to two stage shards and four sources need none. Constant time for these, else linear.
    #[inline]
    pub fn try_clone(&self, alloc: Global) -> Result<Lengths, AllocError>
        ensures { IfOk result (λ c. c ≡ self.now) }
    {
        match &self.lines {
            Lines::Here {
                stages,
                first,
                second,
                firsts,
                seconds,
            } => Ok(here(*stages, *first, *second, *firsts, *seconds)),
            Lines::Apart(_) => Ok(Lengths {
                lines: Lines::Apart(self.lines_apart(alloc)?),
            }),
        }
    }

    /// Whether it has as many lengths as the other for each stage shard, and so room for the other's
    /// in their place. Takes no memory. Constant time where both lie in the value itself, else for
    /// each stage shard.
    #[inline]
    pub fn has_room_for(&self, other: &Lengths) -> bool
        ensures { IsTrue result ↔ (map length self.now ≡ map length other.now) }
    {
        match (&self.lines, &other.lines) {
            (
                Lines::Here {
                    stages,
                    first,
                    second,
                    ..
                },
                Lines::Here {
                    stages: others,
                    first: other_first,
                    second: other_second,
                    ..
                },
            ) => stages == others && first == other_first && second == other_second,
            _ => self.is_as_long(other),
        }
    }

    // Whether it has as many lengths as the other for each stage shard, which are compared in turn.
    #[inline(never)]
    fn is_as_long(&self, other: &Lengths) -> bool
        ensures { IsTrue result ↔ (map length self.now ≡ map length other.now) }
    {
        if self.stages() != other.stages() {
            return false;
        }
        for stage in 0..self.stages() {
            if self.line(stage).len() != other.line(stage).len() {
                return false;
            }
        }
        true
    }

    /// Takes the other's lengths in the place of its own. Takes no memory. Constant time where they
    /// lie in the value itself, else linear.
    #[inline]
    pub fn overwrite(&mut self, other: &Lengths)
        requires { map length self.old ≡ map length other.now }
        ensures { self.new ≡ other.now }
    {
        match &other.lines {
            Lines::Here {
                stages,
                first,
                second,
                firsts,
                seconds,
            } => *self = here(*stages, *first, *second, *firsts, *seconds),
            Lines::Apart(_) => self.overwrite_lines(other),
        }
    }

    // Takes the other's lengths line by line.
    #[inline(never)]
    fn overwrite_lines(&mut self, other: &Lengths)
        requires { map length self.old ≡ map length other.now }
        ensures { self.new ≡ other.now }
    {
        for stage in 0..other.stages() {
            self.overwrite_line(stage, other.line(stage));
        }
    }

    // Takes these lengths for a stage shard that has as many.
    fn overwrite_line(&mut self, stage: usize, line: &[u64])
        requires stage { stage < length self.old }
        requires long { length (slice_index_or self.old stage []) ≡ length line.now }
        ensures { self.new ≡ slice_set self.old stage line.now }
    {
        for source in 0..line.len() {
            self.set(stage, source, line[source]);
        }
    }

    /// The length of a source at a stage shard, 0 where there is none.
    #[inline]
    pub fn len(&self, stage: usize, source: usize) -> u64
        ensures { result ≡ len_at self.now stage source }
    {
        match self.line(stage).get(source) {
            Some(len) => *len,
            None => 0,
        }
    }

    /// Sets one length.
    pub fn set(&mut self, stage: usize, source: usize, len: u64)
        requires stage { stage < length self.old }
        requires source { source < length (slice_index_or self.old stage []) }
        ensures { self.new ≡ with_length self.old stage source len }
    {
        match &mut self.lines {
            Lines::Here { firsts, .. } if stage == 0 => firsts[source] = len,
            Lines::Here { seconds, .. } => seconds[source] = len,
            Lines::Apart(lines) => lines[stage][source] = len,
        }
    }
}

/// The first lines of two, each the first of its numbers.
#[inline]
fn here(stages: u8, first: u8, second: u8, firsts: [u64; 4], seconds: [u64; 4]) -> Lengths
    requires { IsHere stages first second }
    ensures { result ≡ first_lines stages first second firsts seconds }
{
    Lengths {
        lines: Lines::Here {
            stages,
            first,
            second,
            firsts,
            seconds,
        },
    }
}

/// How many there are, and the numbers with zeros after them, where they are up to four.
fn counted(line: &[u64]) -> Option<(u8, [u64; 4])>
    ensures count { IfSome result (λ c. c.0 ≤ 4) }
    ensures numbers { IfSome result (λ c. take c.0 c.1 ≡ line.now) }
{
    match line {
        [] => Some((0, [0; 4])),
        [a] => Some((1, [*a, 0, 0, 0])),
        [a, b] => Some((2, [*a, *b, 0, 0])),
        [a, b, c] => Some((3, [*a, *b, *c, 0])),
        [a, b, c, d] => Some((4, [*a, *b, *c, *d])),
        _ => None,
    }
}
