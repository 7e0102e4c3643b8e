//! Cuts of sessions: what they hold, and the greater of two.
ghost use Rattle.std.specs.Prelude.{◌≡◌, ◌<◌, [], length, slice_index_or, slice_set, IfOk, OnOk};
ghost use Rattle.std.specs.List.{list_all};
ghost use Rattle.model.specs.Places.{sources};
ghost use Rattle.protocol.specs.WorldSteps.{greater, greatest, raised};
ghost use Rattle.schedule.specs.Sessions.{covers, greatest_line, holds, holds_line, is_covered};

use crate::places::Places;
use model::lengths::Lengths;
use std::alloc::{AllocError, Global};

/// Whether for a stage shard the cut holds each entry of a session in a source: `own` has one more
/// than the place of its last entry in each base shard.
fn holds(places: &Places, own: &[u64], cut: &Lengths, stage: usize, source: usize) -> bool
    requires { source < length (sources places.now) }
    ensures { result ≡ holds places.now own.now cut.now stage source }
{
    let base = places.sources()[source];
    own_in(own, base) <= cut.len(stage, source)
}

/// One more than the place of the session's last entry in a base shard, 0 where it has none.
fn own_in(own: &[u64], base: usize) -> u64
    ensures { result ≡ slice_index_or own.now base 0 }
{
    match own.get(base) {
        Some(after) => *after,
        None => 0,
    }
}

/// Whether for a stage shard the cut holds each entry of the session in the sources.
fn holds_line(places: &Places, own: &[u64], cut: &Lengths, stage: usize) -> bool
    ensures { result ≡ holds_line places.now own.now cut.now stage }
{
    for source in 0..places.sources().len() {
        if !holds(places, own, cut, stage, source) {
            return false;
        }
    }
    true
}

/// Whether the cut holds each entry of the session in the sources. Takes no memory. Cost: a look at
/// each length.
fn covers(places: &Places, own: &[u64], cut: &Lengths) -> bool
    ensures { result ≡ covers places.now own.now cut.now }
{
    for stage in 0..places.plan().stages() {
        if !holds_line(places, own, cut, stage) {
            return false;
        }
    }
    true
}

/// Whether a view shard has acknowledged with a cut that holds them.
fn is_covered(places: &Places, own: &[u64], ack: &Option<Lengths>) -> bool
    ensures { result ≡ is_covered places.now own.now ack.now }
{
    match ack {
        Some(cut) => covers(places, own, cut),
        None => false,
    }
}

/// Whether each view shard has acknowledged with a cut that holds them.
pub(crate) fn are_covered(places: &Places, own: &[u64], acks: &[Option<Lengths>]) -> bool
    ensures { result ≡ list_all (is_covered places.now own.now) acks.now }
{
    acks.iter().all(|ack| is_covered(places, own, ack))
}

/// The greater of two numbers.
fn greater(a: u64, b: u64) -> u64
    ensures { result ≡ greater a b }
{
    if a <= b { b } else { a }
}

/// The greater of two cuts at a stage shard, length by length.
fn greatest_line(
    alloc: Global,
    places: &Places,
    a: &Lengths,
    b: &Lengths,
    stage: usize,
) -> Result<Vec<u64>, AllocError>
    ensures { IfOk result (λ l. l.items ≡ greatest_line places.now a.now b.now stage) }
{
    let mut line = Vec::new(alloc);
    for source in 0..places.sources().len() {
        line.push(greater(a.len(stage, source), b.len(stage, source)))?;
    }
    Ok(line)
}

/// The greater of two cuts, length by length. Errors: memory only. Cost: a look at each length.
fn greatest(alloc: Global, places: &Places, a: &Lengths, b: &Lengths) -> Result<Lengths, AllocError>
    ensures { IfOk result (λ c. c ≡ greatest places.now a.now b.now) }
{
    let mut cut = Lengths::empty(alloc);
    for stage in 0..places.plan().stages() {
        let line = greatest_line(alloc, places, a, b, stage)?;
        cut.push_line(alloc, line.as_slice())?;
    }
    Ok(cut)
}

/// Raises the floor at a view shard by a cut, if there is the floor.
fn raise_at(
    alloc: Global,
    places: &Places,
    floors: &mut Vec<Lengths>,
    reader: usize,
    cut: &Lengths,
) -> Result<(), AllocError>
    ensures { OnOk result (floors.new.items ≡ slice_set floors.old.items reader
        (greatest places.now (slice_index_or floors.old.items reader []) cut.now)) }
{
    if reader < floors.len() {
        floors[reader] = greatest(alloc, places, &floors[reader], cut)?;
    }
    Ok(())
}

/// Raises each floor by the cut of its view shard. Errors: memory only; then some floors are
/// raised. Cost: a look at each length of each cut.
pub(crate) fn raise(
    alloc: Global,
    places: &Places,
    floors: &mut Vec<Lengths>,
    acks: &[Option<Lengths>],
) -> Result<(), AllocError>
    ensures { OnOk result (floors.new.items ≡ raised places.now floors.old.items acks.now) }
{
    for reader in 0..acks.len() {
        if let Some(cut) = &acks[reader] {
            raise_at(alloc, places, floors, reader, cut)?;
        }
    }
    Ok(())
}
