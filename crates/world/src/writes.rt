//! Writes of a session: one entry to the base shard that has its key.
ghost use Rattle.std.specs.Prelude.{◌≡◌, ◌<◌, true, length, map, slice_get, Some, IfOk};
ghost use Rattle.row.specs.Cells.{shard};
ghost use Rattle.model.specs.{Entries.change_of, Logs.fits, Logs.key_of, Places.base_count, Places.layout_of, Places.shard_of, Places.table_of};
ghost use Rattle.base_domain.specs.Received.{verdict_of as verdict_in};
ghost use Rattle.protocol.specs.{Bases.last_number, Events.accepted, WorldSteps.verdict_of, WorldSteps.write_by, WorldSteps.written};
ghost use Rattle.schedule.specs.Codes.{reply_of};
ghost use Rattle.machine.specs.{Held.IsDone, Held.IsPlaced, Held.IsWhole, Held.base_node, Held.world_of, Machines.held};
ghost use Rattle.world.specs.Noted.{AreLogged, IsSmall, noted};

use base_domain::message::{ToBase, Write};
use machine::bases::{base_runs, give_base};
use machine::machine::Machine;
use model::entry::Entry;
use model::fronts::Fronts;
use model::places::place_of;
use packet::answer::Answer;
use row::refused::Refused;
use schedule::arguments::write_target;
use schedule::caller::Caller;
use schedule::event::Reply;
use schedule::places::Places;
use std::alloc::Global;

/// A session writes an entry to a table, under its next number. Errors: then nothing is said of the
/// machine.
pub(crate) fn write<F: Fronts>(
    alloc: Global,
    words: &F::Words,
    machine: &mut Machine<F>,
    session: usize,
    table: &str,
    entry: &Entry,
) -> Result<Reply, Refused>
    requires whole { IsWhole F.log F.authors (held machine.old) }
    ensures done { IfOk result (λ r. IsDone F.log F.authors
        (write_by (world_of F.log F.authors (held machine.old)) session
        (slice_get (world_of F.log F.authors (held machine.old)).callers session) table.now
        (change_of entry.now)) (reply_of r) (held machine.new)) }
{
    if session >= machine.callers.len() {
        return Ok(Reply::Refused(Refused::UnknownPlace));
    }
    let number = machine.callers[session].take_number()?;
    let table = match write_target(machine.places.plan(), table, entry) {
        Ok(table) => table,
        Err(refused) => return Ok(Reply::Refused(refused)),
    };
    let base = machine.places.base_for(table, entry);
    let reply = write_at(alloc, words, machine, session, number, base, entry)?;
    Ok(reply)
}

/// An entry goes to the base shard that has its key, if that runs. Errors: then nothing is said of
/// the machine.
fn write_at<F: Fronts>(
    alloc: Global,
    words: &F::Words,
    machine: &mut Machine<F>,
    session: usize,
    number: u64,
    base: usize,
    entry: &Entry,
) -> Result<Reply, Refused>
    requires placed { IsPlaced F.log F.authors (held machine.old) }
    requires logged { AreLogged (map (base_node F.log F.authors) (held machine.old).bases) }
    requires session { session < length (held machine.old).sessions }
    requires number { number < last_number }
    requires range { base < base_count (held machine.old).plan }
    requires fits { fits (layout_of (held machine.old).plan base) (change_of entry.now) ≡ true }
    requires shard { shard_of (held machine.old).plan base
        ≡ shard (key_of (layout_of (held machine.old).plan base).key (change_of entry.now))
        (layout_of (held machine.old).plan base).shards }
    ensures done { IfOk result (λ r. IsDone F.log F.authors
        (written (world_of F.log F.authors (held machine.old)) session number
        (change_of entry.now) base
        (slice_get (map (base_node F.log F.authors) (held machine.old).bases) base)) (reply_of r)
        (held machine.new)) }
{
    if !base_runs(&machine.bases, base) {
        return Ok(Reply::Refused(Refused::Stopped));
    }
    let Ok(entry) = entry.try_clone(alloc) else {
        return Err(Refused::NoMemory);
    };
    let message = ToBase::Write(Write {
        session,
        number,
        entry,
    });
    let answer = give_base(alloc, words, machine, base, message)?;
    let reply = note(&mut machine.callers[session], &machine.places, base, answer);
    Ok(reply)
}

/// A session notes what a base shard answers to its write; the reply says it.
fn note<F: Fronts>(
    caller: &mut Caller,
    places: &Places,
    base: usize,
    answer: Option<Answer<F>>,
) -> Reply
    requires range { base < base_count places.now }
    requires small { IsSmall (verdict_in answer) }
    ensures caller { caller.new ≡ noted base (verdict_in answer) caller.old }
    ensures reply { reply_of result ≡ verdict_of places.now base (verdict_in answer) }
{
    let Some(answer) = answer else {
        return Reply::Refused(Refused::UnknownPlace);
    };
    if let Some(refused) = answer.refused() {
        return Reply::Refused(refused);
    }
    let index = answer.index();
    caller.wrote(base, index);
    accepted(places, base, index)
}

/// An entry stands at this index of a base shard's log.
fn accepted(places: &Places, base: usize, index: u64) -> Reply
    requires { base < base_count places.now }
    ensures { reply_of result
        ≡ accepted (table_of places.now base) (shard_of places.now base) index }
{
    let Some((table, shard)) = place_of(places.plan(), base) else {
        unreachable!()
    };
    Reply::Accepted {
        table,
        shard,
        index,
    }
}
