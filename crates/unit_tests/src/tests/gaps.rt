//! A packet out of turn is a gap, at which a stage shard stops.
ghost use Rattle.std.specs.Prelude.{◌≡◌, [], IfOk};
ghost use Rattle.plan.specs.Recipes.{notes_plan};
ghost use Rattle.stage_steps.specs.Codes.{message_of};
ghost use Rattle.unit_tests.specs.Notes.{note_row, no_notes, one_note, AreOne, IsFirstStage, IsForFirst};

use model::entry::Entry;
use model::fronts::{Found, Fronts};
use model::list::{ListFront, ListRight};
use packet::base_packet::BasePacket;
use packet::line::Line;
use packet::mode::Mode;
use packet::request::{Marker, Request};
use plan::domain::Tag;
use plan::plan::Plan;
use row::refused::Refused;
use row::row::Row;
use row::value::Value;
use stage_domain::stage_domain::StageDomain;
use stage_steps::message::ToStage;
use stage_steps::outbox::StageOutbox;
use std::alloc::{AllocError, Global};
use std::test::Fail;

const MARKER: Marker = Marker {
    session: 1,
    number: 3,
};

// The first note.
fn note(alloc: Global) -> Result<Row, AllocError>
    ensures { IfOk result (λ r. r ≡ note_row) }
{
    let mut cells = Vec::new(alloc);
    cells.push(Value::Int(1))?;
    cells.push(Value::Int(7))?;
    cells.push(Value::text(alloc, "a")?)?;
    Row::new(alloc, cells)
}

// The stage shard before the first note.
fn first_stage<'p, F: Fronts>(
    alloc: Global,
    plan: &'p Plan,
    front: F,
) -> Result<StageDomain<'p, F>, AllocError>
    requires plan { plan.now ≡ notes_plan }
    requires log { F.log front ≡ no_notes }
    ensures { IfOk result IsFirstStage }
{
    let mut fronts = Vec::new(alloc);
    fronts.push(front)?;
    StageDomain::new(alloc, plan, 0, Line::new(fronts))
}

// The front of a right to the empty log, after the first note.
fn front_with_note<F: Fronts>(
    alloc: Global,
    words: &F::Words,
    mut right: F::Right,
) -> Result<F, AllocError>
    requires log { F.log (F.front right) ≡ no_notes }
    requires authors { F.authors (F.front right) ≡ [] }
    ensures { IfOk result (λ f. F.log f ≡ one_note) }
{
    let entry = Entry::Insert(note(alloc)?);
    let Found::Here = F::append(&mut right, alloc, words, 0, 0, &entry)? else {
        return Err(AllocError);
    };
    F::of(&right, alloc)
}

// A packet of the base shard behind the first note, as a message.
fn later_packet<F: Fronts>(alloc: Global, front: F) -> ToStage<F>
    requires log { F.log front ≡ one_note }
    requires one { AreOne F.are_one }
    ensures { IsForFirst F.are_one (message_of result) }
{
    let from = front.len();
    let packet = BasePacket::new(0, from, front, Vec::new(alloc), None, Some(MARKER));
    ToStage::Packet { source: 0, packet }
}

// Whether it has stopped, and refuses a request.
fn has_stopped<'p, F: Fronts>(
    alloc: Global,
    domain: &mut StageDomain<'p, F>,
) -> Result<bool, Refused>
    requires plan { domain.old.plan ≡ notes_plan }
{
    let mut out = StageOutbox::new(alloc, 1, 1)?;
    let ask = ToStage::Request(Request::new(Tag(1), Value::Int(7)));
    match domain.receive(alloc, ask, &mut out) {
        Err(Refused::Stopped) => Ok(domain.mode() == Mode::Stopped),
        Err(refused) => Err(refused),
        Ok(()) => Ok(false),
    }
}

// Whether the packet that it is told is a gap, and stops it.
fn finds_a_gap<'p, F: Fronts>(
    alloc: Global,
    domain: &mut StageDomain<'p, F>,
    packet: ToStage<F>,
) -> Result<bool, Refused>
    requires first { IsFirstStage domain.old }
    requires met { IsForFirst F.are_one (message_of packet) }
{
    let mut out = StageOutbox::new(alloc, 1, 1)?;
    match domain.receive(alloc, packet, &mut out) {
        Err(Refused::Gap) => has_stopped(alloc, domain),
        Err(refused) => Err(refused),
        Ok(()) => Ok(false),
    }
}

// The same of a stage shard at the empty log of a right.
fn a_new_one_finds_a_gap<F: Fronts>(
    alloc: Global,
    plan: &Plan,
    words: &F::Words,
    right: F::Right,
) -> Result<bool, Refused>
    requires plan { plan.now ≡ notes_plan }
    requires log { F.log (F.front right) ≡ no_notes }
    requires authors { F.authors (F.front right) ≡ [] }
    requires one { AreOne F.are_one }
{
    let mut domain: StageDomain<F> = first_stage(alloc, plan, F::of(&right, alloc)?)?;
    let later: F = front_with_note(alloc, words, right)?;
    finds_a_gap(alloc, &mut domain, later_packet(alloc, later))
}

fn finds_a_gap_over_a_list(alloc: Global) -> Result<bool, Refused> {
    let plan = Plan::built_in(alloc)?;
    let right = ListRight::new(alloc, &plan, 0)?;
    a_new_one_finds_a_gap::<ListFront>(alloc, &plan, &(), right)
}

#[test]
fn a_packet_out_of_turn_is_a_gap(rt: HostRuntime) -> Result<(), Fail> {
    match finds_a_gap_over_a_list(rt.alloc()) {
        Err(Refused::NoMemory) => Err(Fail::from(AllocError)),
        found => {
            assert!(rt; found == Ok(true));
            Ok(())
        }
    }
}
