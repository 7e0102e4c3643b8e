//! Markers that have not come from all senders.
ghost use Rattle.std.specs.Prelude.{◌≡◌, ◌<◌, ◌∷◌, [], length, position, slice_index_or, IfOk, OnOk, OnErr};
ghost use Rattle.row.specs.Bags.{Each};
ghost use Rattle.packet.specs.{Codes.mark_of, Codes.marks_in, Marks.IsWaiting, Marks.arrived, Marks.come, Marks.complete, Marks.first_of, Marks.has_come, Marks.partly, Leaves.left_at, Leaves.no_gathering, Leaves.OthersWait, Messages.is_mark};

use crate::request::Marker;
use std::alloc::{AllocError, Global};
use std::marker::Model;

/// A marker, and for each sender whether it has come from there.
#[derive(Drop)]
struct Gathering {
    marker: Marker,
    here: Vec<bool>,
}

impl Model for Gathering {
    ghost use Rattle.packet.specs.{Codes.mark_of, Marks.Gathering as GatheringView};

    ghost Value = { GatheringView };

    ghost view = { λ g. record { mark = mark_of g.marker; here = g.here.items } };
}

impl Gathering {
    /// It has come from this sender alone.
    fn new(
        alloc: Global,
        senders: usize,
        sender: usize,
        marker: Marker,
    ) -> Result<Gathering, AllocError>
        requires { sender < senders }
        ensures { IfOk result (λ g. g ≡ first_of senders sender (mark_of marker)) }
    {
        let mut here = vec![in alloc; false; senders]?;
        here[sender] = true;
        Ok(Gathering { marker, here })
    }

    /// Whether it is of this marker.
    fn is_of(&self, marker: Marker) -> bool
        ensures { result ≡ is_mark self.now.mark (mark_of marker) }
    {
        self.marker.session == marker.session && self.marker.number == marker.number
    }

    /// It has come from this sender too.
    fn arrive(&mut self, sender: usize)
        requires { sender < length self.old.here }
        ensures { self.new ≡ arrived sender self.old }
    {
        self.here[sender] = true;
    }

    /// Whether it has come from each sender.
    fn has_come(&self) -> bool
        ensures { result ≡ has_come self.now }
    {
        self.here.iter().all(|here| *here)
    }
}

/// The markers of fences that have come from some of a number of senders, and not from all.
#[derive(Drop)]
pub struct Marks {
    senders: usize,
    waiting: Vec<Gathering>,
}

impl Model for Marks {
    ghost use Rattle.packet.specs.Marks.{MarksView, IsWaiting};
    ghost use Rattle.row.specs.Bags.{Each};

    ghost Value = { MarksView };

    ghost view = { λ m. record { senders = m.senders; waiting = m.waiting.items } };

    ghost invariant = { λ m. Each (IsWaiting m.senders) m.waiting.items };
}

impl Marks {
    /// A marker has come from a sender: the marker, where it has come from each of them now.
    /// Errors: memory only; then all is as it was. Cost: a look at each marker that waits.
    pub fn come(
        &mut self,
        alloc: Global,
        sender: usize,
        marker: Marker,
    ) -> Result<Option<Marker>, AllocError>
        requires { sender < self.old.senders }
        ensures complete { IfOk result (λ m. marks_in m
            ≡ complete (come self.old.senders sender (mark_of marker) self.old.waiting)) }
        ensures waiting { OnOk result (self.new ≡ record self.old {
          waiting = partly (come self.old.senders sender (mark_of marker) self.old.waiting);
        }) }
        ensures err { OnErr result (self.new ≡ self.old) }
    {
        let at = gather(alloc, &mut self.waiting, self.senders, sender, marker)?;
        Ok(leave(&mut self.waiting, at))
    }

    /// None has come from any of `senders` senders. Takes no memory.
    pub fn new(alloc: Global, senders: usize) -> Marks
        ensures { result ≡ record { senders = senders; waiting = [] } }
    {
        Marks {
            senders,
            waiting: Vec::new(alloc),
        }
    }
}

/// Takes in that a marker has come from a sender, and answers the place of its gathering.
fn gather(
    alloc: Global,
    waiting: &mut Vec<Gathering>,
    senders: usize,
    sender: usize,
    marker: Marker,
) -> Result<usize, AllocError>
    requires sender { sender < senders }
    requires waiting { Each (IsWaiting senders) waiting.old.items }
    ensures come { OnOk result (waiting.new.items
        ≡ come senders sender (mark_of marker) waiting.old.items) }
    ensures place { IfOk result (λ at. OthersWait senders at waiting.new.items) }
    ensures err { OnErr result (waiting.new.items ≡ waiting.old.items) }
{
    match find(waiting, marker) {
        Some(at) => {
            waiting[at].arrive(sender);
            Ok(at)
        }
        None => {
            let gathering = Gathering::new(alloc, senders, sender, marker)?;
            waiting.push(gathering)?;
            Ok(waiting.len() - 1)
        }
    }
}

/// The place of the gathering of this marker.
fn find(waiting: &[Gathering], marker: Marker) -> Option<usize>
    ensures { result ≡ position (λ g. is_mark g.mark (mark_of marker)) waiting.now }
{
    waiting.iter().position(|other| other.is_of(marker))
}

/// The marker at a place, moved out where it has come from each sender.
fn leave(waiting: &mut Vec<Gathering>, at: usize) -> Option<Marker>
    requires { at < length waiting.old.items }
    ensures marker { marks_in result
        ≡ complete (slice_index_or waiting.old.items at no_gathering ∷ []) }
    ensures rest { waiting.new.items ≡ left_at at waiting.old.items }
{
    if waiting[at].has_come() {
        Some(waiting.remove(at).marker)
    } else {
        None
    }
}
