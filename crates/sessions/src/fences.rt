//! Fences of a session.
ghost use Rattle.std.specs.Prelude.{◌≡◌, ◌⊎◌, ◌<◌, IfOk, OnOk, IfErr, Some, map};
ghost use Rattle.row.specs.Bags.{Each};
ghost use Rattle.book.specs.Fronts.{FrontView};
ghost use Rattle.sessions.specs.{Sights.IsCovering, Sights.IsCut, Reads.HasLooked};
ghost use Rattle.model.specs.{Legal.IsLegal, Places.sources, Tables.places_of};
ghost use Rattle.protocol.specs.Bases.{last_number};

use crate::session::Session;
use book::cut::Cuts;
use book::front::Front;
use book::law::Naming;
use calls::fence::pass;
use model::place::Place;
use packet::request::Marker;
use row::refused::Refused;
use std::alloc::{AllocError, Global};
use std::sync::Wait;

impl<J: Naming> Session<J> {
    ghost use Rattle.sessions.specs.{Fences.IsFenced, Fences.IsUnfenced, Fences.own_places, Inserts.stolen_refusal};

    /// Raises the floors, as one step: afterwards each floor has, for each stage shard, every entry
    /// of a source that the session had seen, and each of its own accepted writes there. It looks
    /// at each source's log, sends a marker through all sources, and waits until it has come
    /// through to each shard of each view. The floors are the cuts that are then shown.
    ///
    /// Refused with `Stolen` where the session's call numbers are spent or its word was moved by
    /// another, `Stopped` where a part that it needs or the store has stopped, `Behind` where less
    /// is shown of a source than was looked at, or `NoMemory`. A refused fence leaves the floors
    /// and what was accepted, and but for `Stolen` what was seen. Cost: one message for each
    /// source, one acknowledgement and a cut for each shard of each view.
    pub fn fence<R: Wait>(&mut self, rt: &R, alloc: Global) -> Result<(), Refused>
        ensures legal { IsLegal J.plan J.sessions self.new.seen }
        ensures spent { stolen_refusal self.old ≡ Some Refused.Stolen
            → (result ≡ Err Refused.Stolen) × (self.new ≡ self.old) }
        ensures fenced { OnOk result (IsFenced J.plan self.old self.new) }
        ensures refused { IfErr result (λ e. ((stolen_refusal self.old ≡ Some e)
            × (self.new ≡ self.old)) ⊎ IsUnfenced J.plan self.old self.new e) }
    {
        let answer = self.fence_sources(rt, alloc);
        self.seen.is_legal();
        answer
    }

    fn fence_sources<R: Wait>(&mut self, rt: &R, alloc: Global) -> Result<(), Refused>
        ensures spent { stolen_refusal self.old ≡ Some Refused.Stolen
            → (result ≡ Err Refused.Stolen) × (self.new ≡ self.old) }
        ensures fenced { OnOk result (IsFenced J.plan self.old self.new) }
        ensures refused { IfErr result (λ e. ((stolen_refusal self.old ≡ Some e)
            × (self.new ≡ self.old)) ⊎ IsUnfenced J.plan self.old self.new e) }
    {
        if self.is_spent() {
            return Err(Refused::Stolen);
        }
        let Ok(looked) = self.look_at_sources(alloc) else {
            return Err(Refused::NoMemory);
        };
        let marker = Marker {
            session: self.word.number(),
            number: self.number,
        };
        if let Err(refused) = pass(rt, &self.routes, marker) {
            self.number += 1;
            return Err(refused);
        }
        match self.shown_cuts(alloc, looked.as_slice()) {
            Ok(cuts) => self.end_fence(alloc, looked.as_slice(), cuts),
            Err(refused) => {
                self.number += 1;
                Err(refused)
            }
        }
    }

    // The cut of what is now shown of each shard of each view, no less than what was looked at.
    fn shown_cuts(&mut self, alloc: Global, looked: &[Front<J>]) -> Result<Cuts<J>, Refused>
        ensures looked { HasLooked self.old self.new }
        ensures cuts { IfOk result (λ c. Each (IsCut J.plan looked.now c) self.new.shown) }
        ensures only { IfErr result (λ e. (e ≡ Refused.NoMemory) ⊎ (e ≡ Refused.Behind)) }
    {
        self.sights.cuts(alloc, &self.routes, &self.seen, looked)
    }

    // A front of each source that has all of its log, which is no less than was seen of it.
    fn look_at_sources(&self, alloc: Global) -> Result<Vec<Front<J>>, AllocError>
        ensures bases { IfOk result (λ v. map (λ (f : FrontView). f.base) v.items
            ≡ sources J.plan) }
        ensures all { IfOk result (λ v. Each (IsCovering self.now.seen) v.items) }
    {
        let mut fronts = Vec::new(alloc);
        for base in self.routes.sources() {
            let mut front = self.seen.front(*base);
            front.catch_up(self.routes.book());
            fronts.push(front)?;
        }
        Ok(fronts)
    }

    // Makes the fence item, at these cuts.
    fn end_fence(
        &mut self,
        alloc: Global,
        looked: &[Front<J>],
        cuts: Cuts<J>,
    ) -> Result<(), Refused>
        requires bases { map (λ (f : FrontView). f.base) looked.now ≡ sources J.plan }
        requires all { Each (IsCovering self.old.seen) looked.now }
        requires number { self.old.number < last_number }
        requires cuts { Each (IsCut J.plan looked.now cuts) self.old.shown }
        ensures fenced { OnOk result (IsFenced J.plan self.old self.new) }
        ensures refused { IfErr result (λ e. IsUnfenced J.plan self.old self.new e) }
    {
        let _looked = looked.len();
        self.number += 1;
        let Ok(own) = self.own_places(alloc) else {
            return Err(Refused::NoMemory);
        };
        self.word.learn(&self.seen);
        let fenced = self.word.fence(self.routes.book(), &own, cuts);
        self.seen = self.word.part();
        match fenced {
            Ok(()) => Ok(()),
            Err(_) => {
                self.stolen = true;
                Err(Refused::Stolen)
            }
        }
    }

    // The greatest accepted index of each source.
    fn own_places(&self, alloc: Global) -> Result<Vec<Place>, AllocError>
        ensures { IfOk result (λ v. places_of v.items ≡ own_places J.plan self.now.accepted) }
    {
        let mut own = Vec::new(alloc);
        for base in self.routes.sources() {
            if let Some(Some(index)) = self.accepted.get(*base) {
                own.push(Place {
                    base: *base,
                    index: *index,
                })?;
            }
        }
        Ok(own)
    }
}
