//! Orders to evict a key of the stage or of a view, and counts of requests.
ghost use Rattle.std.specs.Prelude.{◌≡◌, ◌⊎◌, IfErr, IfOk, IfSome, Some, Err};
ghost use Rattle.row.specs.Cells.{datum_of};
ghost use Rattle.sessions.specs.{Counts.IsCount, Counts.named_refusal, Orders.order_refusal, Reads.HasLooked, Reads.asked_refusal};

use crate::reads::key_place;
use crate::session::Session;
use book::law::Naming;
use routes::mail::ViewMail;
use row::refused::Refused;
use row::value::Value;
use schedule::arguments::{read_target, stage_target, view_target};
use schedule::wire::Spot;
use stage_steps::message::ToStage;
use std::alloc::Global;
use std::sync::Wait;

impl<J: Naming> Session<J> {
    /// Orders the stage shard of a stage key to evict it. It is answered once the order is sent,
    /// and changes nothing of the session.
    ///
    /// Refused with, looked for in this order: `Stolen` where the session's call numbers are spent
    /// or its word was found moved before, `BadKey` where the key is no cell of the column that
    /// keys the left table for the stage, `Stopped` where the stage shard or the store has stopped;
    /// `NoMemory` at any place after `BadKey`. Cost: a copy of the key and one message.
    pub fn evict_stage<R: Wait>(
        &mut self,
        rt: &R,
        alloc: Global,
        key: &Value,
    ) -> Result<(), Refused>
        ensures stays { self.new ≡ self.old }
        ensures why { IfSome (order_refusal J.plan self.old (datum_of key.now))
            (λ e. result ≡ Err e) }
        ensures only { IfErr result (λ e. (order_refusal J.plan self.old (datum_of key.now)
            ≡ Some e) ⊎ (e ≡ Refused.Stopped) ⊎ (e ≡ Refused.NoMemory)) }
    {
        if self.is_spent() {
            return Err(Refused::Stolen);
        }
        let stage = stage_target(self.plan(), key)?;
        if self.routes.has_stopped(Spot::Stage(stage)) {
            return Err(Refused::Stopped);
        }
        let Ok(key) = key.try_clone(alloc) else {
            return Err(Refused::NoMemory);
        };
        self.routes
            .to_stage(rt, self.word.number(), stage, ToStage::Order(key))
    }

    /// Orders the key's view shard to evict a key of a view. It is answered once the order is sent,
    /// and changes nothing of the session.
    ///
    /// Refused with, looked for in this order: `Stolen` where the session's call numbers are spent
    /// or its word was found moved before, `UnknownView`, `BadKey`, `Stopped` where the view shard
    /// or the store has stopped; `NoMemory` at any place after `BadKey`. Cost: a look at each
    /// view's name, a copy of the key and one message.
    pub fn evict_view<R: Wait>(
        &mut self,
        rt: &R,
        alloc: Global,
        view: &str,
        key: &Value,
    ) -> Result<(), Refused>
        ensures stays { self.new ≡ self.old }
        ensures why { IfSome (asked_refusal J.plan self.old view.now (datum_of key.now))
            (λ e. result ≡ Err e) }
        ensures only { IfErr result (λ e. (asked_refusal J.plan self.old view.now
            (datum_of key.now) ≡ Some e) ⊎ (e ≡ Refused.Stopped) ⊎ (e ≡ Refused.NoMemory)) }
    {
        if self.is_spent() {
            return Err(Refused::Stolen);
        }
        let view = read_target(self.plan(), view, key)?;
        let place = key_place(&self.routes, view, key);
        if self.routes.has_stopped(Spot::View(place)) {
            return Err(Refused::Stopped);
        }
        let Ok(key) = key.try_clone(alloc) else {
            return Err(Refused::NoMemory);
        };
        self.order(rt, place, key)
    }

    // Sends the order to evict a key to the view shard at a place.
    fn order<R: Wait>(&self, rt: &R, place: usize, key: Value) -> Result<(), Refused>
        ensures only { IfErr result (λ e. (e ≡ Refused.Stopped) ⊎ (e ≡ Refused.NoMemory)) }
    {
        self.routes
            .to_view(rt, self.word.number(), place, ViewMail::Order { key })
    }

    /// How many requests the shards of a view had sent, in all, as they are now shown; at most the
    /// greatest number. It waits for nobody.
    ///
    /// Refused with, looked for in this order: `Stolen` where the session's call numbers are spent
    /// or its word was found moved before, `UnknownView`; then `NoMemory`. It changes nothing of
    /// the session but what it has looked at. Cost: a look at each view's name, and at what is
    /// shown of each of its shards.
    pub fn asked(&mut self, view: &str) -> Result<u64, Refused>
        ensures why { IfSome (named_refusal J.plan self.old view.now)
            (λ e. (result ≡ Err e) × (self.new ≡ self.old)) }
        ensures count { IfOk result (IsCount J.plan view.now self.new.shown) }
        ensures looked { HasLooked self.old self.new }
        ensures only { IfErr result (λ e. (named_refusal J.plan self.old view.now ≡ Some e)
            ⊎ (e ≡ Refused.NoMemory)) }
    {
        if self.is_spent() {
            return Err(Refused::Stolen);
        }
        let view = view_target(self.plan(), view)?;
        self.sights.asked(&self.routes, view)
    }
}
