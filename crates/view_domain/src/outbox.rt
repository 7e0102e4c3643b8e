//! What a view domain puts out.
ghost use Rattle.std.specs.Prelude.{◌≡◌, ◌<◌, ◌∷◌, [], None, length, map, slice_index_or, slice_set, IfOk, OnOk, OnErr, IsOkUnless};
ghost use Rattle.packet.specs.{Messages.none_of, Messages.to_one, Outboxes.no_edge, Outboxes.packets_on};
ghost use Rattle.view_domain.specs.Outboxes.{IsClear};

use crate::shown::ShownChange;
use model::fronts::Fronts;
use packet::edges::Edges;
use packet::request::{Marker, Request};
use row::refused::Refused;
use std::alloc::{AllocError, Global};
use std::marker::Model;

/// All that one message makes a view domain put out: for each stage shard its requests in order,
/// one operation on the shown copy, and one fence that is acknowledged with the cut.
#[derive(Drop)]
pub struct ViewOutbox<F: Fronts> {
    requests: Edges<Request>,
    shown: Option<ShownChange<F>>,
    ack: Option<Marker>,
}

impl<F: Fronts> Model for ViewOutbox<F> {
    ghost use Rattle.view_domain.specs.Outboxes.{OutboxView};

    ghost Value = { OutboxView };

    ghost view = { λ o. record { requests = o.requests; shown = o.shown; ack = o.ack } };
}

impl<F: Fronts> ViewOutbox<F> {
    /// An outbox with an edge to each of `stages` stage shards, and nothing in it. Errors: memory
    /// only.
    pub fn new(alloc: Global, stages: usize) -> Result<ViewOutbox<F>, AllocError>
        ensures clear { IfOk result (λ o. IsClear o) }
        ensures edges { IfOk result (λ o. length o.requests ≡ stages) }
    {
        Ok(ViewOutbox {
            requests: Edges::new(alloc, stages)?,
            shown: None,
            ack: None,
        })
    }

    /// The requests to a stage shard, in order, moved out of it. It takes no memory.
    pub fn take_requests(&mut self, alloc: Global, stage: usize) -> Vec<Request>
        requires { stage < length self.old.requests }
        ensures requests { result.items ≡ (slice_index_or self.old.requests stage no_edge).packets }
        ensures rest { packets_on self.new.requests
            ≡ slice_set (packets_on self.old.requests) stage [] }
        ensures others { self.new ≡ record self.old { requests = self.new.requests } }
    {
        self.requests.take(alloc, stage)
    }

    /// The operation on the shown copy, moved out of it.
    pub fn take_shown(&mut self) -> Option<ShownChange<F>>
        ensures shown { result ≡ self.old.shown }
        ensures rest { self.new ≡ record self.old { shown = None } }
    {
        self.shown.take()
    }

    /// The fence that is acknowledged, moved out of it.
    pub fn take_ack(&mut self) -> Option<Marker>
        ensures ack { result ≡ self.old.ack }
        ensures rest { self.new ≡ record self.old { ack = None } }
    {
        self.ack.take()
    }

    /// The requests to each stage shard, the operation and the acknowledgement, moved out of it. It
    /// takes no memory.
    pub fn into_parts(self) -> (Edges<Request>, Option<ShownChange<F>>, Option<Marker>)
        ensures requests { result.0 ≡ self.requests }
        ensures shown { result.1 ≡ self.shown }
        ensures ack { result.2 ≡ self.ack }
    {
        (self.requests, self.shown, self.ack)
    }

    /// Puts out requests to one stage shard, an operation and an acknowledgement. It takes no
    /// memory.
    pub(crate) fn put(
        &mut self,
        stage: usize,
        requests: Vec<Request>,
        shown: Option<ShownChange<F>>,
        ack: Option<Marker>,
    )
        requires clear { packets_on self.old.requests ≡ none_of self.old.requests }
        requires stage { stage < length self.old.requests }
        ensures requests { packets_on self.new.requests
            ≡ to_one (length self.old.requests) stage requests.items }
        ensures rest { self.new ≡ record {
          requests = self.new.requests;
          shown = shown;
          ack = ack;
        } }
        ensures edges { length self.new.requests ≡ length self.old.requests }
    {
        self.requests.send_all_to_one(stage, requests);
        self.shown = shown;
        self.ack = ack;
    }

    /// Puts out one request to each stage shard, and an operation. `NoMemory` leaves it clear.
    pub(crate) fn put_to_each(
        &mut self,
        requests: Vec<Request>,
        shown: Option<ShownChange<F>>,
    ) -> Result<(), Refused>
        requires clear { IsClear self.old }
        requires count { length requests.items ≡ length self.old.requests }
        ensures only { IsOkUnless result Refused.NoMemory }
        ensures requests { OnOk result (packets_on self.new.requests
            ≡ map (λ r. r ∷ []) requests.items) }
        ensures shown { OnOk result (self.new.shown ≡ shown) }
        ensures ack { self.new.ack ≡ self.old.ack }
        ensures err { OnErr result (IsClear self.new) }
        ensures edges { length self.new.requests ≡ length self.old.requests }
    {
        self.requests.reserve()?;
        self.requests.send_to_each(requests);
        self.shown = shown;
        Ok(())
    }

    /// Puts out an operation. It takes no memory.
    pub(crate) fn put_shown(&mut self, shown: Option<ShownChange<F>>)
        ensures { self.new ≡ record self.old { shown = shown } }
    {
        self.shown = shown;
    }
}
