//! All domains and edges in one value, in the midst of a step as well.
use base_domain::base_domain::BaseDomain;
use model::fronts::Fronts;
use packet::base_packet::BasePacket;
use packet::request::Request;
use packet::stage_packet::StagePacket;
use schedule::caller::Caller;
use schedule::places::Places;
use schedule::queues::Queues;
use stage_domain::stage_domain::StageDomain;
use view_domain::view_domain::ViewDomain;

/// All domains of a plan, the queue of each edge, and the sessions. Nothing is kept by the type:
/// each call says what it asks and what it leaves.
pub struct Machine<'p, F: Fronts> {
    /// The plan, and where its domains and edges stand.
    pub places: Places<'p>,
    /// The base shards, in the order of the plan.
    pub bases: Vec<BaseDomain<'p, F>>,
    /// The stage shards.
    pub stages: Vec<StageDomain<'p, F>>,
    /// The view shards, view by view.
    pub views: Vec<ViewDomain<'p, F>>,
    /// From each source to each stage shard.
    pub to_stage: Queues<BasePacket<F>>,
    /// From each stage shard to each view shard.
    pub to_view: Queues<StagePacket<F>>,
    /// Requests from each view shard to each stage shard.
    pub from_view: Queues<Request>,
    /// Requests from each stage shard to each source.
    pub to_base: Queues<Request>,
    /// The sessions.
    pub callers: Vec<Caller>,
}

// What holds one drops it by this call, and need not know its parts.
impl<F: Fronts> Drop for Machine<'_, F> {
    fn drop(self) {
        let Machine {
            places: _,
            bases: _,
            stages: _,
            views: _,
            to_stage: _,
            to_view: _,
            from_view: _,
            to_base: _,
            callers: _,
        } = self;
    }
}
