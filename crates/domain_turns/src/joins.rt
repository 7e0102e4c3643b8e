//! Packets of one sender that wait one behind the other.
ghost use Rattle.std.specs.Prelude.{◌≡◌, ◌↔◌, IsTrue};
ghost use Rattle.packet.specs.Joined.{GoesOnBase, GoesOnStage};

use book::front::Front;
use book::law::Naming;
use model::fronts::Fronts;
use packet::base_packet::BasePacket;
use packet::stage_packet::StagePacket;
use view_domain::turn::starts_at;

/// Whether the second packet goes on where the first one ends, and both are updates, which carry neither
/// a piece nor a marker: so the two can be joined. Constant time.
pub fn base_goes_on<J: Naming>(packet: &BasePacket<Front<J>>, next: &BasePacket<Front<J>>) -> bool
    ensures { IsTrue result ↔ GoesOnBase packet.now next.now }
{
    packet.is_update()
        && next.is_update()
        && packet.stage() == next.stage()
        && packet.base() == next.base()
        && starts_at_end(packet, next)
}

// Whether the second packet, of the same base shard, starts where the first one ends.
fn starts_at_end<J: Naming>(packet: &BasePacket<Front<J>>, next: &BasePacket<Front<J>>) -> bool
    requires { packet.now.base ≡ next.now.base }
    ensures plan { next.now.plan ≡ packet.now.plan }
    ensures from { IsTrue result ↔ (next.now.from ≡ packet.now.to) }
{
    next.is_true();
    let (to, end) = (packet.to(), next.to());
    Fronts::meet(to, end);
    next.from() == to.len()
}

/// Whether the second packet goes on where the first one ends, and they can be one: so the two can be
/// joined. Cost: two lengths of each front.
pub fn stage_goes_on<J: Naming>(
    packet: &StagePacket<Front<J>>,
    next: &StagePacket<Front<J>>,
) -> bool
    ensures { IsTrue result ↔ GoesOnStage packet.now next.now }
{
    let (own, other) = (packet.reader(), next.reader());
    packet.is_one_with(next)
        && packet.stage() == next.stage()
        && own.view == other.view
        && own.shard == other.shard
        && starts_at_line(packet, next)
}

// Whether the second packet starts at the line at which the first one ends, of the same plan.
fn starts_at_line<J: Naming>(packet: &StagePacket<Front<J>>, next: &StagePacket<Front<J>>) -> bool
    ensures { IsTrue result
        ↔ ((next.now.plan ≡ packet.now.plan) × (next.now.from ≡ packet.now.to)) }
{
    let (from, to, end) = (next.from(), packet.to(), next.to());
    if to.sources() == 0 || end.sources() == 0 {
        return to.sources() == end.sources();
    }
    let (_front, _other) = (to.front(0), end.front(0));
    starts_at(from, end, to)
}
