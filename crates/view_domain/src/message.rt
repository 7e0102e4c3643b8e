//! Messages to a view shard.

use model::fronts::Fronts;
use packet::stage_packet::StagePacket;
use row::value::Value;

/// What comes to a view shard: a packet of a stage shard, a key that a session wants, or an order
/// to evict a key.
#[derive(Drop)]
pub enum ToView<F: Fronts> {
    Packet {
        stage: usize,
        packet: StagePacket<F>,
    },
    Want {
        key: Value,
    },
    Order {
        key: Value,
    },
}
