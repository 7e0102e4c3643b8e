//! What comes to a stage shard.
use model::fronts::Fronts;
use packet::base_packet::BasePacket;
use packet::request::Request;
use row::value::Value;

/// What comes to a stage shard: a packet of a source, a request of a view shard, or an order to
/// evict a stage key.
#[derive(Drop)]
pub enum ToStage<F: Fronts> {
    Packet {
        source: usize,
        packet: BasePacket<F>,
    },
    Request(Request),
    Order(Value),
}
