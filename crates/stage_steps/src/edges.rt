//! Where requests and their answers go.
ghost use Rattle.std.specs.Prelude.{◌≡◌, ◌<◌, List, [], cond, length, map};
ghost use Rattle.packet.specs.{Messages.StagePacketView, Messages.to_one, Readers.is_reader, Readers.readers, Readers.view_of};
ghost use Rattle.plan.specs.Layouts.{view_at};

use packet::reader::Reader;
use plan::domain::Tag;
use plan::plan::Plan;

/// The view that a tag fills.
pub(crate) fn view_of(tag: Tag) -> usize
    ensures { result ≡ view_of tag.0 }
{
    (tag.0 as usize).saturating_sub(1)
}

/// The place of a view shard among those of all views.
pub(crate) fn edge_to(plan: &Plan, reader: Reader) -> usize
    requires view { reader.view < length plan.now.views }
    requires shard { reader.shard < (view_at plan.now reader.view).shards }
    ensures below { result < length (readers plan.now) }
    ensures place { (xs : List StagePacketView) → to_one (length (readers plan.now)) result xs
        ≡ map (λ r. cond (is_reader reader.view reader.shard r) xs []) (readers plan.now) }
{
    plan.keeps_profile();
    let mut edge = reader.shard;
    for view in 0..reader.view {
        edge += plan.view(view).shards();
    }
    edge
}
