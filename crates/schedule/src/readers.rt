//! The shards of all views.
ghost use Rattle.std.specs.Prelude.{◌≡◌, ◌<◌, ◌++◌, length, map, position, IfOk, OnOk};
ghost use Rattle.packet.specs.Readers.{is_reader, readers, readers_of};
ghost use Rattle.schedule.specs.Codes.{reader_in};

use packet::reader::Reader;
use plan::plan::Plan;
use std::alloc::{AllocError, Global};

/// The shards of the views, view by view. Errors: memory only.
pub fn readers(alloc: Global, plan: &Plan) -> Result<Vec<Reader>, AllocError>
    ensures { IfOk result (λ v. map reader_in v.items ≡ readers plan.now) }
{
    let mut out = Vec::new(alloc);
    for view in 0..plan.views() {
        push_readers(&mut out, plan, view)?;
    }
    Ok(out)
}

/// Puts the shards of a view behind the others.
fn push_readers(out: &mut Vec<Reader>, plan: &Plan, view: usize) -> Result<(), AllocError>
    requires { view < length plan.now.views }
    ensures { OnOk result (map reader_in out.new.items
        ≡ map reader_in out.old.items ++ readers_of plan.now view) }
{
    for shard in 0..plan.view(view).shards() {
        out.push(Reader { view, shard })?;
    }
    Ok(())
}

/// The place of a shard of a view among these.
pub fn place_of(readers: &[Reader], view: usize, shard: usize) -> Option<usize>
    ensures { result ≡ position (λ r. is_reader view shard (reader_in r)) readers.now }
{
    readers
        .iter()
        .position(|reader| reader.view == view && reader.shard == shard)
}
