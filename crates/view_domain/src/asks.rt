//! Requests of a view shard, and what a packet makes it put out.
ghost use Rattle.std.specs.Prelude.{◌≡◌, ◌<◌, [], List, Some, None, map, length, replicate, slice_get, slice_set, false, is_some, IfOk, OnOk, IfSome, IfNone, Option};
ghost use Rattle.row.specs.{Groups.equal, declared.value.Value.Value as Key, Cells.Cells, Cells.datum_of};
ghost use Rattle.partial.specs.{States.state_of, States.is_hole, Sums.sum_of_bags, Truth.IsTrueOf};
ghost use Rattle.packet.specs.{Codes.mark_in, Codes.marks_in, Keys.is_among, Keys.stands_of, Keys.begin_at, Marks.complete, Marks.partly, Truth.changes_at, Truth.key_of_piece};
ghost use Rattle.protocol.specs.ViewSteps.{again, capped, counted, drop_all, give_piece, marks_with};
ghost use Rattle.view_domain.specs.{Shown.LeadsTo, Shown.rows_at, Taken.IsStepOf, Taken.IsPieceFor, Taken.MayTake, Taken.asks_by};

use crate::shown::KeyChange;
use crate::takes::take_in;
use key_rows::kept::KeyRows;
use packet::marks::Marks;
use packet::request::{Marker, Request};
use packet::stage_packet::Content;
use partial::partial::Partial;
use plan::domain::Tag;
use row::value::Value;
use std::alloc::{AllocError, Global};

/// How a view asks for keys, and how many filled ones each of its shards keeps.
#[derive(Clone, Copy)]
pub(crate) struct Asks {
    pub(crate) tag: Tag,
    pub(crate) cap: usize,
}

/// The count of requests with this many more; it stays at the greatest number.
pub(crate) fn count(asked: u64, more: usize) -> u64
    ensures { result ≡ counted asked more }
{
    if more as u64 <= u64::MAX - asked {
        asked + more as u64
    } else {
        u64::MAX
    }
}

/// A request for each of the keys, in order.
fn requests_for(alloc: Global, tag: Tag, keys: Vec<Value>) -> Result<Vec<Request>, AllocError>
    ensures { IfOk result (λ v. v.items ≡ asks_by tag.0 (map datum_of keys.items)) }
{
    let mut requests = Vec::new(alloc);
    for key in keys {
        requests.push(Request::new(tag, key))?;
    }
    Ok(requests)
}

/// So many requests of one key.
fn requests_of(
    alloc: Global,
    tag: Tag,
    key: &Value,
    count: usize,
) -> Result<Vec<Request>, AllocError>
    ensures { IfOk result (λ v. v.items
        ≡ replicate count (record { tag = tag.0; key = datum_of key.now })) }
{
    let mut requests = Vec::new(alloc);
    for _ in 0..count {
        requests.push(Request::new(tag, key.try_clone(alloc)?))?;
    }
    Ok(requests)
}

/// Makes a hole wait, and answers a request of it for each source; `None` where the key is no hole,
/// and then nothing changes.
#[tactic(auto, using(row::proofs::Keys::value_equivalence))]
pub(crate) fn begin_key(
    alloc: Global,
    kept: &mut Partial<Value, KeyRows>,
    tag: Tag,
    key: Value,
) -> Result<Option<Vec<Request>>, AllocError>
    ensures sources { kept.new.sources ≡ kept.old.sources }
    ensures hole { IfOk result (λ o. is_some o
        ≡ is_hole ((stands_of kept.old).at (datum_of key))) }
    ensures begins { IfOk result (λ o. IfSome o (λ v. stands_of kept.new
        ≡ begin_at kept.old.sources (datum_of key) (stands_of kept.old))) }
    ensures requests { IfOk result (λ o. IfSome o (λ v. v.items ≡ replicate kept.old.sources
        (record { tag = tag.0; key = datum_of key }))) }
    ensures stays { IfOk result (λ o. IfNone o (stands_of kept.new ≡ stands_of kept.old)) }
    ensures truth { (k : Key) (parts : List (List Cells)) → length parts ≡ kept.old.sources
        → IsTrueOf sum_of_bags parts (state_of equal kept.old k)
        → OnOk result (IsTrueOf sum_of_bags parts (state_of equal kept.new k)) }
    ensures shown { OnOk result (LeadsTo (rows_at kept.old) [] kept.new) }
{
    let copy = key.try_clone(alloc)?;
    if !kept.begin(alloc, copy)? {
        return Ok(None);
    }
    let count = kept.sources();
    Ok(Some(requests_of(alloc, tag, &key, count)?))
}

/// Takes in the marker of a source, if there is one: the one that has come from all now.
fn come(
    alloc: Global,
    marks: &mut Marks,
    source: usize,
    marker: Option<Marker>,
) -> Result<Option<Marker>, AllocError>
    requires sender { source < marks.old.senders }
    requires waiting { complete marks.old.waiting ≡ [] }
    ensures marks { OnOk result (marks.new ≡ record marks.old {
      waiting = partly (marks_with marks.old.senders source (mark_in marker) marks.old.waiting);
    }) }
    ensures ack { IfOk result (λ m. marks_in m
        ≡ complete (marks_with marks.old.senders source (mark_in marker) marks.old.waiting)) }
{
    match marker {
        Some(marker) => marks.come(alloc, source, marker),
        None => Ok(None),
    }
}

/// What a packet makes a view shard put out: what becomes of keys, requests to its sender, and the
/// fence that it completes.
#[derive(Drop)]
pub(crate) struct Made {
    pub(crate) told: Vec<KeyChange>,
    pub(crate) requests: Vec<Request>,
    pub(crate) ack: Option<Marker>,
}

/// Takes in what a packet of a source carries, and makes all that is put out for it. Errors: memory
/// only; what is then held is not said.
pub(crate) fn prepare(
    alloc: Global,
    kept: &mut Partial<Value, KeyRows>,
    marks: &mut Marks,
    source: usize,
    asks: Asks,
    content: Content,
) -> Result<Made, AllocError>
    requires may { MayTake source (map datum_of content.evicts.items) content.changes.items
        kept.old }
    requires sender { source < marks.old.senders }
    requires waiting { complete marks.old.waiting ≡ [] }
    ensures sources { kept.new.sources ≡ kept.old.sources }
    ensures stands { OnOk result (stands_of kept.new
        ≡ capped asks.cap (give_piece source (key_of_piece content.piece)
        (drop_all source (map datum_of content.evicts.items) (stands_of kept.old)))) }
    ensures truth { (k : Key) (parts : List (List Cells)) (part next : List Cells)
        → slice_get parts source ≡ Some part
        → (is_among (map datum_of content.evicts.items) (datum_of k) ≡ false
        → IsStepOf part (changes_at (datum_of k) content.changes.items) next)
        → IsPieceFor content.piece k (slice_set parts source next) source
        → IsTrueOf sum_of_bags parts (state_of equal kept.old k)
        → OnOk result (IsTrueOf sum_of_bags (slice_set parts source next)
        (state_of equal kept.new k)) }
    ensures shown { IfOk result (λ m. LeadsTo (rows_at kept.old) m.told.items kept.new) }
    ensures requests { IfOk result (λ m. m.requests.items ≡ asks_by asks.tag.0
        (again source (map datum_of content.evicts.items) (stands_of kept.old))) }
    ensures marks { OnOk result (marks.new ≡ record marks.old {
      waiting = partly (marks_with marks.old.senders source (mark_in content.marker)
          marks.old.waiting);
    }) }
    ensures ack { IfOk result (λ m. marks_in m.ack
        ≡ complete (marks_with marks.old.senders source (mark_in content.marker)
        marks.old.waiting)) }
{
    let Content {
        changes,
        evicts,
        piece,
        marker,
    } = content;
    let taken = take_in(alloc, kept, source, asks.cap, changes, evicts, piece)?;
    let requests = requests_for(alloc, asks.tag, taken.asks)?;
    let ack = come(alloc, marks, source, marker)?;
    let told = taken.told;
    Ok(Made {
        told,
        requests,
        ack,
    })
}
