//! The lines that are held: whether a packet starts at one, and that it is held where the packet ends.
ghost use Rattle.std.specs.Prelude.{◌≡◌, ◌≤◌, ◌↔◌, IfOk, IsTrue, OnOk, length, take};
ghost use Rattle.packet.specs.{Lines.entries_of, Lines.fronts_to, Truth.Pointwise};
ghost use Rattle.view_domain.specs.Outboxes.{new_line};

use model::fronts::Fronts;
use packet::line::Line;
use packet::stage_packet::Content;
use std::alloc::{AllocError, Global};

/// Whether a front's first entries, up to this length, are those of the front that is held, which
/// is of the same log. Constant time.
fn is_held<F: Fronts>(from: u64, to: &F, held: &F) -> bool
    requires { F.are_one (F.log held.now) (F.log to.now) }
    ensures { IsTrue result ↔ (take from (F.log to.now).entries ≡ (F.log held.now).entries) }
{
    held.meet(to);
    from.min(to.len()) == held.len()
}

/// Whether the first entries of each front of a line, up to these lengths, are those of the line
/// that is held, which is of the same logs. Cost: two lengths of each front.
pub fn starts_at<F: Fronts>(from: &[u64], to: &Line<F>, held: &Line<F>) -> bool
    requires one { Pointwise F.are_one held.now to.now }
    requires count { length to.now ≤ length from.now }
    ensures { IsTrue result ↔ (fronts_to from.now (entries_of to.now) ≡ entries_of held.now) }
{
    for source in 0..held.sources() {
        if !is_held(from[source], to.front(source), held.front(source)) {
            return false;
        }
    }
    true
}

/// Holds the line at which a packet with this content ends, and gives it on where it may have moved: a
/// packet with a piece or a marker moves none. Errors: memory only; what is held is then not said.
/// Cost: a copy of each front where it may have moved.
pub(crate) fn hold<F: Fronts>(
    alloc: Global,
    held: &mut Line<F>,
    to: Line<F>,
    content: &Content,
) -> Result<Option<Line<F>>, AllocError>
    requires { length held.old ≡ length to }
    ensures held { OnOk result (held.new ≡ to) }
    ensures line { IfOk result (λ o. o ≡ new_line content.now.piece content.now.marker to) }
{
    if content.piece.is_some() || content.marker.is_some() {
        *held = to;
        return Ok(None);
    }
    held.copy_from(alloc, &to)?;
    Ok(Some(to))
}
