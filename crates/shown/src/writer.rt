//! The writer of a shown copy.
ghost use Rattle.std.specs.Prelude.{◌≡◌, ◌<◌, ◌^◌, [], fold, IfOk, IfSome, OnOk, OnErr};
ghost use Rattle.packet.specs.Lines.{AreOf};
ghost use Rattle.shown.specs.{Boards.pending, Boards.shown, Boards.state, Boards.state_by, Sights.ahead, Snapshots.IsLater, Snapshots.IsTrue, Snapshots.after, Snapshots.applied, Snapshots.first_of, Snapshots.lengths_with, Snapshots.with_change};
ghost use Rattle.view_domain.specs.Outboxes.{put_line};

use crate::delta::{Delta, Moved};
use crate::reader::ShownReader;
use crate::rule::{Looks, Published, Sight, Tells};
use crate::shown::Shown;
use book::front::Front;
use book::law::Naming;
use book::part::Part;
use book::view_copy::ViewCopy;
use core::mem::replace_with;
use crossbeam_utils::rule::Protocol;
use left_right::Absorb;
use left_right::writer::Writer;
use packet::line::Line;
use plan::plan::Plan;
use std::alloc::{AllocError, Global};
use std::sync::Wait;
use view_domain::shown::{KeyChange, ShownChange};

/// A writer that may be dropped: it then waits for the readers that are inside.
pub struct Board<T: Absorb<O> + Drop, O: Drop, V, P: Protocol<T, V>, R: Wait + Drop> {
    writer: Writer<T, O, V, P>,
    rt: R,
}

impl<T: Absorb<O> + Drop, O: Drop, V, P: Protocol<T, V>, R: Wait + Drop> Drop
    for Board<T, O, V, P, R> {
    fn drop(self) {
        let Self { writer, rt } = self;
        drop(writer.take(&rt));
    }
}

/// The writing end of a shown copy.
pub type ShownWriter<J, R> = Board<Shown<J>, Delta<J>, Sight, Published, R>;

/// The shown copy of a shard of a view, by the one right to it: it shows no key, over no entries,
/// and has places for this many readers. Errors: memory only.
pub fn open<J: Naming, R: Wait + Drop>(
    rt: R,
    alloc: Global,
    plan: &Plan,
    copy: ViewCopy<J>,
    part: &Part<J>,
    readers: usize,
) -> Result<ShownWriter<J, R>, AllocError>
    requires plan { plan.now ≡ J.plan }
    requires readers { (0 < readers) × (readers < 2 ^ 32) }
    ensures first { IfOk result (λ w. shown w ≡ first_of J.plan copy.view copy.shard) }
    ensures pending { IfOk result (λ w. pending w ≡ []) }
{
    let (view, shard) = copy.reader();
    let first = Shown::new(alloc, plan, view, shard, part)?;
    let second = Shown::new(alloc, plan, view, shard, part)?;
    let writer = Writer::new(alloc, first, second, readers)?;
    Ok(Board { writer, rt })
}

impl<J: Naming, R: Wait + Drop> ShownWriter<J, R> {
    /// A reader, which has looked once and sees no less than was published last. Refused with
    /// `NoMemory`, also where each place for a reader is in use.
    pub fn reader(&mut self) -> Result<ShownReader<J>, AllocError>
        ensures view { IfOk result (λ r. r.view ≡ (shown self.old).view) }
        ensures shard { IfOk result (λ r. r.shard ≡ (shown self.old).shard) }
        ensures told { IfOk result (λ r. IfSome (state self.old).sight (λ s. IsLater s r)) }
        ensures stays { state self.new ≡ state self.old }
    {
        let shown = self.writer.published();
        let (view, shard) = (shown.view, shown.shard);
        let mut reader = self.writer.factory().reader()?;
        reader.learn::<Tells>(self.writer.tell::<Tells>());
        ShownReader::over(reader, view, shard)
    }

    /// Shows a change: what a view's shard tells of one message. It waits for readers that still
    /// look at the copy behind, applies the change to it, and turns readers to it. Errors: memory
    /// only; readers then see what they saw. Cost: a key that is filled, or whose rows have changed,
    /// is put into both copies, which share its rows with the view shard; and a look at the place of
    /// each reader.
    pub fn show(&mut self, change: ShownChange<Front<J>>) -> Result<(), AllocError>
        requires idle { pending self.old ≡ [] }
        requires stage { IfSome change.line (λ _. change.stage < J.plan.stages) }
        requires of { IfSome change.line (AreOf J.plan) }
        requires truth { IsTrue J.plan (after (shown self.old) change) }
        requires later { IsLater (shown self.old) (after (shown self.old) change) }
        ensures shown { OnOk result (shown self.new ≡ after (shown self.old) change) }
        ensures idle { OnOk result (pending self.new ≡ []) }
        ensures err { OnErr result (shown self.new ≡ shown self.old) }
    {
        let (stage, line, keys, asked) = change.into_parts();
        self.append_keys(keys)?;
        self.append_line(stage, line)?;
        self.append_asked(asked)?;
        self.publish()
    }

    // Puts what becomes of keys behind what is not published yet.
    fn append_keys(&mut self, keys: Vec<KeyChange>) -> Result<(), AllocError>
        ensures ahead { OnOk result (ahead (state self.new) ≡ record (ahead (state self.old)) {
          rows = fold with_change (ahead (state self.old)).rows keys.items;
        }) }
        ensures shown { shown self.new ≡ shown self.old }
    {
        for key in keys {
            self.append(Delta::Key(key))?;
        }
        Ok(())
    }

    // Puts the new line of a stage shard, if it has one, behind what is not published yet.
    fn append_line(&mut self, stage: usize, line: Option<Line<Front<J>>>) -> Result<(), AllocError>
        requires stage { IfSome line (λ _. stage < J.plan.stages) }
        requires of { IfSome line (AreOf J.plan) }
        ensures ahead { OnOk result (ahead (state self.new) ≡ record (ahead (state self.old)) {
          lengths = lengths_with stage line (ahead (state self.old)).lengths;
          cut = put_line stage line (ahead (state self.old)).cut;
        }) }
        ensures shown { shown self.new ≡ shown self.old }
    {
        match line {
            Some(line) => self.append(Delta::Moves(Moved::new(stage, line))),
            None => Ok(()),
        }
    }

    // Puts the count of requests, where it is not the one that is shown, behind what is not
    // published yet.
    fn append_asked(&mut self, asked: u64) -> Result<(), AllocError>
        requires { (ahead (state self.old)).asked ≡ (shown self.old).asked }
        ensures ahead { OnOk result (ahead (state self.new) ≡ record (ahead (state self.old)) {
          asked = asked;
        }) }
        ensures shown { shown self.new ≡ shown self.old }
    {
        if asked == self.writer.published().asked() {
            return Ok(());
        }
        self.append(Delta::Asks(asked))
    }

    // Puts a step behind those that are not published yet. Where memory is refused, nothing
    // changes.
    fn append(&mut self, delta: Delta<J>) -> Result<(), AllocError>
        ensures ahead { OnOk result (ahead (state self.new)
            ≡ applied (ahead (state self.old)) delta) }
        ensures err { OnErr result (ahead (state self.new) ≡ ahead (state self.old)) }
        ensures shown { shown self.new ≡ shown self.old }
    {
        match self.writer.append(delta) {
            Ok(()) => Ok(()),
            Err(_) => Err(AllocError),
        }
    }

    // Publishes the steps that are not published yet. Where memory is refused, nothing changes.
    fn publish(&mut self) -> Result<(), AllocError>
        requires truth { IsTrue J.plan (ahead (state self.old)) }
        requires later { IsLater (shown self.old) (ahead (state self.old)) }
        ensures shown { OnOk result (shown self.new ≡ ahead (state self.old)) }
        ensures idle { OnOk result (pending self.new ≡ []) }
        ensures err { OnErr result (shown self.new ≡ shown self.old) }
    {
        replace_with(
            &mut self.writer,
            &self.rt,
            |writer, rt| publish_by(rt, writer),
        )
    }
}

fn publish_by<J: Naming, R: Wait>(
    rt: &R,
    writer: Writer<Shown<J>, Delta<J>, Sight, Published>,
) -> (
    Writer<Shown<J>, Delta<J>, Sight, Published>,
    Result<(), AllocError>,
)
    requires truth { IsTrue J.plan (ahead (state_by writer)) }
    requires later { IsLater (state_by writer).shown (ahead (state_by writer)) }
    ensures shown { OnOk result.1 ((state_by result.0).shown ≡ ahead (state_by writer)) }
    ensures idle { OnOk result.1 ((state_by result.0).pending ≡ []) }
    ensures err { OnErr result.1 ((state_by result.0).shown ≡ (state_by writer).shown) }
{
    writer.publish_as::<Looks, R>(rt)
}
