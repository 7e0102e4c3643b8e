//! What a shown copy holds.
ghost use Rattle.std.specs.Prelude.{◌≡◌, ◌<◌, IfOk, OnOk, OnErr, slice_set};
ghost use Rattle.std.specs.Option.{option_copied};
ghost use Rattle.book.specs.Sessions.{fronts};
ghost use Rattle.packet.specs.Lines.{entries_of, lengths_of};
ghost use Rattle.row.specs.Cells.{datum_of};
ghost use Rattle.shown.specs.Snapshots.{first_of, shown_at, with_change};

use crate::delta::{Delta, Moved};
use crate::entries::Entries;
use crate::rule::Shot;
use book::cut::Cut;
use book::law::Naming;
use book::part::Part;
use key_rows::shared::SharedRows;
use left_right::Absorb;
use plan::plan::Plan;
use row::value::Value;
use std::alloc::{AllocError, Global};
use std::marker::Model;
use view_domain::shown::KeyChange;

/// The filled keys of one shard of a view with their rows, over one cut.
#[derive(Drop)]
pub struct Shown<J: Naming> {
    alloc: Global,
    pub(crate) view: usize,
    pub(crate) shard: usize,
    rows: Entries,
    cut: Cut<J>,
    asked: u64,
}

impl<J: Naming> Model for Shown<J> {
    ghost use Rattle.book.specs.Sessions.{fronts};
    ghost use Rattle.shown.specs.Snapshots.{Snapshot};

    ghost Value = { Snapshot };

    ghost view = { λ s. record {
      view = s.view;
      shard = s.shard;
      lengths = s.cut.lengths;
      cut = fronts J.plan s.cut;
      rows = s.rows;
      asked = s.asked;
    } };
}

impl<J: Naming> Shown<J> {
    /// No key, over no entries. Errors: memory only.
    pub fn new(
        alloc: Global,
        plan: &Plan,
        view: usize,
        shard: usize,
        part: &Part<J>,
    ) -> Result<Shown<J>, AllocError>
        requires plan { plan.now ≡ J.plan }
        ensures { IfOk result (λ s. s ≡ first_of J.plan view shard) }
    {
        Ok(Shown {
            alloc,
            view,
            shard,
            rows: Entries::new(alloc),
            cut: Cut::zeros(alloc, plan, part)?,
            asked: 0,
        })
    }

    /// The rows of a key, where it is shown. Takes no memory. Constant time.
    pub fn entry(&self, key: &Value) -> Option<&SharedRows>
        ensures { option_copied result ≡ shown_at self.now.rows (datum_of key.now) }
    {
        self.rows.get(key)
    }

    /// The cut.
    pub fn cut(&self) -> &Cut<J>
        ensures lengths { result.now.lengths ≡ self.now.lengths }
        ensures fronts { fronts J.plan result.now ≡ self.now.cut }
    {
        &self.cut
    }

    /// How many requests the view's shard had sent.
    pub fn asked(&self) -> u64
        ensures { result ≡ self.now.asked }
    {
        self.asked
    }

    // Changes what is shown of a key, which shares the rows of the change. Where memory is refused, all
    // stays.
    fn change(&mut self, change: &KeyChange) -> Result<(), AllocError>
        ensures changed { OnOk result (self.new ≡ record self.old {
          rows = with_change self.old.rows change.now;
        }) }
        ensures err { OnErr result (self.new ≡ self.old) }
    {
        match change {
            KeyChange::Fills { key, rows } => self
                .rows
                .put(key.try_clone(self.alloc)?, rows.try_clone(self.alloc)?),
            KeyChange::Goes { key } => {
                self.rows.remove(key);
                Ok(())
            }
        }
    }

    // Puts the new line of a stage shard in the place of its old one.
    fn advance(&mut self, moved: &Moved<J>)
        ensures { self.new ≡ record self.old {
          lengths = slice_set self.old.lengths moved.now.stage (lengths_of moved.now.line);
          cut = slice_set self.old.cut moved.now.stage (entries_of moved.now.line);
        } }
    {
        let _lengths = self.cut.lengths();
        for source in 0..moved.line.sources() {
            let front = moved.line.front(source);
            let _entries = front.len();
            self.cut.advance(moved.stage, source, front);
        }
    }
}

impl<J: Naming> Absorb<Delta<J>> for Shown<J> {
    ghost use Rattle.shown.specs.Snapshots.{applied as applied_to};

    type State = Shot;

    ghost state = { λ s. s };

    ghost applied = { applied_to };

    fn absorb_first(&mut self, delta: &Delta<J>, _other: &Shown<J>) -> Result<(), AllocError> {
        match delta {
            Delta::Key(change) => self.change(change),
            Delta::Moves(moved) => {
                self.advance(moved);
                Ok(())
            }
            Delta::Asks(asked) => {
                self.asked = *asked;
                Ok(())
            }
        }
    }
}
