//! The right to open a shown copy.
ghost use Rattle.std.specs.Prelude.{◌≡◌};

use crate::law::Naming;
use std::marker::{Model, PhantomData};

/// The right to open the shown copy of one shard of a view. A book hands out one for each shard of
/// each view, and none can be copied: so the copy that it opens is the only one of its shard.
#[derive(Drop)]
pub struct ViewCopy<J: Naming> {
    view: usize,
    shard: usize,
    of: PhantomData<J>,
}

impl<J: Naming> Model for ViewCopy<J> {
    ghost use Rattle.packet.specs.Readers.{Reader};

    ghost Value = { Reader };

    ghost view = { λ c. record { view = c.view; shard = c.shard } };
}

impl<J: Naming> ViewCopy<J> {
    /// The right for this shard of a view, in a book with no item.
    pub(crate) fn first(view: usize, shard: usize) -> ViewCopy<J>
        ensures { result ≡ record { view = view; shard = shard } }
    {
        ViewCopy {
            view,
            shard,
            of: PhantomData,
        }
    }

    /// The view and its shard.
    pub fn reader(&self) -> (usize, usize)
        ensures view { result.0 ≡ self.now.view }
        ensures shard { result.1 ≡ self.now.shard }
    {
        (self.view, self.shard)
    }
}
