//! Parts of the rows of a table.
ghost use Rattle.std.specs.Prelude.{◌≡◌, ◌≢◌};
ghost use Rattle.base.specs.Parts.{is_in};

use row::row::Row;

/// The rows whose cell in the column has this shard. A stage shard's part of a base shard is that
/// of the stage key's column.
#[derive(Clone, Copy, Debug, PartialEq, Eq)]
pub struct Part {
    /// A place of a column.
    pub column: usize,
    /// How many shards there are.
    pub shards: usize,
    /// The number of one of them.
    pub shard: usize,
}

impl Part {
    /// Whether the row belongs to the part; one without the column does not. Takes no memory.
    pub fn has(self, row: &Row) -> bool
        requires { self.shards ≢ 0 }
        ensures { result ≡ is_in self row.now }
    {
        row.has_shard(self.column, self.shards, self.shard)
    }
}
