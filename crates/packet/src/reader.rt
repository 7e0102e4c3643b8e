//! Who reads a stage.

/// A shard of a view: each reads all stage shards.
#[derive(Clone, Copy, PartialEq, Eq, Debug)]
pub struct Reader {
    pub view: usize,
    pub shard: usize,
}
