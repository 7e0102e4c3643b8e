//! Shown copies: the filled keys of one shard of a view, read with no lock while its writer changes
//! them. (Of the Noria paper: views that readers look at while writes go on; the two copies are
//! those of its crate `evmap`, now `left-right`.)
#![tactic(auto)]

pub mod delta;
mod entries;
pub mod reader;
mod rule;
mod shown;
pub mod writer;
