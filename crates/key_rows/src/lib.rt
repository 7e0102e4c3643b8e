//! The rows of a key as a view shard keeps them and as readers see them: each row whole in one place
//! where it can be, a few in one piece of memory that all who keep them share; and those of an answer, a
//! copy of a few or a share.
#![tactic(auto)]

pub mod answer_rows;
mod changed;
pub mod kept;
mod list;
mod pieces;
mod replaced;
pub mod rows;
pub mod shared;
