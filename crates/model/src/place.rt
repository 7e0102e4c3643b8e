//! Places in logs.

/// A place of a log.
#[derive(Clone, Copy)]
pub struct Place {
    pub base: usize,
    pub index: u64,
}
