//! Whether a domain goes on.

/// A domain runs; or it has stopped, and keeps what it held; or memory was refused in the midst of
/// a message, and then nothing is said of what it holds.
#[derive(Clone, Copy, PartialEq, Eq, Debug)]
pub enum Mode {
    Running,
    Stopped,
    Broken,
}
