//! How often a read may miss.
ghost use Rattle.std.specs.Prelude.{◌≡◌, ◌+◌, ◌<◌, IfErr, OnOk, OnErr};

use row::refused::Refused;

/// The misses of one read: the 64th is refused.
#[derive(Drop)]
pub(crate) struct ReadTurns {
    misses: u64,
    ghost few: { misses < 64 },
}

impl ReadTurns {
    /// Those of a read that has not missed yet.
    pub(crate) fn new() -> ReadTurns
        ensures { result.misses ≡ 0 }
    {
        ReadTurns { misses: 0 }
    }

    /// Counts a miss. Errors: `Busy` at the 64th.
    pub(crate) fn miss(&mut self) -> Result<(), Refused>
        ensures counted { OnOk result (self.new.misses ≡ self.old.misses + 1) }
        ensures last { OnErr result (self.old.misses ≡ 63) }
        ensures only { IfErr result (λ e. e ≡ Refused.Busy) }
    {
        if self.misses == 63 {
            return Err(Refused::Busy);
        }
        self.misses += 1;
        Ok(())
    }
}
