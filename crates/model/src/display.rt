//! How cuts are printed.
ghost use Rattle.std.specs.Prelude.{Some};
ghost use Rattle.std.specs.Fmt.{WritesOnOk};
ghost use Rattle.model.specs.Printed.{printed_line, printed_cut};

use crate::lengths::Lengths;
use std::fmt::{self, Display};

/// For each stage shard its lengths, in the order of the sources, with commas between them; and
/// slashes between the stage shards.
impl Display for Lengths {
    ghost output = { λ c. Some (printed_cut c) };

    fn fmt<W: fmt::Write>(&self, f: &mut fmt::Formatter<W>) -> fmt::Result {
        if self.stages() == 0 {
            return Ok(());
        }
        write_line(f, self.line(0))?;
        for stage in 1..self.stages() {
            f.write_char('/')?;
            write_line(f, self.line(stage))?;
        }
        Ok(())
    }
}

/// Writes the lengths with a comma between each two.
fn write_line<W: fmt::Write>(f: &mut fmt::Formatter<W>, line: &[u64]) -> fmt::Result
    ensures { WritesOnOk W.write_str_gives f.old result (printed_line line.now) f.new }
{
    let Some((first, others)) = line.split_first() else {
        return Ok(());
    };
    write!(f, "{first}")?;
    for length in others {
        write!(f, ",{length}")?;
    }
    Ok(())
}
