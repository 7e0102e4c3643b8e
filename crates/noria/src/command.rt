//! The command line.
ghost use Rattle.std.specs.Prelude.{◌≡◌, ◌≤◌, ◌==◌, map, not, string_bytes, OnOk, OnErr};
ghost use Rattle.script.specs.Arguments.{is_form};

use crate::fault::Fault;
use crate::forms::{race_files, replay_files, run_files};
use crate::texts::Texts;
use script::arguments::{race_of, replay_of, run_of};
use std::alloc::Global;
use std::io::Write;
use std::sync::Wait;
use std::thread::Threads;

// What standard error has where the words are of no known form.
const USAGE: &str =
    "usage: noria run RECIPE SCRIPT | noria race RECIPE SCRIPT.. | noria replay RECIPE SCHEDULE";

/// Runs the program on the words behind its name, and gives the exit status: 0 where all was run,
/// also where single calls were refused; 1 where a recipe, a script, a schedule, the start, a
/// file, the memory or the output was refused, with the refusal on `err`; 2 for any words but `run
/// RECIPE SCRIPT`, `race RECIPE SCRIPT..` and `replay RECIPE SCHEDULE`, with the usage line there.
/// A failed write to `err` leaves the status as it is. All threads that it starts have ended.
pub fn command<
    R: Threads + Wait + Copy + Drop + Send + Sync + 'static,
    T: Texts,
    O: Write,
    E: Write,
>(rt: R, alloc: Global, words: &[String], texts: &mut T, out: &mut O, err: &mut E) -> u8
    ensures status { result ≤ 2 }
    ensures usage { (result == 2) ≡ not (is_form (map string_bytes words.now)) }
{
    let ran = if let Some((recipe, script)) = run_of(words) {
        run_files(rt, alloc, recipe, script, texts, out)
    } else if let Some((recipe, scripts)) = race_of(words) {
        race_files(rt, alloc, recipe, scripts, texts, out)
    } else if let Some((recipe, schedule)) = replay_of(words) {
        replay_files(alloc, recipe, schedule, texts, out)
    } else {
        let _ = writeln!(err, "{USAGE}");
        return 2;
    };
    status_of(ran, err)
}

// 0 where all was run; else 1, and the refusal goes to `err`.
fn status_of<E: Write>(ran: Result<(), Fault>, err: &mut E) -> u8
    ensures ran { OnOk ran (result ≡ 0) }
    ensures refused { OnErr ran (result ≡ 1) }
{
    match ran {
        Ok(()) => 0,
        Err(fault) => {
            let _ = writeln!(err, "{fault}");
            1
        }
    }
}
