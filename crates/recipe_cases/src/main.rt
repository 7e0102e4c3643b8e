//! Reads recipes from standard input, and prints what each is: its plan, or its refusal. Each
//! stands behind a line `== NAME`. Lines `? left ROW` and `? right ROW` may follow: it prints
//! whether the row, in words of a script, passes the conditions of that side.
#![tactic(auto)]

mod cases;
mod plans;
mod rows;
mod words;

use crate::cases::write_cases;
use std::io;

fn main(rt: HostRuntime) -> io::Result<()> {
    let text = io::read_to_string(rt.alloc(), rt.stdin())?;
    write_cases(rt.alloc(), &text, &mut rt.stdout())
}
