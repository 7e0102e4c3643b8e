//! The program: sessions run scripts over the plan of a recipe, or one thread runs a schedule.
#![tactic(auto)]

mod command;
mod fault;
mod files;
mod forms;
mod texts;

use crate::command::command;
use crate::fault::Fault;
use crate::texts::FileTexts;
use row::refused::Refused;
use std::alloc::AllocError;
use std::io::Write;
use std::process::ExitCode;
use std::{env, io};

fn main(rt: HostRuntime) -> ExitCode {
    let status = match words(&rt) {
        Ok(words) => command(
            rt,
            rt.alloc(),
            words.as_slice(),
            &mut FileTexts(&rt),
            &mut rt.stdout(),
            &mut rt.stderr(),
        ),
        Err(AllocError) => {
            let _ = writeln!(rt.stderr(), "{}", Fault::Refused(Refused::NoMemory));
            1
        }
    };
    ExitCode::from(status)
}

// The arguments behind the program's name; none where one is no text.
fn words(rt: &HostRuntime) -> Result<Vec<String>, AllocError> {
    match env::args(rt) {
        Ok(args) => args.skip(1).collect(rt.alloc()),
        Err(error) if error.kind() == io::ErrorKind::OutOfMemory => Err(AllocError),
        Err(_) => Ok(Vec::new(rt.alloc())),
    }
}
