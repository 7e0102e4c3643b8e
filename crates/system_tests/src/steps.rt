//! Calls of one session after the other, each with its answer.
use crate::asks::{Caller, Running, fail, wrong};
use book::law::Naming;
use row::refused::Refused;
use row::value::Value;
use sessions::reads::Found;
use std::sync::Wait;
use std::test::Fail;
use std::thread::Threads;

/// A call of a session. The note of an even number is author 7's, that of an odd one author 8's.
#[derive(Clone, Copy)]
pub enum Call {
    Fence,
    Insert(u64),
    Read(i64),
    TryRead(i64),
}

/// What a call that was not refused told: of a read, how many entries its cut has and how many rows
/// came.
#[derive(Clone, Copy, PartialEq, Eq)]
pub enum Told {
    Fenced,
    Index(u64),
    Rows(u64, usize),
    Miss,
}

/// A call and its answer.
pub type Step = (Call, Result<Told, Refused>);

impl<J: Naming, R: Wait> Caller<J, R> {
    // Makes the calls in order, each with its answer.
    pub fn make_all(&mut self, steps: &[Step]) -> Result<(), Fail> {
        for (place, (call, wanted)) in steps.iter().enumerate() {
            if !is_wanted(self.answer(*call), *wanted)? {
                return Err(wrong(place));
            }
        }
        Ok(())
    }

    fn answer(&mut self, call: Call) -> Result<Told, Refused> {
        match call {
            Call::Fence => {
                self.fence()?;
                Ok(Told::Fenced)
            }
            Call::Insert(number) => {
                let author = if number % 2 == 0 { 7 } else { 8 };
                Ok(Told::Index(self.add("notes", i128::from(number), author)?))
            }
            Call::Read(author) => self.tell_rows(author, true),
            Call::TryRead(author) => self.tell_rows(author, false),
        }
    }

    fn tell_rows(&mut self, author: i64, waits: bool) -> Result<Told, Refused> {
        match self.look("by_author", &Value::Int(author), waits)? {
            Found::Hit(answer) => Ok(Told::Rows(answer.cut.len(0, 0), answer.rows.len())),
            Found::Miss => Ok(Told::Miss),
        }
    }
}

// Makes the calls in a session.
pub fn make_steps<
    J: Naming + Send + Sync + 'static,
    R: Threads + Wait + Copy + Drop + Send + 'static,
>(running: &mut Running<J, R>, steps: &[Step]) -> Result<(), Fail> {
    running.next()?.make_all(steps)
}

// A refusal that is not wanted goes out as a failure.
fn is_wanted(told: Result<Told, Refused>, wanted: Result<Told, Refused>) -> Result<bool, Fail> {
    match told {
        Err(refused) if told != wanted => Err(fail(refused)),
        _ => Ok(told == wanted),
    }
}
