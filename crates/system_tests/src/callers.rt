//! Sessions of a system that has stopped, answers that are kept, sessions that meet, and four at
//! once.
use crate::asks::{Caller, Running, Work, expect, fail};
use crate::runs::{Scene, run_notes};
use crate::steps::{Call, Step, Told};
use book::law::Naming;
use row::refused::Refused;
use row::value::Value;
use sessions::reads::Found;
use std::alloc::{AllocError, Global};
use std::sync::Wait;
use std::test::Fail;
use std::thread::Threads;

#[test]
fn a_session_of_a_stopped_system(rt: HostRuntime) -> Result<(), Fail> {
    run_notes(rt, rt.alloc(), 1, usize::MAX, Scene::Stopped)?;
    run_notes(rt, rt.alloc(), 1, 1, Scene::Stopped)
}

const BEFORE_STOP: &[Step] = &[
    (Call::Insert(0), Ok(Told::Index(0))),
    (Call::Fence, Ok(Told::Fenced)),
    (Call::Read(7), Ok(Told::Rows(1, 1))),
];

const AFTER_STOP: &[Step] = &[
    (Call::Insert(1), Err(Refused::Stopped)),
    (Call::Fence, Err(Refused::Stopped)),
    (Call::TryRead(7), Ok(Told::Rows(1, 1))),
    (Call::Read(7), Ok(Told::Rows(1, 1))),
    (Call::Read(8), Err(Refused::Stopped)),
];

pub fn calls_of_stopped<
    J: Naming + Send + Sync + 'static,
    R: Threads + Wait + Copy + Drop + Send + 'static,
>(mut running: Running<J, R>) -> Result<(), Fail> {
    let caller = used(&mut running);
    running.stop();
    caller?.make_all(AFTER_STOP)
}

// A session that has made calls.
fn used<J: Naming + Send + Sync + 'static, R: Threads + Wait + Copy + Drop + Send + 'static>(
    running: &mut Running<J, R>,
) -> Result<Caller<J, R>, Fail> {
    let mut caller = running.next()?;
    caller.make_all(BEFORE_STOP)?;
    Ok(caller)
}

#[test]
fn an_answer_that_is_kept(rt: HostRuntime) -> Result<(), Fail> {
    run_notes(rt, rt.alloc(), 1, 1, Scene::Kept)?;
    run_notes(rt, rt.alloc(), 1, 2, Scene::Kept)
}

const AFTER_LOOK: &[Step] = &[
    (Call::Insert(2), Ok(Told::Index(1))),
    (Call::Fence, Ok(Told::Fenced)),
    (Call::Read(7), Ok(Told::Rows(2, 2))),
    (Call::Insert(4), Ok(Told::Index(2))),
    (Call::Fence, Ok(Told::Fenced)),
    (Call::Read(7), Ok(Told::Rows(3, 3))),
];

// An answer keeps its row while its key takes two more: each changes the copy that the one before
// it left behind.
pub fn calls_of_kept<
    J: Naming + Send + Sync + 'static,
    R: Threads + Wait + Copy + Drop + Send + 'static,
>(running: &mut Running<J, R>) -> Result<(), Fail> {
    let mut caller = used(running)?;
    let kept = caller
        .look("by_author", &Value::Int(7), false)
        .map_err(fail)?;
    caller.make_all(AFTER_LOOK)?;
    expect(is_one_row(&kept))
}

// Whether one row was found.
fn is_one_row(found: &Found) -> bool {
    match found {
        Found::Hit(answer) => answer.rows.len() == 1,
        Found::Miss => false,
    }
}

#[test]
fn an_answer_that_another_session_keeps(rt: HostRuntime) -> Result<(), Fail> {
    run_notes(rt, rt.alloc(), 2, 1, Scene::KeptBeside)?;
    run_notes(rt, rt.alloc(), 2, usize::MAX, Scene::KeptBeside)
}

const SHOWN_BESIDE: &[Step] = &[(Call::TryRead(7), Ok(Told::Rows(3, 3)))];

// An answer of a second session keeps its row while the first session adds two.
pub fn calls_of_kept_beside<
    J: Naming + Send + Sync + 'static,
    R: Threads + Wait + Copy + Drop + Send + 'static,
>(running: &mut Running<J, R>) -> Result<(), Fail> {
    let mut writer = used(running)?;
    let mut reader = running.next()?;
    keep_beside(&mut writer, &mut reader)
}

fn keep_beside<J: Naming, R: Wait>(
    writer: &mut Caller<J, R>,
    reader: &mut Caller<J, R>,
) -> Result<(), Fail> {
    let kept = reader
        .look("by_author", &Value::Int(7), false)
        .map_err(fail)?;
    writer.make_all(AFTER_LOOK)?;
    reader.make_all(SHOWN_BESIDE)?;
    expect(is_one_row(&kept))
}

#[test]
fn sessions_that_meet(rt: HostRuntime) -> Result<(), Fail> {
    run_notes(rt, rt.alloc(), 2, 2, Scene::Meeting)?;
    run_notes(rt, rt.alloc(), 2, usize::MAX, Scene::Meeting)
}

const OF_FIRST: &[Step] = &[(Call::Insert(0), Ok(Told::Index(0)))];

const OF_SECOND: &[Step] = &[
    (Call::Insert(0), Err(Refused::Duplicate)),
    (Call::Fence, Ok(Told::Fenced)),
    (Call::Insert(1), Ok(Told::Index(1))),
];

const AFTER_MEETING: &[Step] = &[
    (Call::Fence, Ok(Told::Fenced)),
    (Call::Read(8), Ok(Told::Rows(2, 1))),
];

// Each of two sessions reads on where the other, which it met, has written.
pub fn calls_of_two<
    J: Naming + Send + Sync + 'static,
    R: Threads + Wait + Copy + Drop + Send + 'static,
>(running: &mut Running<J, R>) -> Result<(), Fail> {
    let mut first = running.next()?;
    let mut second = running.next()?;
    meet_in_turn(&mut first, &mut second)
}

fn meet_in_turn<J: Naming, R: Wait>(
    first: &mut Caller<J, R>,
    second: &mut Caller<J, R>,
) -> Result<(), Fail> {
    first.make_all(OF_FIRST)?;
    first.meet(second);
    second.make_all(OF_SECOND)?;
    second.meet(first);
    first.make_all(AFTER_MEETING)
}

#[test]
fn four_sessions_at_once(rt: HostRuntime) -> Result<(), Fail> {
    run_notes(rt, rt.alloc(), 4, usize::MAX, Scene::FourSessions)?;
    run_notes(rt, rt.alloc(), 4, 1, Scene::FourSessions)
}

/// How many rows of its own each of four sessions inserts, and how many that all of them do.
const OWN: usize = 1000;

const SHARED: usize = 100;

/// How many of all these are accepted.
const ALL: usize = 4 * OWN + SHARED;

/// One of four sessions, by its number.
#[derive(Clone, Copy)]
struct Part(usize);

impl Work for Part {
    type Given = Vec<u64>;

    // Inserts rows of this part's own and then those of all, and gives the indexes of the accepted.
    fn make<J: Naming, R: Wait>(self, caller: &mut Caller<J, R>) -> Result<Vec<u64>, Refused> {
        let mut indexes = Vec::new(caller.alloc);
        for number in 0..OWN + SHARED {
            match caller.add("notes", self.id_of(number), self.0 as i128) {
                Ok(index) => indexes.push(index).map_err(|_| Refused::NoMemory)?,
                Err(Refused::Duplicate) => {}
                Err(refused) => return Err(refused),
            }
        }
        caller.fence()?;
        Ok(indexes)
    }
}

impl Part {
    // The id of the row that it inserts under this number.
    fn id_of(self, number: usize) -> i128 {
        let id = if number < OWN {
            number.wrapping_add(self.0.wrapping_mul(OWN))
        } else {
            number.wrapping_mul(OWN)
        };
        id as i128
    }
}

pub fn calls_of_four<
    J: Naming + Send + Sync + 'static,
    R: Threads + Wait + Copy + Drop + Send + 'static,
>(running: &mut Running<J, R>) -> Result<(), Fail> {
    let given = running.at_once(&[Part(0), Part(1), Part(2), Part(3)])?;
    let extra = running.is_none_left();
    expect(are_all_given(running.alloc, given)? && extra)
}

// Whether the sessions were given each index once, and all of them.
fn are_all_given(alloc: Global, given: Vec<Vec<u64>>) -> Result<bool, AllocError> {
    let mut marks = vec![in alloc; false; ALL]?;
    let mut first = true;
    for indexes in given {
        first = are_first(marks.as_mut_slice(), indexes) && first;
    }
    Ok(first && marks.iter().all(|mark| *mark))
}

// Marks the indexes, and says whether none of them was marked before.
fn are_first(marks: &mut [bool], indexes: Vec<u64>) -> bool {
    let mut first = true;
    for index in indexes {
        first = is_first_time(marks, index) && first;
    }
    first
}

// Marks the index, and says whether it was not marked before.
fn is_first_time(marks: &mut [bool], index: u64) -> bool {
    let Ok(index) = usize::try_from(index) else {
        return false;
    };
    match marks.get_mut(index) {
        Some(mark) => {
            let first = !*mark;
            *mark = true;
            first
        }
        None => false,
    }
}
