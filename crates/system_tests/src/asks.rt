//! Calls of a running system and its sessions with no clause, so that the proof of a test does not
//! carry what each says.
use book::law::Naming;
use key_rows::answer_rows::AnswerRows;
use model::entry::Entry;
use row::refused::Refused;
use row::row::Row;
use row::value::Value;
use sessions::reads::{Answer, Found};
use sessions::session::Session;
use std::alloc::{AllocError, Global};
use std::sync::Wait;
use std::test::Fail;
use std::thread::{self, JoinHandle, Threads};
use system::system::System;

// A thread to which memory was refused has stopped.
pub fn fail(refused: Refused) -> Fail {
    match refused {
        Refused::NoMemory | Refused::Stopped => Fail::from(AllocError),
        _ => Fail::from("refused"),
    }
}

// A wrong answer, at this place of its table.
pub fn wrong(place: usize) -> Fail {
    Fail::new(place)
}

// A failure where the answers of all are not right.
pub fn expect(right: bool) -> Result<(), Fail> {
    if right { Ok(()) } else { Err(wrong(0)) }
}

/// A running system, and what its sessions wait with and allocate from.
#[derive(Drop)]
pub struct Running<J: Naming, R> {
    pub rt: R,
    pub alloc: Global,
    pub system: System<J>,
}

impl<J: Naming + Send + Sync + 'static, R: Threads + Wait + Copy + Drop + Send + 'static> Running<
    J,
    R,
> {
    fn session(&mut self) -> Result<Session<J>, Refused> {
        self.system.session(self.alloc)
    }

    pub fn is_none_left(&mut self) -> bool {
        let extra = self.session();
        matches!(extra, Err(Refused::NoSessionLeft))
    }

    // The next session.
    pub fn next(&mut self) -> Result<Caller<J, R>, Fail> {
        let session = self.session().map_err(fail)?;
        Ok(Caller {
            rt: self.rt,
            alloc: self.alloc,
            session,
        })
    }

    // What comes of each of these, all of which are done at once, by sessions in threads of their
    // own.
    pub fn at_once<W: Work>(&mut self, works: &[W]) -> Result<Vec<W::Given>, Fail> {
        let mut threads = Vec::new(self.alloc);
        for work in works {
            threads.push(self.start(*work)?)?;
        }
        all_given::<W, R>(&self.rt, self.alloc, threads)
    }

    // Starts one of them.
    fn start<W: Work>(&mut self, work: W) -> Result<Thread<W>, Fail> {
        let (rt, alloc) = (self.rt, self.alloc);
        let session = self.session().map_err(fail)?;
        let calls = move || work.make(&mut Caller { rt, alloc, session });
        Ok(thread::spawn(&rt, calls)?)
    }

    pub fn stop(self) {
        let Running { rt, system, .. } = self;
        system.stop(&rt);
    }
}

// What the threads give, in order.
fn all_given<W: Work, R: Threads + Wait>(
    rt: &R,
    alloc: Global,
    threads: Vec<Thread<W>>,
) -> Result<Vec<W::Given>, Fail> {
    let mut given = Vec::new(alloc);
    for thread in threads {
        given.push(thread.join(rt).map_err(fail)?)?;
    }
    Ok(given)
}

/// A thread that does a work.
type Thread<W> = JoinHandle<Result<<W as Work>::Given, Refused>>;

/// What a session does beside others.
pub trait Work: Copy + Send + 'static {
    type Given: Send + Drop + 'static;

    fn make<J: Naming, R: Wait>(self, caller: &mut Caller<J, R>) -> Result<Self::Given, Refused>;
}

/// A session, and what its calls wait with and allocate from.
#[derive(Drop)]
pub struct Caller<J: Naming, R> {
    pub rt: R,
    pub alloc: Global,
    pub session: Session<J>,
}

impl<J: Naming, R: Wait> Caller<J, R> {
    pub fn fence(&mut self) -> Result<(), Refused> {
        self.session.fence(&self.rt, self.alloc)
    }

    // Reads the rows of the key, or only where they are shown.
    pub fn look(&mut self, view: &str, key: &Value, waits: bool) -> Result<Found, Refused> {
        if waits {
            let mut rows = AnswerRows::new();
            let cut = self
                .session
                .read_into(&self.rt, self.alloc, view, key, &mut rows)?;
            Ok(Found::Hit(Answer { rows, cut }))
        } else {
            self.session.try_read(self.alloc, view, key)
        }
    }

    pub fn meet(&mut self, other: &mut Caller<J, R>) {
        self.session.meet(&mut other.session);
    }

    // Inserts a row of the table, by its id and its second cell, and gives its index.
    pub fn add(&mut self, table: &str, id: i128, other: i128) -> Result<u64, Refused> {
        let entry = Entry::Insert(row(self.alloc, id, other)?);
        let accepted = self.session.write(&self.rt, self.alloc, table, entry)?;
        Ok(accepted.index)
    }
}

// A row of two numbers and a text.
fn row(alloc: Global, id: i128, other: i128) -> Result<Row, AllocError> {
    let mut cells = Vec::new(alloc);
    cells.push(Value::number(alloc, id)?)?;
    cells.push(Value::number(alloc, other)?)?;
    cells.push(Value::text(alloc, "a")?)?;
    Row::new(alloc, cells)
}
