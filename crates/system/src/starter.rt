//! Starts the domains of a plan in the threads that serve them.
ghost use Rattle.std.specs.Prelude.{◌≡◌, ◌<◌, ◌≤◌, [], IfErr, IfOk, IfSome, Some, map, slice_get};
ghost use Rattle.row.specs.Bags.{Each};
ghost use Rattle.model.specs.Legal.{most_sessions};
ghost use Rattle.book.specs.Fronts.{FrontView};
ghost use Rattle.packet.specs.Readers.{readers};
ghost use Rattle.sessions.specs.Callers.{reader_of};
ghost use Rattle.shown.specs.{Boards.pending, Boards.shown, Snapshots.first_of};

use crate::domains::Domains;
use book::law::Naming;
use book::log::Log;
use book::part::Part;
use book::view_copy::ViewCopy;
use routes::routes::Routes;
use row::refused::Refused;
use schedule::wire::Spot;
use shown::reader::ShownReader;
use shown::writer;
use std::alloc::{AllocError, Global};
use std::mem;
use std::sync::{Arc, Wait};
use std::thread::Threads;
use workers::crew::{work, work_with_view};
use workers::duty::{BaseDuty, Duty, StageDuty};
use workers::gate::Gate;

/// The threads that were started so far, what each is started with, and what each that is not
/// started is to serve beside a view shard.
#[derive(Drop)]
pub struct Starter<J: Naming, R: Drop, G: Drop> {
    domains: Domains<J>,
    rt: R,
    alloc: Global,
    gate: Arc<G>,
    duties: Vec<Vec<Duty<J>>>,
}

impl<
    J: Naming + Send + Sync + 'static,
    R: Threads + Wait + Copy + Drop + Send + 'static,
    G: Gate + Send + Sync + Drop + 'static,
> Starter<J, R, G> {
    /// None is started yet, and none has anything to serve. Errors: memory only.
    pub fn new(
        rt: R,
        alloc: Global,
        gate: G,
        routes: Arc<Routes<J>>,
    ) -> Result<Starter<J, R, G>, AllocError> {
        let mut duties = Vec::new(alloc);
        for _thread in 0..routes.crews().threads() {
            duties.push(Vec::new(alloc))?;
        }
        Ok(Starter {
            domains: Domains::new(alloc, routes),
            rt,
            alloc,
            gate: Arc::new(alloc, gate)?,
            duties,
        })
    }

    /// The domains that were started.
    pub fn into_domains(self) -> Domains<J> {
        let Starter { domains, .. } = self;
        domains
    }

    /// Starts each domain of the plan, and gives a reader of what each shard of each view shows, in
    /// order. Refused with `NoMemory`, also where a thread is refused or a domain stopped before
    /// its first turn; those that were started run on.
    pub fn start(
        &mut self,
        part: &Part<J>,
        sessions: usize,
        copies: Vec<ViewCopy<J>>,
        logs: Vec<Log<J>>,
    ) -> Result<Vec<ShownReader<J>>, Refused>
        requires copies { copies.items ≡ readers J.plan }
        requires empty { Each (λ (f : FrontView). f.len ≡ 0) logs.items }
        requires sessions { sessions ≡ J.sessions }
        requires few { sessions ≤ most_sessions }
        ensures readers { IfOk result (λ v. map reader_of v.items ≡ readers J.plan) }
        ensures only { IfErr result (λ e. e ≡ Refused.NoMemory) }
    {
        self.assign_bases(sessions, logs)?;
        for stage in 0..self.domains.routes().plan().stages() {
            self.assign(Duty::Stage(StageDuty::new(stage)))?;
        }
        let readers = self.start_views(part, sessions, copies)?;
        self.start_others(part)?;
        Ok(readers)
    }

    // Puts a domain behind the others that its thread is to serve. Errors: memory only.
    fn assign(&mut self, duty: Duty<J>) -> Result<(), AllocError> {
        let thread = self.domains.routes().crews().thread_of(duty.domain());
        match self.duties.get_mut(thread) {
            Some(duties) => Ok(duties.push(duty)?),
            None => Err(AllocError),
        }
    }

    // Assigns each base shard, which gets its log.
    fn assign_bases(&mut self, sessions: usize, mut logs: Vec<Log<J>>) -> Result<(), AllocError>
        requires empty { Each (λ (f : FrontView). f.len ≡ 0) logs.items }
        requires sessions { sessions ≡ J.sessions }
    {
        while let Some(log) = logs.pop() {
            self.assign(Duty::Base(BaseDuty::new(log, sessions)))?;
        }
        Ok(())
    }

    // What a thread is to serve beside a view shard, and where each is; then it has nothing more.
    fn duties_of(&mut self, thread: usize) -> Result<(Vec<Duty<J>>, Vec<Spot>), AllocError> {
        let mut domains = Vec::new(self.alloc);
        let Some(duties) = self.duties.get_mut(thread) else {
            return Ok((Vec::new(self.alloc), domains));
        };
        for duty in duties.iter() {
            domains.push(duty.domain())?;
        }
        let duties = mem::replace(duties, Vec::new(self.alloc));
        Ok((duties, domains))
    }

    // Starts the thread of each shard of each view.
    fn start_views(
        &mut self,
        part: &Part<J>,
        sessions: usize,
        mut copies: Vec<ViewCopy<J>>,
    ) -> Result<Vec<ShownReader<J>>, Refused>
        requires copies { copies.items ≡ readers J.plan }
        requires few { sessions ≤ most_sessions }
        ensures readers { IfOk result (λ v. map reader_of v.items ≡ readers J.plan) }
        ensures only { IfErr result (λ e. e ≡ Refused.NoMemory) }
    {
        let count = copies.len();
        let mut readers = Vec::new(self.alloc);
        for reader in 0..count {
            let copy = copies.remove(0);
            readers.push(self.start_view(part, sessions, reader, copy)?)?;
        }
        Ok(readers)
    }

    // Opens the shown copy of a shard of a view and starts the thread of the shard: a reader of
    // what it shows.
    fn start_view(
        &mut self,
        part: &Part<J>,
        sessions: usize,
        reader: usize,
        copy: ViewCopy<J>,
    ) -> Result<ShownReader<J>, Refused>
        requires copy { slice_get (readers J.plan) reader ≡ Some copy }
        requires few { sessions ≤ most_sessions }
        ensures reader { IfOk result (λ r. reader_of r ≡ copy) }
        ensures only { IfErr result (λ e. e ≡ Refused.NoMemory) }
    {
        let (rt, alloc) = (self.rt, self.alloc);
        let thread = self.domains.routes().crews().thread_of(Spot::View(reader));
        let (duties, mut domains) = self.duties_of(thread)?;
        domains.push(Spot::View(reader))?;
        let plan = self.domains.routes().plan();
        let mut writer = writer::open(rt, alloc, plan, copy, part, sessions + 1)?;
        let first = writer.reader()?;
        let (routes, gate) = self.shared()?;
        let part = part.again();
        let run = move ||
            requires first { IfSome (slice_get (readers J.plan) reader) (λ r. shown writer
                ≡ first_of J.plan r.view r.shard) }
            requires idle { pending writer ≡ [] }
        { work_with_view(&rt, alloc, &routes, &part, reader, writer, duties, &*gate) };
        self.domains.run(&rt, &domains, run)?;
        Ok(first)
    }

    // Starts each thread that serves no view shard.
    fn start_others(&mut self, part: &Part<J>) -> Result<(), Refused>
        ensures only { IfErr result (λ e. e ≡ Refused.NoMemory) }
    {
        let crews = self.domains.routes().crews();
        for thread in 0..crews.threads() {
            if !crews.has_view(thread) {
                self.start_thread(part, thread)?;
            }
        }
        Ok(())
    }

    // Starts a thread with what is assigned to it.
    fn start_thread(&mut self, part: &Part<J>, thread: usize) -> Result<(), Refused>
        ensures only { IfErr result (λ e. e ≡ Refused.NoMemory) }
    {
        let (rt, alloc) = (self.rt, self.alloc);
        let (duties, domains) = self.duties_of(thread)?;
        let (routes, gate) = self.shared()?;
        let part = part.again();
        let run = move || work(&rt, alloc, &routes, &part, thread, duties, &*gate);
        self.domains.run(&rt, &domains, run)
    }

    // The ways and the gate, for one thread more.
    fn shared(&self) -> Result<(Arc<Routes<J>>, Arc<G>), AllocError> {
        Ok((
            Arc::try_clone(self.domains.routes())?,
            Arc::try_clone(&self.gate)?,
        ))
    }
}
