//! What the threads of a store share, and the ways between them.
ghost use Rattle.std.specs.Prelude.{◌≡◌, ◌⊎◌, ◌<◌, ◌≤◌, IfErr, map};
ghost use Rattle.row.specs.Bags.{Each};
ghost use Rattle.model.specs.{Legal.most_sessions, Places.base_count, Places.sources};
ghost use Rattle.packet.specs.Readers.{readers};
ghost use Rattle.schedule.specs.Codes.{reader_in};

use crate::crews::{Crews, Watches};
use crate::mail::{BaseMail, Reply, ViewMail};
use book::book::Book;
use book::front::Front;
use book::law::Naming;
use crossbeam_utils::sync::EventCount;
use links::bell::{Bell, Woken};
use links::inbox::Inbox;
use links::mailbox::Mailbox;
use links::stops::Stops;
use model::places;
use packet::reader::Reader;
use packet::request::{Marker, Request};
use plan::plan::Plan;
use row::refused::Refused;
use schedule::readers;
use schedule::wire::Spot;
use stage_steps::message::ToStage;
use std::alloc::{AllocError, Global};
use std::marker::Model;
use std::sync::Wait;

/// The plan, the book, and the ways between the threads: an inbox for each domain, what the threads
/// of the domains and the sessions wait at, and which domains have begun and stopped. All of it is
/// made at the start, so that a reply, an acknowledgement or a ring takes no memory.
pub struct Routes<J: Naming> {
    plan: Plan,
    book: Book<J>,
    sources: Vec<usize>,
    readers: Vec<Reader>,
    watches: Watches,
    inboxes: Inboxes<J>,
    mailboxes: Mailboxes<J>,
    states: States,
}

// What holds one drops it by this call, and need not know its parts.
impl<J: Naming> Drop for Routes<J> {
    fn drop(self) {
        let Routes {
            plan: _,
            book: _,
            sources: _,
            readers: _,
            watches: _,
            inboxes: _,
            mailboxes: _,
            states: _,
        } = self;
    }
}

// The inboxes of the base shards, the stage shards and the view shards.
#[derive(Drop)]
struct Inboxes<J: Naming> {
    bases: Vec<Inbox<BaseMail<J>>>,
    stages: Vec<Inbox<ToStage<Front<J>>>>,
    views: Vec<Inbox<ViewMail<J>>>,
}

// For each session a mailbox for the replies to its writes, one for each view shard's
// acknowledgement of its fences, and a bell.
#[derive(Drop)]
struct Mailboxes<J: Naming> {
    replies: Vec<Mailbox<Reply<J>>>,
    acks: Vec<Mailbox<u64>>,
    bells: Vec<Bell>,
}

// Which domains have begun, which have stopped, and which view shards are cut off.
#[derive(Drop)]
struct States {
    started: Vec<Mailbox<()>>,
    stops: Stops,
    cut_off: Stops,
}

// How many domains of each kind, sources and sessions there are.
#[derive(Clone, Copy)]
struct Counts {
    bases: usize,
    stages: usize,
    views: usize,
    sources: usize,
    sessions: usize,
}

impl<J: Naming> Inboxes<J> {
    fn new(alloc: Global, of: Counts, watches: &Watches) -> Result<Inboxes<J>, AllocError> {
        let edges = of.stages.saturating_add(of.sessions);
        let domains = of.sources.saturating_add(of.views);
        let to_stage = domains.saturating_add(of.sessions);
        Ok(Inboxes {
            bases: new_inboxes(alloc, watches, of.bases, edges, |base| Spot::Base(base))?,
            stages: new_inboxes(
                alloc,
                watches,
                of.stages,
                to_stage,
                |stage| Spot::Stage(stage),
            )?,
            views: new_inboxes(alloc, watches, of.views, edges, |reader| Spot::View(reader))?,
        })
    }
}

impl<J: Naming> Mailboxes<J> {
    fn new(alloc: Global, of: Counts) -> Result<Mailboxes<J>, AllocError> {
        Ok(Mailboxes {
            replies: new_mailboxes(alloc, of.sessions)?,
            acks: new_mailboxes(alloc, of.sessions.saturating_mul(of.views))?,
            bells: new_bells(alloc, of.sessions)?,
        })
    }
}

impl States {
    fn new(alloc: Global, of: Counts) -> Result<States, AllocError> {
        let domains = of.bases.saturating_add(of.stages).saturating_add(of.views);
        Ok(States {
            started: new_mailboxes(alloc, domains)?,
            stops: Stops::new(alloc, domains)?,
            cut_off: Stops::new(alloc, of.views)?,
        })
    }
}

impl<J: Naming> Model for Routes<J> {
    ghost use Rattle.std.specs.Prelude.{◌≡◌, ◌<◌, map};
    ghost use Rattle.row.specs.Bags.{Each};
    ghost use Rattle.plan.specs.Layouts.{Layout};
    ghost use Rattle.model.specs.Places.{base_count, sources as sources_of};
    ghost use Rattle.packet.specs.Readers.{readers as readers_of};
    ghost use Rattle.schedule.specs.Codes.{reader_in};

    ghost Value = { Layout };

    ghost view = { λ r. r.plan };

    ghost invariant = { λ r. (r.plan ≡ J.plan) × (r.sources.items ≡ sources_of J.plan)
        × Each (λ b. b < base_count J.plan) r.sources.items
        × (map reader_in r.readers.items ≡ readers_of J.plan) };
}

impl<J: Naming> Routes<J> {
    /// The ways of a store of this plan for this many sessions, on which nothing is, and whose
    /// domains this many threads serve, as `Crews` says. Errors: memory only.
    pub fn new(
        alloc: Global,
        plan: Plan,
        book: Book<J>,
        sessions: usize,
        threads: usize,
    ) -> Result<Routes<J>, AllocError>
        requires plan { plan ≡ J.plan }
        requires sessions { sessions ≤ most_sessions }
    {
        let sources = places::sources(alloc, &plan)?;
        let readers = readers::readers(alloc, &plan)?;
        let of = Counts {
            bases: book.bases(),
            stages: plan.stages(),
            views: readers.len(),
            sources: sources.len(),
            sessions,
        };
        let crews = Crews::new(threads, of.bases, of.stages, of.views);
        let watches = Watches::new(alloc, crews)?;
        Ok(Routes {
            inboxes: Inboxes::new(alloc, of, &watches)?,
            mailboxes: Mailboxes::new(alloc, of)?,
            states: States::new(alloc, of)?,
            plan,
            book,
            sources,
            readers,
            watches,
        })
    }

    /// The plan.
    pub fn plan(&self) -> &Plan
        ensures { result.now ≡ J.plan }
    {
        &self.plan
    }

    /// The book.
    pub fn book(&self) -> &Book<J> {
        &self.book
    }

    /// The base shards that are sources of the stage, in order.
    pub fn sources(&self) -> &[usize]
        ensures sources { result.now ≡ sources J.plan }
        ensures range { Each (λ b. b < base_count J.plan) result.now }
    {
        self.sources.as_slice()
    }

    /// The shards of the views, view by view.
    pub fn readers(&self) -> &[Reader]
        ensures { map reader_in result.now ≡ readers J.plan }
    {
        self.readers.as_slice()
    }

    /// How the domains are shared out among threads.
    pub fn crews(&self) -> Crews {
        self.watches.crews()
    }

    /// What tells a thread that a message came to one of its domains.
    pub fn watch(&self, thread: usize) -> &EventCount {
        self.watches.of(thread)
    }

    /// The inbox of a base shard: an edge for each stage shard, then one for each session.
    pub fn base_inbox(&self, base: usize) -> Option<&Inbox<BaseMail<J>>> {
        self.inboxes.bases.get(base)
    }

    /// The inbox of a stage shard: an edge for each source, then one for each view shard, then one
    /// for each session.
    pub fn stage_inbox(&self, stage: usize) -> Option<&Inbox<ToStage<Front<J>>>> {
        self.inboxes.stages.get(stage)
    }

    /// The inbox of a view shard: an edge for each stage shard, then one for each session.
    pub fn view_inbox(&self, reader: usize) -> Option<&Inbox<ViewMail<J>>> {
        self.inboxes.views.get(reader)
    }

    /// Sends a session's message to the base shard that it is for. Refused with `Stopped` where the
    /// store has stopped, or `NoMemory`; it is then not sent. Cost: that of `Inbox::put`.
    pub fn to_base<R: Wait>(&self, rt: &R, session: usize, mail: BaseMail<J>) -> Result<(), Refused>
        ensures only { IfErr result (λ e. (e ≡ Refused.NoMemory) ⊎ (e ≡ Refused.Stopped)) }
    {
        let edge = self.inboxes.stages.len().saturating_add(session);
        let base = mail.base();
        self.put(
            rt,
            self.inboxes.bases.get(base),
            edge,
            mail,
            None,
            Spot::Base(base),
        )
    }

    /// Sends a stage shard's request to a source, as `to_base`.
    pub fn stage_to_source<R: Wait>(
        &self,
        rt: &R,
        stage: usize,
        source: usize,
        request: Request,
    ) -> Result<(), Refused>
        requires stage { stage < J.plan.stages }
        ensures only { IfErr result (λ e. (e ≡ Refused.NoMemory) ⊎ (e ≡ Refused.Stopped)) }
    {
        let Some(base) = self.sources.get(source) else {
            return Err(Refused::Stopped);
        };
        let mail = BaseMail::request(*base, stage, request);
        let (from, to) = (Some(Spot::Stage(stage)), Spot::Base(*base));
        self.put(rt, self.inboxes.bases.get(*base), stage, mail, from, to)
    }

    /// Sends a message to a stage shard, as `to_base`: a packet from a source, a request from a
    /// view shard, or an order from a session.
    pub fn to_stage<R: Wait>(
        &self,
        rt: &R,
        from: usize,
        stage: usize,
        message: ToStage<Front<J>>,
    ) -> Result<(), Refused>
        ensures only { IfErr result (λ e. (e ≡ Refused.NoMemory) ⊎ (e ≡ Refused.Stopped)) }
    {
        let (sources, views) = (self.sources.len(), self.inboxes.views.len());
        let (edge, from) = match &message {
            ToStage::Packet { .. } => (from, self.source_at(from)),
            ToStage::Request(_) => (sources.saturating_add(from), Some(Spot::View(from))),
            ToStage::Order(_) => (sources.saturating_add(views).saturating_add(from), None),
        };
        self.put(
            rt,
            self.inboxes.stages.get(stage),
            edge,
            message,
            from,
            Spot::Stage(stage),
        )
    }

    /// Sends what comes to a view shard, as `to_base`: a packet from a stage shard, or what a
    /// session wants or orders.
    pub fn to_view<R: Wait>(
        &self,
        rt: &R,
        from: usize,
        reader: usize,
        mail: ViewMail<J>,
    ) -> Result<(), Refused>
        ensures only { IfErr result (λ e. (e ≡ Refused.NoMemory) ⊎ (e ≡ Refused.Stopped)) }
    {
        let stages = self.inboxes.stages.len();
        let (edge, from) = match &mail {
            ViewMail::Packet { .. } => (from, Some(Spot::Stage(from))),
            ViewMail::Want(_) | ViewMail::Order { .. } => (stages.saturating_add(from), None),
        };
        self.put(
            rt,
            self.inboxes.views.get(reader),
            edge,
            mail,
            from,
            Spot::View(reader),
        )
    }

    /// Gives a session the reply to its write. It takes no memory.
    pub fn reply<R: Wait>(&self, rt: &R, reply: Reply<J>) {
        if let Some(mailbox) = self.mailboxes.replies.get(reply.session()) {
            mailbox.send(rt, reply);
        }
    }

    /// Waits for a reply to a session. A base shard replies to each write that was sent, also when
    /// it has stopped. `None` only where there is no such session.
    pub fn wait_reply<R: Wait>(&self, rt: &R, session: usize) -> Option<Reply<J>> {
        self.mailboxes.replies.get(session)?.receive(rt)
    }

    /// Tells a fence's session that a view shard has its marker from every stage shard. It takes no
    /// memory.
    pub fn acknowledge<R: Wait>(&self, rt: &R, reader: usize, marker: Marker) {
        if let Some(mailbox) = self
            .mailboxes
            .acks
            .get(self.ack_place(marker.session, reader))
        {
            mailbox.send(rt, marker.number);
        }
    }

    /// Waits for a view shard's acknowledgement of a session's fence: the number of the fence's
    /// call. `None` where there is none and one is no longer to come, since the view shard, a stage
    /// shard or a source has stopped.
    pub fn wait_ack<R: Wait>(&self, rt: &R, session: usize, reader: usize) -> Option<u64> {
        let mailbox = self.mailboxes.acks.get(self.ack_place(session, reader))?;
        mailbox.wait(rt, &self.states.cut_off, reader)
    }

    fn ack_place(&self, session: usize, reader: usize) -> usize {
        session
            .saturating_mul(self.inboxes.views.len())
            .saturating_add(reader)
    }

    /// Wakes a session that waits under this number. It takes no memory.
    pub fn ring<R: Wait>(&self, rt: &R, session: usize, number: u64) {
        if let Some(bell) = self.mailboxes.bells.get(session) {
            bell.ring(rt, number);
        }
    }

    /// Waits until a session's bell rings for this number, or something stops.
    pub fn wait_ring<R: Wait>(&self, rt: &R, session: usize, number: u64) -> Woken {
        match self.mailboxes.bells.get(session) {
            Some(bell) => bell.wait(rt, number),
            None => Woken::Alarmed,
        }
    }

    /// Says that a domain has begun, to who starts the store.
    pub fn begin<R: Wait>(&self, rt: &R, domain: Spot) {
        if let Some(mailbox) = self.states.started.get(self.place(domain)) {
            mailbox.send(rt, ());
        }
    }

    /// Waits until a domain has begun; false where it has stopped instead.
    pub fn has_begun<R: Wait>(&self, rt: &R, domain: Spot) -> bool {
        let place = self.place(domain);
        match self.states.started.get(place) {
            Some(mailbox) => mailbox.wait(rt, &self.states.stops, place).is_some(),
            None => false,
        }
    }

    /// Says that a domain has stopped, and wakes who waits for it. What needs it is then refused.
    pub fn stop<R: Wait>(&self, rt: &R, domain: Spot) {
        self.states.stops.mark(self.place(domain));
        self.cut_off(domain);
        self.alarm(rt);
    }

    /// Whether a domain has stopped. It waits for nobody and takes no memory.
    pub fn has_stopped(&self, domain: Spot) -> bool {
        self.states.stops.has(self.place(domain))
    }

    /// Whether a view shard, a stage shard or a source has stopped, so that nothing new comes to
    /// the view shard, or not all. It waits for nobody and takes no memory.
    pub fn is_cut_off(&self, reader: usize) -> bool {
        self.states.cut_off.has(reader)
    }

    /// Closes all inboxes: what was sent is still taken, and nothing more can be sent.
    pub fn close<R: Wait>(&self, rt: &R) {
        close_all(rt, self.inboxes.bases.as_slice());
        close_all(rt, self.inboxes.stages.as_slice());
        close_all(rt, self.inboxes.views.as_slice());
    }

    // The base shard that is a source.
    fn source_at(&self, source: usize) -> Option<Spot> {
        match self.sources.get(source) {
            Some(base) => Some(Spot::Base(*base)),
            None => None,
        }
    }

    // Puts a message of a domain or a session on an edge of the inbox of a domain, and gives way
    // to that where it is behind and another thread serves it.
    fn put<T: Drop, R: Wait>(
        &self,
        rt: &R,
        inbox: Option<&Inbox<T>>,
        edge: usize,
        message: T,
        from: Option<Spot>,
        to: Spot,
    ) -> Result<(), Refused>
        ensures only { IfErr result (λ e. (e ≡ Refused.NoMemory) ⊎ (e ≡ Refused.Stopped)) }
    {
        let Some(inbox) = inbox else {
            return Err(Refused::Stopped);
        };
        match inbox.put(rt, edge, message) {
            Ok(()) => (),
            Err(unsent) if unsent.refused == Refused::NoMemory => return Err(Refused::NoMemory),
            Err(_) => return Err(Refused::Stopped),
        }
        if inbox.is_crowded() && !self.are_together(from, to) {
            inbox.give_way();
        }
        Ok(())
    }

    // Whether one thread serves both domains; a session has a thread of its own.
    fn are_together(&self, from: Option<Spot>, to: Spot) -> bool {
        let crews = self.watches.crews();
        match from {
            Some(from) => crews.thread_of(from) == crews.thread_of(to),
            None => false,
        }
    }

    // The place of a domain's flag: the base shards come first, then the stage shards.
    fn place(&self, domain: Spot) -> usize {
        let (bases, stages) = (self.inboxes.bases.len(), self.inboxes.stages.len());
        match domain {
            Spot::Base(base) => base,
            Spot::Stage(stage) => bases.saturating_add(stage),
            Spot::View(reader) => bases.saturating_add(stages).saturating_add(reader),
        }
    }

    // Marks the view shards to which nothing more comes through a domain.
    fn cut_off(&self, domain: Spot) {
        match domain {
            Spot::View(reader) => self.states.cut_off.mark(reader),
            Spot::Base(base) if !self.sources.contains(&base) => (),
            Spot::Base(_) | Spot::Stage(_) => {
                for reader in 0..self.inboxes.views.len() {
                    self.states.cut_off.mark(reader);
                }
            }
        }
    }

    // Wakes all who wait, to look what has stopped.
    fn alarm<R: Wait>(&self, rt: &R) {
        alarm_all(rt, self.mailboxes.replies.as_slice());
        alarm_all(rt, self.mailboxes.acks.as_slice());
        alarm_all(rt, self.states.started.as_slice());
        for bell in &self.mailboxes.bells {
            bell.alarm(rt);
        }
    }
}

fn close_all<T: Drop, R: Wait>(rt: &R, inboxes: &[Inbox<T>]) {
    for inbox in inboxes {
        inbox.close(rt);
    }
}

fn alarm_all<T: Drop, R: Wait>(rt: &R, mailboxes: &[Mailbox<T>]) {
    for mailbox in mailboxes {
        mailbox.alarm(rt);
    }
}

fn new_inboxes<T: Drop, F: Fn(usize) -> Spot>(
    alloc: Global,
    watches: &Watches,
    count: usize,
    edges: usize,
    domain: F,
) -> Result<Vec<Inbox<T>>, AllocError>
    requires { F.IsAlwaysCallable domain }
{
    let mut all = Vec::with_capacity(alloc, count)?;
    for place in 0..count {
        let watch = watches.of_domain(domain(place))?;
        all.push(Inbox::new(alloc, edges, watch)?)?;
    }
    Ok(all)
}

fn new_mailboxes<T: Drop>(alloc: Global, count: usize) -> Result<Vec<Mailbox<T>>, AllocError> {
    let mut all = Vec::with_capacity(alloc, count)?;
    for _mailbox in 0..count {
        all.push(Mailbox::new())?;
    }
    Ok(all)
}

fn new_bells(alloc: Global, count: usize) -> Result<Vec<Bell>, AllocError> {
    let mut all = Vec::with_capacity(alloc, count)?;
    for _bell in 0..count {
        all.push(Bell::new())?;
    }
    Ok(all)
}
