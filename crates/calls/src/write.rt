//! Writes of a session, and what becomes of them.
ghost use Rattle.std.specs.Prelude.{◌≡◌, ◌⊎◌, ◌<◌, ◌≤◌, true, IfErr, IfOk, IfSome, IsSome, Some, None};
ghost use mathlib.Core.List.{IsPrefix};
ghost use Rattle.calls.specs.Writes.{IsAnswer, IsNews, IsTo, Says};
ghost use Rattle.row.specs.Cells.{shard};
ghost use Rattle.model.specs.{Entries.change_of, Histories.write, Logs.fits, Logs.key_of, Places.base_count, Places.layout_of, Places.shard_of};
ghost use Rattle.protocol.specs.Bases.{last_number};
ghost use Rattle.book.specs.Replies.{IsAfter, IsWhole};
ghost use Rattle.routes.specs.Mails.{HasFront};

use book::front::Front;
use book::law::Naming;
use book::part::Part;
use model::entry::Entry;
use packet::answer::Answer;
use routes::mail::{BaseMail, Reply};
use routes::routes::Routes;
use row::refused::Refused;
use std::alloc::Global;
use std::sync::Wait;

/// A write that is sent: its session, the number of its call, and its base shard.
#[derive(Clone, Copy)]
pub struct Call {
    pub session: usize,
    pub number: u64,
    pub base: usize,
}

/// What a session knows from a reply: the index or the refusal, and what it has then seen.
#[derive(Drop)]
pub struct Told<J: Naming> {
    pub answer: Result<u64, Refused>,
    pub seen: Part<J>,
}

impl Call {
    /// Sends the entry to its base shard, and waits for the reply to this very call. Accepted, the
    /// entry stands at the index that is told, after all that was seen. Refused by the log, what
    /// was then seen has the log that refused, with no entry of the call; refused with `NoMemory`
    /// or `Stopped`, no more was seen. Errors: `NoMemory`, or `Stopped` where the base shard or the
    /// store has stopped; nothing was sent then. Cost: a copy of the entry, one message and one
    /// reply.
    pub fn make<J: Naming, R: Wait>(
        self,
        rt: &R,
        alloc: Global,
        routes: &Routes<J>,
        entry: Entry,
        seen: &Part<J>,
    ) -> Result<Told<J>, Refused>
        requires base { self.base < base_count J.plan }
        requires session { self.session < J.sessions }
        requires number { self.number < last_number }
        requires fits { fits (layout_of J.plan self.base) (change_of entry) ≡ true }
        requires shard { shard_of J.plan self.base ≡ shard (key_of (layout_of J.plan self.base).key
            (change_of entry)) (layout_of J.plan self.base).shards }
        ensures taken { IfOk result (λ t. IfOk t.answer (λ k. IsAfter seen.now (write self.session
            self.number self.base (change_of entry)) self.base k t.seen)) }
        ensures untaken { IfOk result (λ t. IfErr t.answer (λ e. IsAnswer J.plan seen.now
            self.session self.number self.base (change_of entry) e t.seen)) }
        ensures unsent { IfErr result (λ e. (e ≡ Refused.NoMemory) ⊎ (e ≡ Refused.Stopped)) }
    {
        let sent = entry.try_clone(alloc)?;
        let mut front = seen.front(self.base);
        front.catch_up(routes.book());
        let mail = BaseMail::write(self.base, self.session, self.number, sent);
        routes.to_base(rt, self.session, mail)?;
        Ok(self.reply(rt, routes, &entry, seen, &front))
    }

    // Waits for the reply to this call. What comes from the mailbox is known by its type alone, so
    // its plain data is compared with the call.
    fn reply<J: Naming, R: Wait>(
        self,
        rt: &R,
        routes: &Routes<J>,
        entry: &Entry,
        seen: &Part<J>,
        front: &Front<J>,
    ) -> Told<J>
        requires whole { IsWhole front.now }
        requires base { front.now.base ≡ self.base }
        requires seen { IsPrefix seen.now front.now.seen }
        ensures taken { IfOk result.answer (λ k. IsAfter seen.now (write self.session self.number
            self.base (change_of entry.now)) self.base k result.seen) }
        ensures untaken { IfErr result.answer (λ e. IsAnswer J.plan seen.now self.session
            self.number self.base (change_of entry.now) e result.seen) }
    {
        for _ in rt.forever() {
            if let Some(reply) = routes.wait_reply(rt, self.session) {
                if let Some(told) = self.told(entry, seen, front, reply) {
                    return told;
                }
            }
        }
        unreachable!()
    }

    // What the reply says; none where it is of another call.
    fn told<J: Naming>(
        self,
        entry: &Entry,
        seen: &Part<J>,
        front: &Front<J>,
        reply: Reply<J>,
    ) -> Option<Told<J>>
        requires whole { IsWhole front.now }
        requires base { front.now.base ≡ self.base }
        requires seen { IsPrefix seen.now front.now.seen }
        ensures own { IfSome result (λ _. IsTo self.session self.number (change_of entry.now)
            reply) }
        ensures says { IfSome result (λ t. Says reply t.answer) }
        ensures taken { IfSome result (λ t. IfOk t.answer (λ k. IsAfter seen.now (write self.session
            self.number self.base (change_of entry.now)) self.base k t.seen)) }
        ensures untaken { IfSome result (λ t. IfErr t.answer (λ e. IsAnswer J.plan seen.now
            self.session self.number self.base (change_of entry.now) e t.seen)) }
        ensures sure { IsTo self.session self.number (change_of entry.now) reply
            → IsNews self.base front.now.len reply → IsSome result }
    {
        let answer = reply.into_answer();
        if !answer.is_of(self.session, self.number, entry) {
            return None;
        }
        match answer.refused() {
            None => self.taken(entry, seen, front, answer),
            Some(refused) => self.untaken(entry, seen, front, answer, refused),
        }
    }

    // What the answer to an accepted write says; none where its front is of another base shard, or
    // had seen its place before it was sent.
    fn taken<J: Naming>(
        self,
        entry: &Entry,
        seen: &Part<J>,
        front: &Front<J>,
        answer: Answer<Front<J>>,
    ) -> Option<Told<J>>
        requires own { IsTo self.session self.number (change_of entry.now) answer }
        requires accepted { answer.refused ≡ None }
        requires shown { HasFront answer }
        requires whole { IsWhole front.now }
        requires base { front.now.base ≡ self.base }
        requires seen { IsPrefix seen.now front.now.seen }
        ensures index { IfSome result (λ t. t.answer ≡ Ok answer.index) }
        ensures taken { IfSome result (λ t. IsAfter seen.now (write self.session self.number
            self.base (change_of entry.now)) self.base answer.index t.seen) }
        ensures sure { IsNews self.base front.now.len answer → IsSome result }
    {
        let index = answer.index();
        let (_, shown) = answer.into_parts();
        let Some(shown) = shown else { unreachable!() };
        let mut front = front.again();
        if shown.base() != self.base || !front.settle(&shown, index) {
            return None;
        }
        Some(Told {
            answer: Ok(index),
            seen: front.part(),
        })
    }

    // What the answer to a refused write says; none where the front that decided is of another base
    // shard, or has less of the log than was seen before it was sent.
    fn untaken<J: Naming>(
        self,
        entry: &Entry,
        seen: &Part<J>,
        front: &Front<J>,
        answer: Answer<Front<J>>,
        refused: Refused,
    ) -> Option<Told<J>>
        requires own { IsTo self.session self.number (change_of entry.now) answer }
        requires refused { answer.refused ≡ Some refused }
        requires whole { IsWhole front.now }
        requires base { front.now.base ≡ self.base }
        requires seen { IsPrefix seen.now front.now.seen }
        ensures refused { IfSome result (λ t. t.answer ≡ Err refused) }
        ensures untaken { IfSome result (λ t. IsAnswer J.plan seen.now self.session self.number
            self.base (change_of entry.now) refused t.seen) }
        ensures sure { IsNews self.base front.now.len answer → IsSome result }
    {
        if refused == Refused::NoMemory || refused == Refused::Stopped {
            return Some(Told {
                answer: Err(refused),
                seen: seen.again(),
            });
        }
        let (_, shown) = answer.into_parts();
        let Some(shown) = shown else { unreachable!() };
        if shown.base() != self.base {
            return None;
        }
        let seen = front.again().adopt(shown)?;
        Some(Told {
            answer: Err(refused),
            seen,
        })
    }
}
