//! What comes to domains and sessions in a running store.
ghost use Rattle.std.specs.Prelude.{◌≡◌, ◌<◌, true};
ghost use Rattle.row.specs.Cells.{shard};
ghost use Rattle.model.specs.{Entries.change_of, Logs.fits, Logs.key_of, Places.layout_of, Places.shard_of};
ghost use Rattle.base_domain.specs.{Codes.message_of, Received.IsFor};
ghost use Rattle.packet.specs.Codes.{mark_of};
ghost use Rattle.protocol.specs.Bases.{last_number, write as write_to, request as request_to, marker as marker_to};
ghost use Rattle.packet.specs.Lines.{empty_log};
ghost use Rattle.routes.specs.Mails.{HasFront};

use base_domain::message::{ToBase, Write};
use book::front::Front;
use book::law::Naming;
use model::entry::Entry;
use packet::answer::Answer;
use packet::request::{Marker, Request};
use packet::stage_packet::StagePacket;
use row::value::Value;
use std::marker::{Model, PhantomData};

/// What comes to a base shard. By its type it is for the shard that it names: a write fits the
/// shard's table, its key has the shard, and its session is one of the store's; a request is of a
/// stage shard of the plan.
#[derive(Drop)]
pub struct BaseMail<J: Naming> {
    base: usize,
    message: ToBase,
    of: PhantomData<J>,
}

impl<J: Naming> Model for BaseMail<J> {
    ghost use Rattle.base_domain.specs.{Codes.message_of, Received.IsFor};
    ghost use Rattle.packet.specs.Lines.{empty_log};
    ghost use Rattle.routes.specs.Mails.{BaseMailView};

    ghost Value = { BaseMailView };

    ghost view = { λ m. record { base = m.base; message = message_of m.message } };

    ghost invariant = { λ m. IsFor (empty_log J.plan m.base) J.sessions (message_of m.message) };
}

impl<J: Naming> BaseMail<J> {
    /// A write to a base shard.
    pub fn write(base: usize, session: usize, number: u64, entry: Entry) -> BaseMail<J>
        requires session { session < J.sessions }
        requires number { number < last_number }
        requires fits { fits (layout_of J.plan base) (change_of entry) ≡ true }
        requires shard { shard_of J.plan base ≡ shard (key_of (layout_of J.plan base).key
            (change_of entry)) (layout_of J.plan base).shards }
        ensures base { result.base ≡ base }
        ensures message { result.message ≡ write_to session number (change_of entry) }
    {
        let write = Write {
            session,
            number,
            entry,
        };
        BaseMail {
            base,
            message: ToBase::Write(write),
            of: PhantomData,
        }
    }

    /// A request of a stage shard to a base shard.
    pub fn request(base: usize, stage: usize, request: Request) -> BaseMail<J>
        requires stage { stage < J.plan.stages }
        ensures base { result.base ≡ base }
        ensures message { result.message ≡ request_to stage request }
    {
        BaseMail {
            base,
            message: ToBase::Request { stage, request },
            of: PhantomData,
        }
    }

    /// The marker of a fence to a base shard.
    pub fn marker(base: usize, marker: Marker) -> BaseMail<J>
        ensures base { result.base ≡ base }
        ensures message { result.message ≡ marker_to (mark_of marker) }
    {
        BaseMail {
            base,
            message: ToBase::Marker(marker),
            of: PhantomData,
        }
    }

    /// The base shard that it is for.
    pub fn base(&self) -> usize
        ensures { result ≡ self.now.base }
    {
        self.base
    }

    /// The message, moved out of it.
    pub fn into_message(self) -> ToBase
        ensures message { message_of result ≡ self.message }
        ensures of { IsFor (empty_log J.plan self.base) J.sessions (message_of result) }
    {
        self.message
    }
}

/// The reply to a write. By its type an accepted one has the front that shows its entry.
pub struct Reply<J: Naming> {
    answer: Answer<Front<J>>,
}

// What holds one drops it by this call, and need not know its parts.
impl<J: Naming> Drop for Reply<J> {
    fn drop(self) {
        let Reply { answer: _ } = self;
    }
}

impl<J: Naming> Model for Reply<J> {
    ghost use Rattle.book.specs.Fronts.{FrontView};
    ghost use Rattle.packet.specs.Answers.{AnswerView};
    ghost use Rattle.routes.specs.Mails.{HasFront};

    ghost Value = { AnswerView FrontView };

    ghost view = { λ r. r.answer };

    ghost invariant = { λ r. HasFront r.answer };
}

impl<J: Naming> Reply<J> {
    /// The reply that this answer is.
    pub fn new(answer: Answer<Front<J>>) -> Reply<J>
        requires { HasFront answer }
        ensures { result ≡ answer }
    {
        Reply { answer }
    }

    /// The session that it is for.
    pub fn session(&self) -> usize
        ensures { result ≡ self.now.session }
    {
        self.answer.session()
    }

    /// The answer, moved out of it.
    pub fn into_answer(self) -> Answer<Front<J>>
        ensures answer { result ≡ self }
        ensures front { HasFront result }
    {
        let Reply { answer } = self;
        answer
    }
}

/// A key that a session waits for: which session, the number of its wait, and the key twice, once
/// for the view shard and once for the place where the session waits there.
#[derive(Drop)]
pub struct Want {
    pub session: usize,
    pub number: u64,
    pub key: Value,
    pub waits: Value,
}

/// What comes to a view shard: a packet of a stage shard, a key that a session wants, or an order
/// to evict a key.
#[derive(Drop)]
pub enum ViewMail<J: Naming> {
    Packet {
        stage: usize,
        packet: StagePacket<Front<J>>,
    },
    Want(Want),
    Order {
        key: Value,
    },
}
