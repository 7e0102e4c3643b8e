//! The turns of a base shard.
ghost use Rattle.std.specs.Prelude.{◌≡◌, ◌≢◌, None, Err, true, false, length, IfErr, OnErr, OnOk};
ghost use Rattle.std.specs.Option.{ForSome};
ghost use Rattle.domain_turns.specs.BaseTurns.{IsTaken, IsUntaken, log_in, with_reply};
ghost use Rattle.base_domain.specs.Received.{IsAnswered, Stays};
ghost use Rattle.packet.specs.{Messages.none_of, Outboxes.IsClear, Outboxes.packets_on};
ghost use Rattle.routes.specs.Mails.{HasFront};

use base_domain::base_domain::BaseDomain;
use book::book::Book;
use book::front::Front;
use book::law::Naming;
use packet::answer::Answer;
use packet::outbox::Outbox;
use routes::mail::{BaseMail, Reply};
use row::refused::Refused;
use std::alloc::Global;

/// What one message made of a base shard, beside its packets: the reply to a write, and whether the
/// shard goes on.
#[derive(Drop)]
pub struct BaseTurn<J: Naming> {
    pub reply: Option<Reply<J>>,
    pub taken: Result<(), Refused>,
}

/// A base shard takes one message from its inbox into a clear outbox with an edge to each stage
/// shard.
///
/// With `Ok` the domain did the step of the protocol, its packets are on the edges, and a write has
/// its reply; or a write was refused for memory, and nothing changed but that it has this reply.
/// Errors: `Gap` just where the message is for another base shard, and it has then stopped, with no
/// reply; `Stopped` where it had stopped, and then a write is so answered, and where its log has
/// gone on without it, as the front in the reply shows; `NoMemory` where that was refused for the
/// packet of a request or a marker. After an error it does not run, and nothing is on the edges.
/// Cost: that of `BaseDomain::receive`.
pub fn take_base<J: Naming>(
    alloc: Global,
    book: &Book<J>,
    base: usize,
    domain: &mut BaseDomain<Front<J>>,
    mail: BaseMail<J>,
    out: &mut Outbox<Front<J>>,
) -> BaseTurn<J>
    requires base { domain.old.front.base ≡ base }
    requires sessions { length domain.old.next ≡ J.sessions }
    requires clear { IsClear out.old }
    requires edges { length out.old.edges ≡ J.plan.stages }
    ensures done { mail.base ≡ base → OnOk result.taken (IsTaken J.plan mail.message domain.old
        (with_reply result.reply out.new) domain.new) }
    ensures not { mail.base ≡ base → domain.old.stopped ≡ true
        → (result.taken ≡ Err Refused.Stopped) × (domain.new ≡ domain.old)
        × IsAnswered mail.message Refused.Stopped (with_reply result.reply out.new) }
    ensures refused { mail.base ≡ base → domain.old.stopped ≡ false → IfErr result.taken
        (λ e. IsUntaken J.plan mail.message domain.old e (with_reply result.reply out.new)
        domain.new) }
    ensures other { mail.base ≢ base → (result ≡ record { reply = None; taken = Err Refused.Gap })
        × (domain.new ≡ record domain.old { stopped = true }) × (out.new ≡ out.old) }
    ensures stopped { OnErr result.taken (domain.new.stopped ≡ true) }
    ensures silent { OnErr result.taken (packets_on out.new.edges ≡ none_of out.new.edges) }
    ensures place { Stays (log_in J.plan) domain.old domain.new }
    ensures reply { out.new.reply ≡ None }
    ensures edges { length out.new.edges ≡ J.plan.stages }
{
    if mail.base() != base {
        domain.stop();
        return BaseTurn {
            reply: None,
            taken: Err(Refused::Gap),
        };
    }
    let taken = domain.receive(alloc, book, mail.into_message(), out);
    BaseTurn {
        reply: reply_of(out.take_reply()),
        taken,
    }
}

// The reply that an answer is.
fn reply_of<J: Naming>(answer: Option<Answer<Front<J>>>) -> Option<Reply<J>>
    requires { ForSome answer HasFront }
    ensures { result ≡ answer }
{
    match answer {
        Some(answer) => Some(Reply::new(answer)),
        None => None,
    }
}
