//! The turns of a view shard.
ghost use Rattle.std.specs.Prelude.{◌≡◌, ◌≢◌, [], length, IfErr, IsErrAnd, IsFalse, IsTrue, OnOk, OnErr};
ghost use Rattle.packet.specs.declared.mode.Mode.TheVariants.{Broken, Running};
ghost use Rattle.shown.specs.Boards.{pending, shown};
ghost use Rattle.view_domain.specs.{Codes.message_of, Codes.Meets, Outboxes.IsClear};
ghost use Rattle.domain_turns.specs.ViewTurns.{are_one, IsFor, IsOwn, IsRefused, IsTaken, Shows};

use book::front::Front;
use book::law::Naming;
use packet::mode::Mode;
use packet::stage_packet::StagePacket;
use plan::plan::Plan;
use row::refused::Refused;
use shown::writer::ShownWriter;
use std::alloc::Global;
use std::sync::Wait;
use view_domain::message::ToView;
use view_domain::outbox::ViewOutbox;
use view_domain::view_domain::ViewDomain;

/// A view shard takes one message from its inbox into a clear outbox, and its shown copy is made to
/// show what it then holds.
///
/// With `Ok` the message was for it and in turn, the domain did the step of the protocol, its
/// requests and its acknowledgement are in the outbox, and the copy shows just the keys that it
/// holds filled, with their rows, over its cut. Errors: `Gap` just where a packet was not for it or
/// does not start at the line that is held of its stage shard, and the domain has then stopped,
/// with all else as it was; `NoMemory`, also where the copy was refused memory, and then the domain
/// does not run; `Stopped` where it did not run, and nothing changes. After an error the copy shows
/// what it showed, and what is in the outbox is not to be sent. Cost: that of the message and of
/// its change of the copy, which waits for readers that still look at the copy behind.
pub fn take_from_inbox<J: Naming, R: Wait + Drop>(
    alloc: Global,
    plan: &Plan,
    domain: &mut ViewDomain<Front<J>>,
    writer: &mut ShownWriter<J, R>,
    message: ToView<Front<J>>,
    out: &mut ViewOutbox<Front<J>>,
) -> Result<(), Refused>
    requires plan { (plan.now ≡ J.plan) × (domain.old.plan ≡ J.plan) }
    requires clear { IsClear out.old }
    requires edges { length out.old.requests ≡ J.plan.stages }
    requires shows { Shows domain.old (shown writer.old) }
    requires idle { pending writer.old ≡ [] }
    ensures own { OnOk result (IsFor domain.old message) }
    ensures done { OnOk result (IsTaken (message_of message) domain.old out.new domain.new) }
    ensures shows { OnOk result (Shows domain.new (shown writer.new)) }
    ensures idle { OnOk result (pending writer.new ≡ []) }
    ensures plan { OnOk result (domain.new.plan ≡ J.plan) }
    ensures stays { OnErr result (shown writer.new ≡ shown writer.old) }
    ensures not { domain.old.mode ≢ Running → IsErrAnd result (λ e. (e ≡ Refused.Stopped)
        × (domain.new ≡ domain.old)) }
    ensures refused { domain.old.mode ≡ Running → IfErr result (λ e. IsRefused message domain.old e
        domain.new) }
    ensures stopped { OnErr result (domain.new.mode ≢ Running) }
    ensures edges { length out.new.requests ≡ J.plan.stages }
{
    if domain.mode() != Mode::Running {
        return Err(Refused::Stopped);
    }
    if !is_for(plan, domain, &message) {
        domain.stop();
        return Err(Refused::Gap);
    }
    domain.receive(alloc, message, out)?;
    domain.is_true();
    let Some(change) = out.take_shown() else {
        return Ok(());
    };
    let Ok(()) = writer.show(change) else {
        domain.stop();
        return Err(Refused::NoMemory);
    };
    Ok(())
}

// Whether the message is for the domain.
fn is_for<J: Naming>(plan: &Plan, domain: &ViewDomain<Front<J>>, message: &ToView<Front<J>>) -> bool
    requires plan { (plan.now ≡ J.plan) × (domain.now.plan ≡ J.plan) }
    requires sound { domain.now.mode ≢ Broken }
    ensures yes { IsTrue result → IsFor domain.now message.now }
    ensures no { IsFalse result → IsFor domain.now message.now → ⊥ }
    ensures meets { IsTrue result → Meets are_one domain.now message.now }
{
    match message {
        ToView::Packet { stage, packet } => {
            let (_to, _cut) = (packet.to(), domain.cut());
            is_from(plan, domain, *stage, packet)
        }
        ToView::Want { .. } | ToView::Order { .. } => true,
    }
}

// Whether the packet is to the domain, from this stage shard.
fn is_from<J: Naming>(
    plan: &Plan,
    domain: &ViewDomain<Front<J>>,
    stage: usize,
    packet: &StagePacket<Front<J>>,
) -> bool
    requires plan { (plan.now ≡ J.plan) × (domain.now.plan ≡ J.plan) }
    ensures yes { IsTrue result → IsOwn domain.now stage packet.now }
    ensures no { IsFalse result → IsOwn domain.now stage packet.now → ⊥ }
{
    plan.keeps_profile();
    let (to, reader) = (packet.to(), packet.reader());
    if to.sources() == 0 {
        return false;
    }
    let _front = to.front(0);
    stage < plan.stages()
        && packet.stage() == stage
        && reader.view == domain.view()
        && reader.shard == domain.shard()
}
