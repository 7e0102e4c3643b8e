//! What the step of a write needs, made before it, and what is told of it: its packets, and its
//! answer.
ghost use Rattle.std.specs.Prelude.{◌<◌, ◌≡◌, ◌≤◌, ◌⊎◌, Err, IfErr, IfOk, IfSome, None, Ok, OnErr, OnOk, Some, length, ℕ};
ghost use Rattle.std.specs.Option.{option_map};
ghost use Rattle.model.specs.{Entries.change_of, Refusals.refusal_over};
ghost use Rattle.base.specs.{Records.records_at, Shards.HasKey, Shards.HasRoom};
ghost use Rattle.packet.specs.{Answers.IsAnswer, Messages.none_of, Outboxes.HaveRoom, Outboxes.IsClear, Outboxes.packets_on, Readers.side_in, Split.parts_by, Truth.IsTrueBase};
ghost use Rattle.base_domain.specs.{Codes.answer_of, Codes.message_of, Codes.write_of, Received.IsAnswered, Told.Brings, Told.part_packet, Told.told};

use crate::message::{ToBase, Write};
use crate::packets::{StageParts, side_at};
use base::shard::BaseShard;
use model::entry::Entry;
use model::fronts::Fronts;
use packet::answer::Answer;
use packet::outbox::Outbox;
use packet::split::split;
use plan::plan::Plan;
use row::refused::Refused;
use std::alloc::{AllocError, Global};

/// With what the log refuses the entry or, where it allows it, the entry's records by stage shard
/// and room for their packets, if the table is one of the stage. Errors: memory only. One look-up
/// of a key; where the table is none of the stage no row is copied.
pub(crate) fn weigh<F: Fronts>(
    alloc: Global,
    shard: &BaseShard,
    entry: &Entry,
    plan: &Plan,
    table: usize,
) -> Result<Result<Option<StageParts<F>>, Refused>, AllocError>
    requires { HasKey shard.now.key (change_of entry.now) }
    ensures refused { IfOk result (λ r. IfErr r (λ e. refusal_over shard.now.key shard.now.limit
        shard.now.rows shard.now.length (change_of entry.now) ≡ Some e)) }
    ensures allowed { IfOk result (λ r. OnOk r (refusal_over shard.now.key shard.now.limit
        shard.now.rows shard.now.length (change_of entry.now) ≡ None)) }
    ensures parts { IfOk result (λ r. IfOk r (λ o. o ≡ option_map (λ side. parts_by side.key
        plan.now.stages (records_at shard.now (change_of entry.now))) (side_in plan.now table))) }
    ensures brings { IfOk result (λ r. IfOk r (λ o. IfSome o
        (λ ps. Brings shard.now (change_of entry.now)))) }
{
    plan.keeps_profile();
    let Some(side) = side_at(plan, table) else {
        return match shard.check(entry) {
            Ok(()) => Ok(Ok(None)),
            Err(refused) => Ok(Err(refused)),
        };
    };
    let records = match shard.check_changes(alloc, entry)? {
        Ok(records) => records,
        Err(refused) => return Ok(Err(refused)),
    };
    let by_stage = split(alloc, records, side.key(), plan.stages())?;
    Ok(Ok(Some(StageParts::new(alloc, by_stage)?)))
}

/// A copy of the entry, for which the shard and the outbox then have room. Errors: memory only.
/// Cost: a copy of the entry, and that of `BaseShard::reserve` and of `reserve_indexes`.
pub(crate) fn ready_for<F: Fronts>(
    alloc: Global,
    shard: &mut BaseShard,
    entry: &Entry,
    out: &mut Outbox<F>,
) -> Result<Entry, Refused>
    requires { HasKey shard.old.key (change_of entry.now) }
    ensures kept { IfOk result (λ e. change_of e ≡ change_of entry.now) }
    ensures room { OnOk result (HasRoom shard.new (change_of entry.now)) }
    ensures shard { shard.new ≡ record shard.old { room = shard.new.room } }
    ensures edges { OnOk result (HaveRoom out.new.edges) }
    ensures packets { packets_on out.new.edges ≡ packets_on out.old.edges }
    ensures reply { out.new.reply ≡ out.old.reply }
{
    let kept = entry.try_clone(alloc)?;
    out.reserve()?;
    shard.reserve(alloc, entry)?;
    shard.reserve_indexes(alloc, entry)?;
    Ok(kept)
}

/// Puts the answer to a write into its place.
pub(crate) fn answer<F: Fronts>(
    write: Write,
    refused: Option<Refused>,
    index: u64,
    front: Option<F>,
    out: &mut Outbox<F>,
)
    requires { IsAnswer F.log F.authors F.is_all (answer_of write refused index front) }
    ensures { out.new ≡ record out.old { reply = Some (answer_of write refused index front) } }
{
    let answer = Answer::new(
        write.session,
        write.number,
        write.entry,
        refused,
        index,
        front,
    );
    out.set_reply(answer);
}

/// Puts an answer that no log decides into its place, and no packet on any edge.
pub(crate) fn decline<F: Fronts>(
    write: Write,
    refused: Refused,
    front: Option<F>,
    out: &mut Outbox<F>,
)
    requires why { (refused ≡ Refused.NoMemory) ⊎ (refused ≡ Refused.Stopped) }
    requires clear { packets_on out.old.edges ≡ none_of out.old.edges }
    ensures answer { IsAnswered (write_of write) refused out.new }
    ensures only { out.new ≡ record out.old {
      reply = Some (answer_of write (Some refused) 0 front);
    } }
{
    answer(write, Some(refused), 0, front, out);
}

/// Answers a message of a domain that has stopped: a write, and nothing else.
pub(crate) fn turn_away<F: Fronts>(message: ToBase, out: &mut Outbox<F>)
    requires { IsClear out.old }
    ensures answer { IsAnswered (message_of message) Refused.Stopped out.new }
    ensures edges { out.new.edges ≡ out.old.edges }
{
    if let ToBase::Write(write) = message {
        decline(write, Refused::Stopped, None, out);
    }
}

/// Answers a write that was accepted, with the front that shows it, where there is one. Without it
/// the answer is `NoMemory`, and the reply the same but for the front.
pub(crate) fn answer_accepted<F: Fronts>(
    write: Write,
    index: u64,
    told: Result<F, AllocError>,
    out: &mut Outbox<F>,
) -> Result<(), Refused>
    requires { IfOk told (λ f. IsAnswer F.log F.authors F.is_all
        (answer_of write None index (Some f))) }
    ensures ok { IfOk told (λ f. (result ≡ Ok tt)
        × (out.new ≡ record out.old { reply = Some (answer_of write None index (Some f)) })) }
    ensures err { IfErr told (λ e. (result ≡ Err Refused.NoMemory)
        × (out.new ≡ record out.old { reply = Some (answer_of write None index None) })) }
{
    match told {
        Ok(front) => {
            answer(write, None, index, Some(front), out);
            Ok(())
        }
        Err(_) => {
            answer(write, None, index, None, out);
            Err(Refused::NoMemory)
        }
    }
}

/// Puts the packets of an entry on the edges, each with the records of its stage shard, and gives a
/// front that shows the entry. Only a front can be refused for memory, where its kind may refuse,
/// and then all edges stay clear.
pub(crate) fn tell<F: Fronts>(
    right: &F::Right,
    alloc: Global,
    from: u64,
    parts: Option<StageParts<F>>,
    out: &mut Outbox<F>,
) -> Result<F, AllocError>
    requires clear { packets_on out.old.edges ≡ none_of out.old.edges }
    requires room { HaveRoom out.old.edges }
    requires count { IfSome parts (λ ps. length ps ≡ length out.old.edges) }
    requires within { from ≤ length (F.log (F.front right.now)).entries }
    requires truth { IfSome parts (λ ps. (j : ℕ) → j < length ps
        → IsTrueBase (part_packet (F.log (F.front right.now)) from ps j)) }
    ensures front { IfOk result (λ f. (F.log f ≡ F.log (F.front right.now))
        × (F.authors f ≡ F.authors (F.front right.now))) }
    ensures sent { OnOk result (packets_on out.new.edges
        ≡ told (F.log (F.front right.now)) from parts (length out.old.edges)) }
    ensures unsent { OnErr result (packets_on out.new.edges ≡ none_of out.new.edges) }
    ensures only { OnErr result F.may_refuse }
    ensures edges { length out.new.edges ≡ length out.old.edges }
    ensures reply { out.new.reply ≡ out.old.reply }
{
    let front = F::of(right, alloc)?;
    if let Some(parts) = parts {
        let packets = parts.packets(right, alloc, from)?;
        out.send_to_each(packets);
    }
    Ok(front)
}
