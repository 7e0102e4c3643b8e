//! Sessions.
ghost use Rattle.std.specs.Prelude.{◌≡◌, ◌<◌, suc, [], map, replicate, slice_set, Some, None, IfOk, OnOk, OnErr, IfErr, IsOkUnless};
ghost use Rattle.std.specs.List.{list_all};
ghost use Rattle.std.specs.Option.{is_some};
ghost use Rattle.packet.specs.Readers.{readers};
ghost use Rattle.protocol.specs.{Bases.last_number, Worlds.first_caller, WorldSteps.open_fence};
ghost use Rattle.schedule.specs.{Codes.reply_of, Sessions.acknowledged, Sessions.over, Sessions.told};

use crate::cuts::{are_covered, raise};
use crate::event::Reply;
use crate::places::Places;
use model::lengths::Lengths;
use row::refused::Refused;
use std::alloc::{AllocError, Global};
use std::marker::Model;

/// A fence that has not ended: its number, and the cut with which each view shard has acknowledged
/// it.
#[derive(Drop)]
pub struct OpenFence {
    number: u64,
    acks: Vec<Option<Lengths>>,
}

impl Model for OpenFence {
    ghost use Rattle.protocol.specs.Worlds.{Fence};

    ghost Value = { Fence };

    ghost view = { λ f. record { number = f.number; acks = f.acks.items } };
}

impl OpenFence {
    /// One of this number, which no view shard has acknowledged. Errors: memory only.
    fn new(alloc: Global, places: &Places, number: u64) -> Result<OpenFence, AllocError>
        ensures { IfOk result (λ f. f ≡ open_fence places.now number) }
    {
        let mut acks = Vec::new(alloc);
        for _reader in places.readers() {
            acks.push(None)?;
        }
        Ok(OpenFence { number, acks })
    }

    /// A view shard acknowledges it with a cut.
    fn acknowledge(&mut self, reader: usize, cut: Lengths)
        ensures { self.new ≡ record self.old { acks = slice_set self.old.acks reader (Some cut) } }
    {
        let _number = self.number;
        if reader < self.acks.len() {
            self.acks[reader] = Some(cut);
        }
    }

    /// Whether each view shard has acknowledged it.
    fn is_acknowledged(&self) -> bool
        ensures { result ≡ list_all is_some self.now.acks }
    {
        self.acks.iter().all(|ack| ack.is_some())
    }
}

/// A session: the number of its next write or fence, its floor at each view shard, its open fence,
/// and for each base shard one more than the place of its last entry there.
pub struct Caller {
    number: u64,
    floors: Vec<Lengths>,
    fence: Option<OpenFence>,
    own: Vec<u64>,
}

// What holds one drops it by this call, and need not know its parts.
impl Drop for Caller {
    fn drop(self) {
        let Caller {
            number: _,
            floors: _,
            fence: _,
            own: _,
        } = self;
    }
}

impl Model for Caller {
    ghost use Rattle.schedule.specs.Sessions.{Session};

    ghost Value = { Session };

    ghost view = { λ c. record {
      is = record { number = c.number; floors = c.floors.items; fence = c.fence };
      own = c.own.items;
    } };
}

impl Caller {
    /// One that has not called, in a store of this many base shards. Errors: memory only.
    pub fn new(alloc: Global, places: &Places, bases: usize) -> Result<Caller, AllocError>
        ensures { IfOk result (λ c. c ≡ record {
          is = first_caller places.now;
          own = replicate bases 0;
        }) }
    {
        Ok(Caller {
            number: 0,
            floors: no_floors(alloc, places)?,
            fence: None,
            own: vec![in alloc; 0u64; bases]?,
        })
    }

    /// The number of its next call.
    pub fn number(&self) -> u64
        ensures { result ≡ self.now.is.number }
    {
        self.number
    }

    /// The number of a call, which the session then has used. Errors: `NoMemory` where all numbers
    /// are spent, and then nothing changes.
    pub fn take_number(&mut self) -> Result<u64, Refused>
        ensures number { IfOk result (λ n. n ≡ self.old.is.number) }
        ensures small { IfOk result (λ n. n < last_number) }
        ensures next { OnOk result (self.new ≡ record self.old {
          is = record self.old.is { number = suc self.old.is.number };
        }) }
        ensures only { IsOkUnless result Refused.NoMemory }
        ensures spent { OnErr result (self.old.is.number ≡ last_number) }
        ensures unchanged { OnErr result (self.new ≡ self.old) }
    {
        let number = self.number;
        if number == u64::MAX {
            return Err(Refused::NoMemory);
        }
        self.number = number + 1;
        Ok(number)
    }

    /// An entry of the session stands at this index of a base shard's log.
    pub fn wrote(&mut self, base: usize, index: u64)
        requires { index < last_number }
        ensures { self.new ≡ record self.old { own = slice_set self.old.own base (suc index) } }
    {
        if base < self.own.len() {
            self.own[base] = index + 1;
        }
    }

    /// Opens a fence of this number, which no view shard has acknowledged, in place of an open one.
    /// Errors: memory only, then nothing changes.
    pub fn open_fence(
        &mut self,
        alloc: Global,
        places: &Places,
        number: u64,
    ) -> Result<(), AllocError>
        ensures opened { OnOk result (self.new ≡ record self.old {
          is = record self.old.is { fence = Some (open_fence places.now number) };
        }) }
        ensures unchanged { OnErr result (self.new ≡ self.old) }
    {
        self.fence = Some(OpenFence::new(alloc, places, number)?);
        Ok(())
    }

    /// The floor at a view shard becomes this cut, after a read there.
    pub fn raise_to(&mut self, reader: usize, cut: Lengths)
        ensures { self.new ≡ record self.old {
          is = record self.old.is { floors = slice_set self.old.is.floors reader cut };
        } }
    {
        if reader < self.floors.len() {
            self.floors[reader] = cut;
        }
    }

    /// A view shard acknowledges the fence of this number with its cut; one that is not open is
    /// past. The last acknowledgement ends the fence: `Fenced` where all cuts hold each entry of
    /// the session, and else `Behind`. Errors: memory only; then nothing is said of the session.
    /// Cost: a look at each view shard; the last one looks at each length of each cut.
    pub fn acknowledge(
        &mut self,
        alloc: Global,
        places: &Places,
        session: usize,
        reader: usize,
        number: u64,
        cut: Lengths,
    ) -> Result<Reply, Refused>
        ensures only { IfErr result (λ e. e ≡ Refused.NoMemory) }
        ensures caller { OnOk result (self.new ≡ record self.old {
          is = (acknowledged places.now session self.old self.old.is.fence number reader cut).is;
        }) }
        ensures reply { IfOk result (λ r. reply_of r ≡ (acknowledged places.now session self.old
            self.old.is.fence number reader cut).reply) }
    {
        let Some(mut fence) = self.fence.take() else {
            return Ok(Reply::Delivered);
        };
        if fence.number != number {
            self.fence = Some(fence);
            return Ok(Reply::Delivered);
        }
        fence.acknowledge(reader, cut);
        self.tell(alloc, places, session, fence)
    }

    /// The fence is open, or it is over where each view shard has acknowledged it.
    fn tell(
        &mut self,
        alloc: Global,
        places: &Places,
        session: usize,
        fence: OpenFence,
    ) -> Result<Reply, Refused>
        requires { self.old.is.fence ≡ None }
        ensures only { IfErr result (λ e. e ≡ Refused.NoMemory) }
        ensures caller { OnOk result (self.new ≡ record self.old {
          is = (told places.now session self.old fence.number fence.acks).is;
        }) }
        ensures reply { IfOk result (λ r. reply_of r
            ≡ (told places.now session self.old fence.number fence.acks).reply) }
    {
        if !fence.is_acknowledged() {
            self.fence = Some(fence);
            return Ok(Reply::Delivered);
        }
        self.end(alloc, places, session, &fence)
    }

    /// The fence is over: the floors are raised, or a cut lacks an entry of the session.
    fn end(
        &mut self,
        alloc: Global,
        places: &Places,
        session: usize,
        fence: &OpenFence,
    ) -> Result<Reply, Refused>
        requires { self.old.is.fence ≡ None }
        ensures only { IfErr result (λ e. e ≡ Refused.NoMemory) }
        ensures caller { OnOk result (self.new ≡ record self.old {
          is = (over places.now session self.old fence.now.acks).is;
        }) }
        ensures reply { IfOk result (λ r. reply_of r
            ≡ (over places.now session self.old fence.now.acks).reply) }
    {
        if !are_covered(places, &self.own, &fence.acks) {
            return Ok(Reply::Refused(Refused::Behind));
        }
        raise(alloc, places, &mut self.floors, &fence.acks)?;
        Ok(Reply::Fenced(session))
    }
}

/// No floor at any view shard: an empty cut for each.
fn no_floors(alloc: Global, places: &Places) -> Result<Vec<Lengths>, AllocError>
    ensures { IfOk result (λ v. v.items ≡ map (λ r. []) (readers places.now)) }
{
    let mut floors = Vec::new(alloc);
    for _reader in places.readers() {
        floors.push(Lengths::empty(alloc))?;
    }
    Ok(floors)
}
