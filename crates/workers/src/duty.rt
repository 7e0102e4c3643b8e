//! What a thread is given to serve, beside a view shard.
ghost use Rattle.std.specs.Prelude.{◌≡◌, ◌<◌};

use book::law::Naming;
use book::log::Log;
use schedule::wire::Spot;
use std::marker::{Model, PhantomData};

/// A base shard that has taken no message: the right to its log, which is empty, for the sessions
/// of the store.
#[derive(Drop)]
pub struct BaseDuty<J: Naming> {
    log: Log<J>,
    sessions: usize,
}

impl<J: Naming> Model for BaseDuty<J> {
    ghost use Rattle.std.specs.Prelude.{◌≡◌, ℕ};

    ghost Value = { ℕ };

    ghost view = { λ d. d.log.base };

    ghost invariant = { λ d. (d.log.len ≡ 0) × (d.sessions ≡ J.sessions) };
}

impl<J: Naming> BaseDuty<J> {
    /// The base shard of this log.
    pub fn new(log: Log<J>, sessions: usize) -> BaseDuty<J>
        requires empty { log.len ≡ 0 }
        requires sessions { sessions ≡ J.sessions }
    {
        BaseDuty { log, sessions }
    }

    // Its parts, moved out of it.
    pub(crate) fn into_parts(self) -> (Log<J>, usize)
        ensures empty { result.0.len ≡ 0 }
        ensures sessions { result.1 ≡ J.sessions }
    {
        let BaseDuty { log, sessions } = self;
        (log, sessions)
    }
}

/// A stage shard of the plan that has taken no message.
#[derive(Drop)]
pub struct StageDuty<J: Naming> {
    shard: usize,
    of: PhantomData<J>,
}

impl<J: Naming> Model for StageDuty<J> {
    ghost use Rattle.std.specs.Prelude.{◌<◌, ℕ};

    ghost Value = { ℕ };

    ghost view = { λ d. d.shard };

    ghost invariant = { λ d. d.shard < J.plan.stages };
}

impl<J: Naming> StageDuty<J> {
    /// The stage shard of this number.
    pub fn new(shard: usize) -> StageDuty<J>
        requires { shard < J.plan.stages }
    {
        StageDuty {
            shard,
            of: PhantomData,
        }
    }

    // Its number.
    pub(crate) fn shard(&self) -> usize
        ensures { result < J.plan.stages }
    {
        self.shard
    }
}

/// A domain that a thread is to serve, before its first message.
#[derive(Drop)]
pub enum Duty<J: Naming> {
    Base(BaseDuty<J>),
    Stage(StageDuty<J>),
}

impl<J: Naming> Duty<J> {
    /// The domain.
    pub fn domain(&self) -> Spot {
        match self {
            Duty::Base(duty) => Spot::Base(duty.log.base()),
            Duty::Stage(duty) => Spot::Stage(duty.shard),
        }
    }
}
