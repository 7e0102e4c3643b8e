//! What each test does with a running system, which is begun in one place.
ghost use Rattle.std.specs.Prelude.{◌≡◌, ◌≤◌};
ghost use Rattle.model.specs.Legal.{most_sessions};

use crate::asks::{Running, fail};
use crate::callers;
use crate::gates::{Line, insert_lines};
use crate::steps::{Step, make_steps};
use book::book::Opened;
use book::law::Naming;
use plan::plan::Plan;
use std::alloc::Global;
use std::marker::Brand;
use std::sync::Wait;
use std::test::Fail;
use std::thread::Threads;
use system::system::System;
use workers::gate::{Gate, OpenGate};

/// What is done, and asked of what comes of it.
#[derive(Clone, Copy)]
pub enum Scene {
    FourSessions,
    Kept,
    KeptBeside,
    Meeting,
    Stopped,
    Lines(&'static [Line]),
    Steps(&'static [Step]),
}

/// How a system is started, and what is done with it.
#[derive(Drop)]
pub struct Setup<G> {
    pub plan: Plan,
    pub sessions: usize,
    pub threads: usize,
    pub gate: G,
    pub scene: Scene,
}

// Plays the scene with the built-in plan, whose domains this many threads serve.
pub fn run_notes<R: Threads + Wait + Copy + Drop + Send + 'static>(
    rt: R,
    alloc: Global,
    sessions: usize,
    threads: usize,
    scene: Scene,
) -> Result<(), Fail>
    requires few { sessions ≤ most_sessions }
{
    let setup = Setup {
        plan: Plan::built_in(alloc)?,
        sessions,
        threads,
        gate: OpenGate,
        scene,
    };
    run(rt, alloc, setup)
}

// Plays the scene with a book for this many sessions. What is answered wrong is a failure.
pub fn run<
    R: Threads + Wait + Copy + Drop + Send + 'static,
    G: Gate + Send + Sync + Drop + 'static,
>(rt: R, alloc: Global, setup: Setup<G>) -> Result<(), Fail>
    requires few { setup.sessions ≤ most_sessions }
{
    let opened = Opened::new(alloc, &setup.plan, setup.sessions)?;
    run_named::<Brand, R, G>(rt, alloc, opened, setup)
}

fn run_named<
    J: Naming + Send + Sync + 'static,
    R: Threads + Wait + Copy + Drop + Send + 'static,
    G: Gate + Send + Sync + Drop + 'static,
>(rt: R, alloc: Global, opened: Opened, setup: Setup<G>) -> Result<(), Fail>
    requires book { opened.book ≡ J.book }
    requires plan { (opened.plan ≡ J.plan) × (setup.plan ≡ J.plan) }
    requires sessions { (opened.sessions ≡ J.sessions) × (setup.sessions ≡ J.sessions) }
    requires few { setup.sessions ≤ most_sessions }
{
    let Setup {
        plan,
        sessions,
        threads,
        gate,
        scene,
    } = setup;
    match System::<J>::start(rt, alloc, opened, plan, sessions, threads, gate) {
        Ok(system) => play(Running { rt, alloc, system }, scene),
        Err(refused) => Err(fail(refused)),
    }
}

// Plays a scene with a system, which stops in any case.
fn play<J: Naming + Send + Sync + 'static, R: Threads + Wait + Copy + Drop + Send + 'static>(
    mut running: Running<J, R>,
    scene: Scene,
) -> Result<(), Fail> {
    let played = match scene {
        Scene::FourSessions => callers::calls_of_four(&mut running),
        Scene::Kept => callers::calls_of_kept(&mut running),
        Scene::KeptBeside => callers::calls_of_kept_beside(&mut running),
        Scene::Meeting => callers::calls_of_two(&mut running),
        Scene::Lines(lines) => insert_lines(&mut running, lines),
        Scene::Steps(steps) => make_steps(&mut running, steps),
        Scene::Stopped => return callers::calls_of_stopped(running),
    };
    running.stop();
    played
}
