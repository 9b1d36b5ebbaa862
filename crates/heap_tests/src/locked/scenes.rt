//! Worked examples, each over a new heap under its lock.
ghost use Rattle.heap_lock.specs.Blanks.{IsNamed};

use super::definitions::defining;
use super::dumps::{Case, dumps_go};
use super::gates::watched_workers;
use super::rolls::rolling;
use super::shared::Stage;
use super::threads::four_threads;
use super::watched::cuts;
use super::workers::cycles;
use heap_lock::{Action, Blank, Config, Heap, Receipt, Role, Seat, Seats, Shared};
use std::alloc::Global;
use std::marker::Brand;
use std::sync::Wait;
use std::thread::Threads;

/// What is played on a new heap. The function of the same name says what it is.
#[derive(Clone, Copy)]
pub enum Scene {
    /// `dumps_go`, with this number of points, and these dumps.
    Dumps(u64, &'static [Case]),
    WatchedWorkers,
    Rolling,
    Defining,
    FourThreads,
    Cycles,
    Cuts,
}

/// A seat, and what it claims: its actions with their receipts.
#[derive(Drop)]
pub struct Actor<L: Heap> {
    pub seat: Seat<L>,
    pub claims: Vec<(Action, Receipt)>,
}

/// Plays a scene on a new heap of 16 regions and 2 mutators, whose chronicle drops its oldest entries if the scene is of that.
pub fn play_scene<R: Threads + Wait + Sync>(rt: &R, alloc: Global, scene: Scene) -> bool {
    let Some(config) = Config::new(16, 2, 1024) else {
        return false;
    };
    let roles = [
        Role::User,
        Role::Marker,
        Role::Sweeper,
        Role::Mutator(0),
        Role::Mutator(1),
    ];
    let Ok(mut blank) = Blank::new(alloc, config, roles.as_slice()) else {
        return false;
    };
    blank.set_rolls(matches!(scene, Scene::Rolling));
    play_named(rt, alloc, blank, scene)
}

// Gives a heap its name, and plays a scene on it.
fn play_named<R: Threads + Wait + Sync>(rt: &R, alloc: Global, blank: Blank, scene: Scene) -> bool {
    open_and_play::<Brand, R>(rt, alloc, blank, scene)
}

// Opens a heap, and plays a scene on it.
fn open_and_play<L: Heap + Send + Sync, R: Threads + Wait + Sync>(
    rt: &R,
    alloc: Global,
    blank: Blank,
    scene: Scene,
) -> bool
    requires { IsNamed L.config L.tables L.ledger L.rolls blank }
{
    let (shared, mut seats) = blank.open::<L>();
    let mut actors = Vec::new(alloc);
    let made = has_four(alloc, &mut seats, &mut actors);
    made && play(rt, alloc, &shared, actors.as_mut_slice(), scene)
}

// Adds an actor for each of four seats, which claim nothing yet. Returns whether that was done.
fn has_four<L: Heap>(alloc: Global, seats: &mut Seats<L>, actors: &mut Vec<Actor<L>>) -> bool {
    for _ in 0..4 {
        let Some(seat) = seats.take() else {
            return false;
        };
        let claims = Vec::new(alloc);
        if actors.push(Actor { seat, claims }).is_err() {
            return false;
        }
    }
    true
}

// Plays a scene by the user, the marker, the sweeper and mutator 0. Returns whether all goes as it must.
fn play<L: Heap + Send + Sync, R: Threads + Wait + Sync>(
    rt: &R,
    alloc: Global,
    shared: &Shared<L>,
    actors: &mut [Actor<L>],
    scene: Scene,
) -> bool {
    let [user, marker, sweeper, mutator] = actors else {
        return false;
    };
    let (user, marker) = (&mut user.seat, &mut marker.seat);
    let (sweeper, mutator) = (&mut sweeper.seat, &mut mutator.seat);
    let stage = &Stage { rt, alloc, shared };
    match scene {
        Scene::Dumps(points, cases) => dumps_go(stage, user, mutator, points, cases),
        Scene::WatchedWorkers => watched_workers(rt, alloc, shared, user, marker, sweeper),
        Scene::Rolling => rolling(rt, shared, user),
        Scene::Defining => defining(stage, user),
        Scene::FourThreads => four_threads(rt, shared, actors),
        Scene::Cuts => cuts(stage, user),
        Scene::Cycles => cycles(rt, alloc, shared, user, marker, sweeper),
    }
}
