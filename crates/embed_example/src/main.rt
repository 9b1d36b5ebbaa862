//! A runtime on a shared heap: two mutators, a marker, a sweeper and a dumper, each in a thread of its own, and an audit of what
//! they did. `docs/EMBED.md` walks through it.
#![tactic(auto)]

ghost use Rattle.std.specs.Prelude.{◌≡◌};
ghost use denote.Param.Send.{IsSend, IsSync};

mod mutator;

use heap_runtime::{
    Actor, Actors, Blank, Config, Dumped, Dumper, Event, Heap, Kind, LastSeen, Machine, Pace,
    Pumped, Refusal, Role, Totals, WriteOutlet, audit_all, define_array_class, define_class, dump,
};
use mutator::mutate;
use std::alloc::{AllocError, Global};
use std::fs::Files;
use std::io::Write;
use std::marker::Brand;
use std::sync::Wait;
use std::thread::Threads;
use std::{fs, io, thread};

// The file of the dump.
const FILE: &str = "embed.hprof";

// The number of regions, of rounds of each mutator, and of rounds that a mutator may be ahead of the sweeper.
const REGIONS: u64 = 16;

const ROUNDS: u64 = 20;

const AHEAD: u64 = 2;

// The numbers of the class of nodes, which is defined first, and of that of maps.
const NODE: u64 = 0;

const MAP: u64 = 1;

// What the actors did, and the dump that was written beside them.
type Report<W> = (Totals, Dumped<WriteOutlet<W>, LastSeen>);

// Runs the actors, dumps beside them, and prints what they did.
fn main(rt: HostRuntime) -> io::Result<()> {
    let file = fs::create(&rt, FILE)?;
    let Some(config) = Config::new(REGIONS, 2, 1024) else {
        return println!(rt; "the settings are out of range");
    };
    match shared_heap(&rt, rt.alloc(), config, file) {
        Some(report) => print_report(&rt, &report)?,
        None => println!(rt; "something was refused")?,
    }
    match rewound(rt.alloc(), config) {
        Ok(place) => println!(rt; "a machine of its own is back at place {place} of 4"),
        Err(refusal) => println!(rt; "it was refused: {}", refusal.name()),
    }
}

// Creates the heap, and has all threads work on it. Returns None if anything was refused.
fn shared_heap<W: Write + Drop, R: Threads + Wait + Sync>(
    rt: &R,
    alloc: Global,
    config: Config,
    file: W,
) -> Option<Report<W>> {
    let roles = [
        Role::User,
        Role::Mutator(0),
        Role::Mutator(1),
        Role::Marker,
        Role::Sweeper,
    ];
    let blank = Blank::new(alloc, config, roles.as_slice()).ok()?;
    open::<Brand, W, R>(rt, alloc, blank, file)
}

// The actors of two mutators, a marker and a sweeper.
type Team<'a, L, R> = (
    Actor<'a, L, R>,
    Actor<'a, L, R>,
    Actor<'a, L, R>,
    Actor<'a, L, R>,
);

// Opens the heap, and has all threads work on it. Returns None if anything was refused.
fn open<L: Heap + Send + Sync, W: Write + Drop, R: Threads + Wait + Sync>(
    rt: &R,
    alloc: Global,
    blank: Blank,
    file: W,
) -> Option<Report<W>>
    requires { (blank.config ≡ L.config) × (blank.tables ≡ L.tables)
        × (blank.ledger ≡ L.ledger) × (blank.rolls ≡ L.rolls) }
{
    let (shared, seats) = blank.open::<L>();
    run(Actors::new(rt, alloc, &shared, seats), file)
}

// Defines the classes, and has all threads work. Returns None if anything was refused.
fn run<L: Heap + Send + Sync, W: Write + Drop, R: Threads + Wait + Sync>(
    mut actors: Actors<'_, L, R>,
    file: W,
) -> Option<Report<W>> {
    let mut user = actors.take()?;
    define_classes(&mut user, actors.alloc)?;
    let mut witness = actors.shared.witness(actors.rt);
    user.meet(&mut witness);
    let team = take_team(&mut actors)?;
    let dumper = Dumper::new(actors.shared, actors.rt, witness);
    work(&actors, team, dumper, file)
}

// Defines the classes. Returns None if one is refused.
fn define_classes<L: Heap, R: Wait>(user: &mut Actor<'_, L, R>, alloc: Global) -> Option<()> {
    let node = node_class(alloc).ok()?;
    user.act(node).ok()?;
    let map = define_array_class(alloc, b"[Node;").ok()?;
    user.act(map).ok()?;
    Some(())
}

// Creates the definition of the class of nodes.
fn node_class(alloc: Global) -> Result<Event, AllocError> {
    define_class(alloc, b"Node", None, &[(b"next", Kind::Object)])
}

// Takes the actors of the next four seats. Returns None if there are fewer.
fn take_team<'a, L: Heap, R: Wait>(actors: &mut Actors<'a, L, R>) -> Option<Team<'a, L, R>> {
    Some((
        actors.take()?,
        actors.take()?,
        actors.take()?,
        actors.take()?,
    ))
}

// Has all threads work, each with an actor, dumps beside them a state with all that the dumper has seen, and audits what they did.
// Returns None if anything was refused.
fn work<'a, L: Heap + Send + Sync, W: Write + Drop, R: Threads + Wait + Sync>(
    actors: &Actors<'a, L, R>,
    team: Team<'a, L, R>,
    dumper: Dumper<'a, L, R>,
    file: W,
) -> Option<Report<W>> {
    let (rt, alloc) = (actors.rt, actors.alloc);
    let (mut one, mut two, mut marker, mut sweeper) = team;
    let pace = &Pace::new(2, AHEAD);
    let (dumped, dumper) = thread::scope(
        thread::scope_env(),
        rt,
        |scope| -> Option<(Dumped<WriteOutlet<W>, LastSeen>, Dumper<'_, L, R>)>
            requires { IsSend L.row × IsSync L.row × IsSync R.row }
        {
            let first = scope.spawn(|| mutate(pace, &mut one)).ok()?;
            let second = scope.spawn(|| mutate(pace, &mut two)).ok()?;
            let marking = scope.spawn(|| marker.mark_cycles(pace, ROUNDS)).ok()?;
            let sweeping = scope.spawn(|| sweeper.sweep_cycles(pace, ROUNDS)).ok()?;
            let outlet = WriteOutlet::new(file);
            let dumped = dump(rt, alloc, dumper, 0, outlet, LastSeen { bytes: 0 });
            let mutated = first.join(rt).is_some() & second.join(rt).is_some();
            let collected = marking.join(rt).is_ok() & sweeping.join(rt).is_ok();
            if mutated & collected {
                Some(dumped)
            } else {
                None
            }
        },
    )?;
    let totals = audit_all(&mut [one, two, marker], &mut dumper.into_witness());
    Some((totals.ok()?, dumped))
}

// Prints what came of the threads.
fn print_report<W: Write + Drop, R: Print + Files>(rt: &R, report: &Report<W>) -> io::Result<()> {
    let (totals, dumped) = report;
    let (made, cycles, receipts) = (totals.made, totals.finished, totals.claims);
    let size = fs::metadata(rt, FILE)?.len();
    let is_whole = dumped.end == Ok(Pumped::Done { bytes: size }) && dumped.watcher.bytes == size;
    println!(rt; "2 mutators made {made} objects, in a heap that holds 4096 nodes")?;
    println!(rt; "{cycles} cycles were marked and swept beside them")?;
    println!(rt; "a dump was written beside them, whole by file and meter: {is_whole}")?;
    println!(rt; "{receipts} receipts stand in the audit")
}

// Does so on a machine of one's own.
fn rewound(alloc: Global, config: Config) -> Result<u64, Refusal> {
    let mut machine = Machine::new(alloc, config)?;
    make_and_undo(&mut machine, alloc)
}

// Defines a class and makes three nodes on a machine, and undoes all but the class. Returns the place.
fn make_and_undo(machine: &mut Machine, alloc: Global) -> Result<u64, Refusal> {
    let node = node_class(alloc)?;
    machine.step(&node)?;
    let (m, class) = (0, NODE);
    for r in 0..3u64 {
        machine.step(&Event::New { m, r, class })?;
    }
    machine.rewind(3)
}
