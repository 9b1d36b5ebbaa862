//! Seats in threads of their own, whose receipts agree with one history.
use super::scenes::{Actor, Scene, play_scene};
use super::shared::did;
use heap_class::Kind;
use heap_lock::{Action, Event, Heap, Kept, Receipt, Role, Seat, Shared, Verdict, audit};
use std::sync::Wait;
use std::test::*;
use std::thread;
use std::thread::Threads;

/// Acts by each of four seats, in a thread of its own. Returns whether their receipts agree with the history.
pub fn four_threads<L: Heap + Send + Sync, R: Threads + Wait + Sync>(
    rt: &R,
    shared: &Shared<L>,
    actors: &mut [Actor<L>],
) -> bool {
    thread::for_each_mut(rt, actors, 4, &|_, actor| acts_often(rt, shared, actor));
    are_right(&*shared.lock(rt), actors)
}

// Acts a thousand times by a seat, and adds to its claims each action that has an entry, if there is memory.
fn acts_often<L: Heap, R: Wait>(rt: &R, shared: &Shared<L>, actor: &mut Actor<L>) {
    let role = actor.seat.role();
    for i in 0..1000u64 {
        if let Some(receipt) = done(rt, shared, &mut actor.seat, drawn(role, i)) {
            let _ = actor.claims.push((drawn(role, i), receipt));
        }
    }
}

// Does an event or a rewind, if the seat may. Returns its receipt, or None if it has no entry.
fn done<L: Heap, R: Wait>(
    rt: &R,
    shared: &Shared<L>,
    seat: &mut Seat<L>,
    action: Action,
) -> Option<Receipt> {
    match action {
        Action::Step(event) => did(rt, shared, seat, event),
        Action::Rewind(n) if seat.role() == Role::User => shared.rewind(rt, seat, n).ok(),
        _ => None,
    }
}

// Creates the action of this number of a seat: of mutators and users one of eight, or each tenth time a user's rewind; of the
// marker one of four; of the sweeper one a region.
fn drawn(role: Role, i: u64) -> Action {
    match role {
        Role::Mutator(m) => Action::Step(event_of(m, i)),
        Role::User => {
            if i % 10 == 9 {
                Action::Rewind(2)
            } else {
                Action::Step(event_of(1, i))
            }
        }
        Role::Sweeper => Action::Step(Event::Sweep { region: i % 16 }),
        Role::Marker => match i % 4 {
            0 => Action::Step(Event::Snap),
            1 => Action::Step(Event::Mark),
            2 => Action::Step(Event::Drain),
            _ => Action::Step(Event::Finish),
        },
    }
}

// Creates an event of mutator m, another for each of eight numbers.
fn event_of(m: u64, i: u64) -> Event {
    match i % 8 {
        0 => Event::NewPrim {
            m,
            r: 0,
            kind: Kind::Long,
            len: 3,
        },
        1 | 5 => Event::Put {
            m,
            target: 0,
            slot: 1,
            value: i,
        },
        2 => Event::Load {
            m,
            to: 1,
            from: 0,
            slot: 1,
        },
        3 => Event::Move {
            m,
            to: 2,
            from_m: m,
            from: 0,
        },
        n => Event::Clear {
            m,
            r: n.saturating_sub(4),
        },
    }
}

// Returns whether each of four seats has a thousand claims, all of which hold, and nobody else acted.
fn are_right<L: Heap>(kept: &Kept<L>, actors: &[Actor<L>]) -> bool {
    for actor in actors {
        let claims = actor.claims.as_slice();
        if claims.len() != 1000 || audit(kept, claims) != Verdict::Holds {
            return false;
        }
    }
    kept.chronicle().len() == 4000
}

#[test]
fn four_seats_one_history(rt: HostRuntime) -> Result<(), Fail> {
    assert!(rt; play_scene(&rt, rt.alloc(), Scene::FourThreads));
    Ok(())
}
