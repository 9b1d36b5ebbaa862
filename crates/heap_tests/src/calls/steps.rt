//! Steps of a heap without a past, and the weights of their records.
use crate::scripts::{new, point, put_x};
use heap_class::Refusal;
use heap_lock::{Answer, Config, Event};
use heap_step::{apply, weight};
use heap_world::World;
use std::alloc::Global;
use std::test::Fail;

#[test]
fn steps_leave_records_of_their_weight(rt: HostRuntime) -> Result<(), Fail> {
    assert!(rt; new_steps_go(rt.alloc()));
    Ok(())
}

// Does so with a new heap of one region.
fn new_steps_go(alloc: Global) -> bool {
    let Some(config) = Config::new(1, 1, 1) else {
        return false;
    };
    let Ok(class) = point(alloc) else {
        return false;
    };
    match World::new(alloc, config) {
        Ok(mut world) => steps_go(&mut world, class),
        Err(_) => false,
    }
}

// Makes two points and removes both, one in each cycle. A write keeps one word; the first sweep keeps an entry and two words, and
// the second the region, which has 1,024 words and 256 cells. Returns whether all goes as it must.
fn steps_go(world: &mut World, class: Event) -> bool {
    takes(world, class, Answer::Class(0), 0)
        && takes(world, new(0), Answer::Object(0x1000_0000), 0)
        && takes(world, put_x(7), Answer::Done, 1)
        && takes(world, new(1), Answer::Object(0x1000_0020), 0)
        && cycles(world, 1, 1)
        && sweeps(world, false, 3)
        && cycles(world, 0, 0)
        && sweeps(world, true, 1280)
        && is_refused(world, Event::Mark, Refusal::NotMarking)
}

// Takes a step. Returns whether it has this answer, and its record this weight.
fn takes(world: &mut World, event: Event, answer: Answer, heavy: u64) -> bool {
    match apply(world, &event) {
        Ok((told, left)) => told == answer && weight(&left) == heavy,
        Err(_) => false,
    }
}

// Makes the register `r` null, and runs a cycle. Returns whether that pushed and marked `pushed` objects, and condemned one.
fn cycles(world: &mut World, r: u64, pushed: u64) -> bool {
    takes(world, Event::Clear { m: 0, r }, Answer::Done, 0)
        && takes(world, Event::Snap, Answer::Pushed(pushed), 0)
        && (pushed == 0 || takes(world, Event::Mark, Answer::Pushed(0), 0))
        && takes(world, Event::Finish, Answer::Condemned(1), 0)
}

// Sweeps the first region. Returns whether that removed one object and left none if `emptied`, and its record has this weight.
fn sweeps(world: &mut World, emptied: bool, heavy: u64) -> bool {
    let answer = Answer::Swept { emptied, dead: 1 };
    takes(world, Event::Sweep { region: 0 }, answer, heavy)
}

// Returns whether a step is refused with this.
fn is_refused(world: &mut World, event: Event, refusal: Refusal) -> bool {
    matches!(apply(world, &event), Err(told) if told == refusal)
}
