//! A mutator: it builds a list and a map of nodes and drops both, round after round.
use crate::{MAP, NODE, ROUNDS};
use heap_runtime::{Actor, Denial, Heap, Pace};
use std::sync::Wait;

// The number of nodes in a list, and of keys in a map.
const NODES: u64 = 150;

const KEYS: u64 = 49;

/// Builds and drops in rounds, at the pace of the collector, so that the heap has room. Returns None if something is refused.
pub fn mutate<L: Heap, R: Wait>(pace: &Pace, mutator: &mut Actor<'_, L, R>) -> Option<()> {
    for round in 0..ROUNDS {
        pace.begin_round(round)?;
        build_and_drop(mutator).ok()?;
        pace.end_round();
    }
    Some(())
}

// Builds list and map, and drops both.
fn build_and_drop<L: Heap, R: Wait>(mutator: &mut Actor<'_, L, R>) -> Result<(), Denial> {
    build_list(mutator)?;
    build_map(mutator)?;
    for r in 0..4u64 {
        mutator.clear(r)?;
    }
    Ok(())
}

// Builds a list in registers 0 and 1, each node linked to the one before it.
fn build_list<L: Heap, R: Wait>(mutator: &mut Actor<'_, L, R>) -> Result<(), Denial> {
    for i in 0..NODES {
        mutator.make(i % 2, NODE)?;
        mutator.store(i % 2, 0, 1 - i % 2)?;
    }
    Ok(())
}

// Builds a map in register 2, and its nodes in register 3.
fn build_map<L: Heap, R: Wait>(mutator: &mut Actor<'_, L, R>) -> Result<(), Denial> {
    mutator.make_array(2, MAP, KEYS)?;
    for key in 0..KEYS {
        mutator.make(3, NODE)?;
        mutator.store(2, key, 3)?;
    }
    Ok(())
}
