//! The worker that sweeps only regions that wait.
ghost use Rattle.std.specs.Prelude.{◌≡◌};
ghost use Rattle.heap_lock.specs.declared.role.Role.TheVariants.{Sweeper};
ghost use Rattle.heap_work.specs.Rule.{SweepStops};
ghost use Rattle.heap_work.specs.Gates.{SweepAsks};
ghost use Rattle.heap_work.specs.PendingSweeps.{IsPendingWork};

use crate::{Gate, SweepEnd};
use heap_lock::{Event, Heap, Seat, Shared, Witness};
use std::sync::Wait;

/// Asks for a sweep of the lowest region that waits, again and again until none waits, in at most `turns` acts. Looks before each
/// act, under the lock and without an entry, and shows the witness all calls until then. Then it passes the gate, without the
/// lock, and ends if that lets the act not begin. A region that others sweep meanwhile is asked for in vain. May wait.
pub fn pending_worker<L: Heap, R: Wait, G: Gate>(
    shared: &Shared<L>,
    rt: &R,
    seat: &mut Seat<L>,
    witness: &mut Witness<L>,
    gate: &mut G,
    turns: u64,
) -> SweepEnd
    requires { seat.old.role ≡ Sweeper }
    ensures work { IsPendingWork L.config seat.old witness.old seat.new witness.new turns result }
    ensures stops { SweepStops G.says seat.old seat.new gate.new result }
    ensures asks { SweepAsks G.says gate.old seat.old seat.new gate.new result }
{
    for turn in 0..turns {
        let Some(region) = shared.pending(rt, witness) else {
            return SweepEnd::Swept;
        };
        if !gate.pass(turn + 1) {
            return SweepEnd::Stopped;
        }
        if let Err(refusal) = shared.act(rt, seat, Event::Sweep { region }) {
            return SweepEnd::Refused(refusal);
        }
    }
    SweepEnd::TurnsOver
}
