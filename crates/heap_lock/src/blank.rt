//! A heap before it is opened.
ghost use Rattle.std.specs.Prelude.{◌≡◌, ◌∷◌, ◌≤◌, [], false, map, length, IfOk, IfErr, IfSome, IfNone};
ghost use Rattle.heap_class.specs.declared.Refusal.TheVariants.{NoMemory};
ghost use Rattle.heap_lock.specs.Limits.{seat_limit};
ghost use Rattle.heap_lock.specs.Blanks.{seat_models, seat_model_of, tables_of, AllFresh, AllUnnamed, IsNamed};

use crate::heap::{Heap, Kept, Seat, Shared};
use crate::ledger::Ledger;
use crate::role::Role;
use crate::seat_table::SeatTable;
use crate::unnamed_seat::UnnamedSeat;
use heap_class::Refusal;
use heap_history::Chronicle;
use heap_trail::Machine;
use heap_world::Config;
use std::alloc::{AllocError, Global};
use std::collections::VecDeque;
use std::marker::{Model, PhantomData};

/// A heap that no type names yet. Contracts see its settings, the tables of its shares and its ledger, and its seats.
#[derive(Drop)]
pub struct Blank {
    config: Config,
    machine: Machine,
    seat_tables: Vec<SeatTable>,
    unnamed_seats: Vec<UnnamedSeat>,
    ledger: Ledger,
    rolls: bool,
    alloc: Global,
}

impl Model for Blank {
    ghost use Rattle.heap_lock.specs.Blanks.{Maker, maker_of, IsBlank};

    ghost Value = { Maker };

    ghost view = { λ b.
        maker_of b.config b.rolls b.seat_tables.items b.ledger b.unnamed_seats.items };

    ghost invariant = { λ b.
        IsBlank b.config b.machine b.seat_tables.items b.unnamed_seats.items b.ledger };
}

/// The seats that nobody has taken yet, the next one first.
#[derive(Drop)]
pub struct Seats<L: Heap> {
    unnamed_seats: VecDeque<UnnamedSeat>,
    heap: PhantomData<L>,
}

impl<L: Heap> Model for Seats<L> {
    ghost use Rattle.std.specs.Prelude.{List, map};
    ghost use Rattle.heap_lock.specs.LockStates.{SeatModel};
    ghost use Rattle.heap_lock.specs.Blanks.{seat_model_of, AllUnnamed};

    ghost Value = { List SeatModel };

    ghost view = { λ s. map seat_model_of s.unnamed_seats.items };

    ghost invariant = { λ s. AllUnnamed L.tables s.unnamed_seats.items };
}

impl<L: Heap> Seats<L> {
    /// Returns the next seat, or None if all are taken. Takes no memory.
    pub fn take(&mut self) -> Option<Seat<L>>
        ensures some { IfSome result (λ s. self.old ≡ s ∷ self.new) }
        ensures none { IfNone result (self.old ≡ []) }
    {
        let UnnamedSeat {
            number,
            role,
            share,
        } = self.unnamed_seats.pop_front()?;
        Some(Seat::of(number, role, share))
    }

    /// Returns the number of seats.
    pub fn count(&self) -> usize
        ensures { result ≡ length self.now }
    {
        self.unnamed_seats.len()
    }
}

// Creates a table and a seat for each role.
fn make_seats(
    alloc: Global,
    roles: &[Role],
) -> Result<(Vec<SeatTable>, Vec<UnnamedSeat>), AllocError>
    requires { length roles.now ≤ seat_limit }
    ensures seats { IfOk result (λ p. map seat_model_of p.1.items ≡ seat_models 0 roles.now) }
    ensures seat_tables { IfOk result (λ p. AllFresh p.0.items) }
    ensures count { IfOk result (λ p. length (tables_of p.0.items) ≡ length roles.now) }
    ensures unnamed_seats { IfOk result (λ p. AllUnnamed (tables_of p.0.items) p.1.items) }
{
    let mut seat_tables = Vec::new(alloc);
    let mut unnamed_seats = Vec::new(alloc);
    for i in 0..roles.len() {
        let mut seat_table = SeatTable::new(alloc)?;
        let share = seat_table.open();
        seat_tables.push(seat_table)?;
        unnamed_seats.push(UnnamedSeat {
            number: i as u64,
            role: roles[i],
            share,
        })?;
    }
    Ok((seat_tables, unnamed_seats))
}

impl Blank {
    /// Creates a heap of these settings with a seat for each of 1 to 1,024 roles, in order. Fails with NoMemory.
    pub fn new(alloc: Global, config: Config, roles: &[Role]) -> Result<Blank, Refusal>
        requires { (1 ≤ length roles.now) × (length roles.now ≤ seat_limit) }
        ensures settings { IfOk result (λ b. b.config ≡ config) }
        ensures rolls { IfOk result (λ b. b.rolls ≡ false) }
        ensures seats { IfOk result (λ b. b.seats ≡ seat_models 0 roles.now) }
        ensures tables { IfOk result (λ b. length b.tables ≡ length roles.now) }
        ensures refused { IfErr result (λ e. e ≡ NoMemory) }
    {
        let Ok((seat_tables, unnamed_seats)) = make_seats(alloc, roles) else {
            return Err(Refusal::NoMemory);
        };
        let Ok(ledger) = Ledger::new(alloc) else {
            return Err(Refusal::NoMemory);
        };
        let machine = Machine::new(alloc, config)?;
        Ok(Blank {
            config,
            machine,
            seat_tables,
            unnamed_seats,
            ledger,
            rolls: false,
            alloc,
        })
    }

    /// Sets whether the chronicle, once 1,000,000 entries are kept, drops the oldest ones instead of refusing new ones. It
    /// refuses new ones if this isn't called. Takes no memory.
    pub fn set_rolls(&mut self, rolls: bool)
        ensures { self.new ≡ record self.old { rolls = rolls } }
    {
        self.rolls = rolls;
    }

    /// Returns the heap under its lock, and its seats in order. Takes no memory.
    pub fn open<L: Heap>(self) -> (Shared<L>, Seats<L>)
        requires { IsNamed L.config L.tables L.ledger L.rolls self }
        ensures { result.1 ≡ self.seats }
    {
        let Blank {
            config,
            machine,
            seat_tables,
            unnamed_seats,
            ledger,
            rolls,
            alloc,
        } = self;
        let kept = Kept::of(machine, Chronicle::new(alloc, rolls), seat_tables, ledger);
        let unnamed_seats = VecDeque::from_vec(unnamed_seats);
        (
            Shared::of(config, kept),
            Seats {
                unnamed_seats,
                heap: PhantomData,
            },
        )
    }
}
