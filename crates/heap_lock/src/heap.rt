//! The heap under its lock, and the seats.
ghost use Rattle.std.specs.Prelude.{◌≡◌, true, false, length, IfOk, IfErr, OnErr};
ghost use Rattle.heap_trail.specs.declared.Action.TheVariants.{Step, Rewind};
ghost use Rattle.heap_trail.specs.Machine.{is_dump_action};
ghost use Rattle.heap_lock.specs.declared.role.Role.TheVariants.{User};
ghost use Rattle.heap_lock.specs.SeatEntries.{entries_in};
ghost use Rattle.heap_history.specs.History.{opening, entries_by, IsLegalHistory};
ghost use Rattle.heap_lock.specs.Blanks.{seat_model_of};
ghost use Rattle.heap_lock.specs.Roles.{may};
ghost use Rattle.heap_lock.specs.Ledgers.{all_in, HasLedger};
ghost use Rattle.heap_lock.specs.LockStates.{AllSeated, Folds, Stands, IsMoved, IsAct, IsHeldAct, IsReceived, IsRefused, IsNoEntry, IsHeap, IsSharedAct, IsSeatModel, IsUnderLock, lock_state};

use crate::ledger::Ledger;
use crate::role::{Role, may_for, owner_of};
use crate::seat_table::SeatTable;
use crate::table_side::TableSide;
use crate::unnamed_seat::UnnamedSeat;
use atomic_table::Badge;
use heap_class::Refusal;
use heap_history::{Chronicle, Entry, Receipt};
use heap_step::Event;
use heap_trail::{Action, Machine};
use heap_world::Config;
use std::marker::{Brand, Model, PhantomData};
use std::mem::replace;
use std::snapshot::Snapshot;
use std::sync::{Mutex, MutexGuard, Wait};

/// Which heap it is: what it was made with, whether its chronicle rolls, the table of each seat's entries, and that of the ledger.
pub trait Heap {
    ghost use Rattle.std.specs.Prelude.{Bool, List};
    ghost use Rattle.atomic_table.specs.Seated.{TableId};
    ghost use Rattle.heap_world.specs.Limits.{HeapSettings};

    ghost config: { HeapSettings };

    ghost rolls: { Bool };

    ghost tables: { List TableId };

    ghost ledger: { TableId };
}

impl Heap for Brand {
    ghost use Rattle.std.specs.Prelude.{false, []};
    ghost use Rattle.heap_class.specs.declared.IdSize.TheVariants.{Eight};
    ghost use Rattle.heap_world.specs.Limits.{narrow_limits};
    ghost use Rattle.heap_lock.specs.LockStates.{no_table};

    ghost config = { record {
      regions = 1;
      mutators = 1;
      keep = 1;
      ids = Eight;
      limits = narrow_limits;
    } };

    ghost rolls = { false };

    ghost tables = { [] };

    ghost ledger = { no_table };
}

/// The right of one caller to act. Contracts see its number, its role and its share of the chronicle.
#[derive(Drop)]
pub struct Seat<L: Heap> {
    number: u64,
    role: Role,
    share: Badge<TableSide>,
    heap: PhantomData<L>,
}

impl<L: Heap> Model for Seat<L> {
    ghost use Rattle.heap_lock.specs.SeatEntries.{entries_in};
    ghost use Rattle.heap_lock.specs.LockStates.{SeatModel, IsSeatModel};

    ghost Value = { SeatModel };

    ghost view = { λ s.
        record { number = s.number; role = s.role; share = entries_in s.share.views } };

    ghost invariant = { λ s. IsSeatModel L.tables s.number s.share };
}

/// What lies under the lock. Contracts see the machine, the chronicle and the ledger.
#[derive(Drop)]
pub struct Kept<L: Heap> {
    pub(crate) machine: Machine,
    chronicle: Chronicle,
    seat_tables: Vec<SeatTable>,
    pub(crate) ledger: Ledger,
    heap: PhantomData<L>,
}

impl<L: Heap> Model for Kept<L> {
    ghost use Rattle.std.specs.Prelude.{◌≡◌};
    ghost use Rattle.heap_lock.specs.LockStates.{LockState, IsUnderLock, lock_state};
    ghost use Rattle.heap_lock.specs.Ledgers.{all_in, HasLedger};

    ghost Value = { LockState };

    ghost view = { λ k.
        lock_state k.machine k.chronicle (all_in k.ledger) };

    ghost invariant = { λ k. IsUnderLock L.config L.tables k.machine k.chronicle.entries
        k.seat_tables.items × HasLedger L.config L.ledger k.machine k.chronicle.entries k.ledger
        × (k.chronicle.rolls ≡ L.rolls) };
}

impl<L: Heap> Seat<L> {
    // Makes a seat of its parts.
    pub(crate) fn of(number: u64, role: Role, share: Badge<TableSide>) -> Seat<L>
        requires { IsSeatModel L.tables number share }
        ensures { result ≡ record { number = number; role = role; share = entries_in share.views } }
    {
        Seat {
            number,
            role,
            share,
            heap: PhantomData,
        }
    }

    /// Returns whether this seat may ask for the event: a mutator for its own from New to Clear, the marker for Snap, Mark,
    /// Drain and Finish, the sweeper for Sweep, a user for all.
    pub fn may(&self, event: &Event) -> bool
        ensures { result ≡ may self.now.role event.now }
    {
        may_for(self.role, owner_of(event))
    }

    /// Returns the role of this seat.
    pub fn role(&self) -> Role
        ensures { result ≡ self.now.role }
    {
        self.role
    }

    /// Gives this seat up, and returns what it is made of, of a type that names no heap. It is one of the seats of the heap with
    /// these tables.
    pub fn into_unnamed(self) -> UnnamedSeat
        ensures seat_model { seat_model_of result ≡ self }
        ensures seat { IsSeatModel L.tables result.number result.share }
    {
        UnnamedSeat {
            number: self.number,
            role: self.role,
            share: self.share,
        }
    }
}

impl<L: Heap> Kept<L> {
    // Makes what the lock keeps of its parts.
    pub(crate) fn of(
        machine: Machine,
        chronicle: Chronicle,
        seat_tables: Vec<SeatTable>,
        ledger: Ledger,
    ) -> Kept<L>
        requires kept { IsUnderLock L.config L.tables machine chronicle.entries seat_tables.items }
        requires ledger { HasLedger L.config L.ledger machine chronicle.entries ledger }
        requires rolls { chronicle.rolls ≡ L.rolls }
        ensures { result ≡ lock_state machine chronicle (all_in ledger) }
    {
        Kept {
            machine,
            chronicle,
            seat_tables,
            ledger,
            heap: PhantomData,
        }
    }

    /// Returns what was done. It is a legal history of the heap's seats, and the machine's trail is what it leaves. The machine's
    /// ids have the size that the heap was made with.
    pub fn chronicle(&self) -> &Chronicle
        ensures entries { result.now.entries ≡ self.now.chronicle }
        ensures rolls { (result.now.rolls ≡ L.rolls) × (self.now.rolls ≡ L.rolls) }
        ensures legal { IsLegalHistory L.config.keep (opening L.config) self.now.chronicle }
        ensures seated { AllSeated (length L.tables) self.now.chronicle }
        ensures folds { Folds L.config self.now }
        ensures ids { self.now.machine.ids ≡ L.config.ids }
    {
        &self.chronicle
    }

    /// Returns the machine.
    pub fn machine(&self) -> &Machine
        ensures { result.now ≡ self.now.machine }
    {
        &self.machine
    }

    /// Compares the chronicle with a seat, whose share is just what the chronicle has of it. Changes nothing. Takes no memory.
    pub fn agree(&mut self, seat: &mut Seat<L>)
        ensures share { entries_by seat.old.number self.old.chronicle ≡ seat.old.share }
        ensures same { self.new ≡ self.old }
        ensures seat { seat.new ≡ seat.old }
    {
        let seat_table = &mut self.seat_tables[seat.number as usize];
        let share = replace(&mut seat.share, Badge::blank());
        seat.share = seat_table.agree(share);
    }

    // Does nothing. Its contract says that what lies under the lock is what the calls so far leave.
    fn is_heap(&self)
        ensures { IsHeap L.config L.rolls self.now }
    {
        let _ = &self.machine;
    }

    // Does the action, and adds its entry to the chronicle and to both copies, and the call to the ledger.
    fn do_held(&mut self, seat: &mut Seat<L>, action: Action) -> Result<Receipt, Refusal>
        requires { is_dump_action action ≡ false }
        ensures moves { IfOk result (λ r. IsMoved L.config action self.old r self.new) }
        ensures act { IfOk result (λ r. IsAct action self.old seat.old r self.new seat.new) }
        ensures stands { IfOk result (λ r. Stands L.config seat.new r.turn action r.answer) }
        ensures share { IfOk result
            (λ _. entries_by seat.old.number self.old.chronicle ≡ seat.old.share) }
        ensures refused { IfErr result (λ e. IsRefused self.old e) }
        ensures unchanged { OnErr result ((self.new ≡ self.old) × (seat.new ≡ seat.old)) }
    {
        let Kept {
            machine,
            chronicle,
            seat_tables,
            ledger,
            heap: _,
        } = self;
        let number = seat.number;
        let (answer, entry) = chronicle.act(machine, number, action)?;
        let turn = chronicle.len() as u64;
        let seat_table = &mut seat_tables[number as usize];
        let share = replace(&mut seat.share, Badge::blank());
        seat.share = seat_table.add_entry(share, turn, &entry);
        ledger.note::<Brand, Snapshot<Entry>, ()>(&entry, &());
        Ok(Receipt {
            seat: number,
            turn,
            answer,
        })
    }

    // Does the action as `do_held` does, for a caller that knows nothing yet of what lies under the lock.
    fn do_shared(&mut self, seat: &mut Seat<L>, action: Action) -> Result<Receipt, Refusal>
        requires { is_dump_action action ≡ false }
        ensures act { IsSharedAct L.config L.rolls action seat.old result seat.new }
        ensures receipt { IfOk result (λ r. IsReceived action seat.old r seat.new) }
        ensures stands { IfOk result (λ r. Stands L.config seat.new r.turn action r.answer) }
        ensures refused { IfErr result (λ e. (seat.new ≡ seat.old) × IsNoEntry e) }
    {
        self.is_heap();
        match self.do_held(seat, action) {
            Ok(receipt) => Ok(receipt),
            Err(refusal) => {
                self.agree(seat);
                Err(refusal)
            }
        }
    }

    /// Does an event for one who holds the lock. The chronicle and the seat's share gain the entry with the answer that
    /// the model gives at that point; a refused event is an entry too. Fails with ChronicleFull if the chronicle
    /// takes no more entries, and with NoMemory; then nothing has changed.
    pub fn act_held(&mut self, seat: &mut Seat<L>, event: Event) -> Result<Receipt, Refusal>
        requires { may seat.old.role event ≡ true }
        ensures { IsHeldAct L.config (Step event) self.old seat.old result self.new seat.new }
    {
        self.do_held(seat, Action::Step(event))
    }

    /// Undoes the last `n` steps for one who holds the lock. Has its entry and fails as `act_held` does.
    pub fn rewind_held(&mut self, seat: &mut Seat<L>, n: u64) -> Result<Receipt, Refusal>
        requires { seat.old.role ≡ User }
        ensures { IsHeldAct L.config (Rewind n) self.old seat.old result self.new seat.new }
    {
        self.do_held(seat, Action::Rewind(n))
    }
}

/// The heap and its lock.
#[derive(Drop)]
pub struct Shared<L: Heap> {
    config: Config,
    pub(crate) kept: Mutex<Kept<L>>,
    ghost config_is: { config ≡ L.config },
}

impl<L: Heap> Shared<L> {
    // Makes the heap that its users share of what the lock keeps.
    pub(crate) fn of(config: Config, kept: Kept<L>) -> Shared<L>
        requires { config ≡ L.config }
    {
        Shared {
            config,
            kept: Mutex::new(kept),
        }
    }

    /// Returns what the heap was made with.
    pub fn config(&self) -> Config
        ensures { result ≡ L.config }
    {
        self.config
    }

    /// Takes the lock, and returns a guard of what lies under it. May wait.
    pub fn lock<R: Wait>(&self, rt: &R) -> MutexGuard<'_, Kept<L>> {
        self.kept.lock(rt)
    }

    /// Does an event under the lock as `Kept::act_held` does, and returns its receipt: the heap has then a history of which the
    /// seat has just its share. Fails with ChronicleFull exactly if that history is full, and with NoMemory; then nothing has
    /// changed. Any other refusal is the answer of the receipt. May wait.
    pub fn act<R: Wait>(&self, rt: &R, seat: &mut Seat<L>, event: Event) -> Result<Receipt, Refusal>
        requires { may seat.old.role event ≡ true }
        ensures act { IsSharedAct L.config L.rolls (Step event) seat.old result seat.new }
        ensures receipt { IfOk result (λ r. IsReceived (Step event) seat.old r seat.new) }
        ensures stands { IfOk result (λ r. Stands L.config seat.new r.turn (Step event) r.answer) }
        ensures refused { IfErr result (λ e. (seat.new ≡ seat.old) × IsNoEntry e) }
    {
        self.kept.lock(rt).do_shared(seat, Action::Step(event))
    }

    /// Undoes the last `n` steps under the lock. Has its receipt and fails as `act` does. May wait.
    pub fn rewind<R: Wait>(&self, rt: &R, seat: &mut Seat<L>, n: u64) -> Result<Receipt, Refusal>
        requires { seat.old.role ≡ User }
        ensures act { IsSharedAct L.config L.rolls (Rewind n) seat.old result seat.new }
        ensures receipt { IfOk result (λ r. IsReceived (Rewind n) seat.old r seat.new) }
        ensures stands { IfOk result (λ r. Stands L.config seat.new r.turn (Rewind n) r.answer) }
        ensures refused { IfErr result (λ e. (seat.new ≡ seat.old) × IsNoEntry e) }
    {
        self.kept.lock(rt).do_shared(seat, Action::Rewind(n))
    }
}
