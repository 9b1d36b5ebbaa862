//! Tables of one word, each with the seat that stays with it. A seat's side, which is what it knows (its view, in the words of
//! atomic_table), is cut in two, and two sides are made one.
ghost use Rattle.std.specs.Prelude.{◌≡◌, [], ◌∷◌, IfOk};
ghost use Rattle.heap_lock.specs.HomeTables.{IsSeatOf, table_of};

use atomic_table::{Join, Seat, Split, Table, TableRule};
use std::alloc::{AllocError, Global};
use std::marker::PhantomData;

/// The sides of a table.
pub trait Side {
    ghost use Rattle.std.specs.Prelude.{List};

    // What holds of all sides.
    ghost holds: { List Self → Type 0 };

    // The side of the first seat.
    ghost first: { Self };

    // A side that is cut in two: what its seat keeps, and what the new one has.
    ghost left: { Self → Self };

    ghost right: { Self → Self };

    // Two sides made one, and what the second seat is left with.
    ghost both: { Self → Self → Self };

    ghost spent: { Self };
}

/// The rule of a table, with the cut of its sides and their join.
pub struct SideRule<V: Side> {
    of: PhantomData<V>,
}

impl<V: Side> TableRule<(), V, ()> for SideRule<V> {
    ghost holds = { λ _ s. V.holds s.views };

    ghost first = { λ _. V.first };
}

impl<V: Side> Split<V> for SideRule<V> {
    ghost left = { V.left };

    ghost right = { V.right };
}

impl<V: Side> Join<V> for SideRule<V> {
    ghost both = { V.both };

    ghost spent = { V.spent };
}

/// The step that adds what `E` says.
pub struct AddsEntry<E> {
    of: PhantomData<E>,
}

/// A table of one word, with its first seat.
#[derive(Drop)]
pub struct HomeTable<V: Side> {
    pub table: Table<(), V, (), SideRule<V>, Global>,
    pub own: Seat<(), V>,
}

impl<V: Side> HomeTable<V> {
    // Creates a table at which nothing was done.
    pub(crate) fn new(alloc: Global) -> Result<HomeTable<V>, AllocError>
        requires { V.holds (V.first ∷ []) }
        ensures words { IfOk result (λ t. (table_of t).words ≡ 1) }
        ensures own { IfOk result (λ t. IsSeatOf (table_of t) V.first t.own) }
    {
        let (table, own) = Table::of_words(alloc, &[0], &())?;
        Ok(HomeTable { table, own })
    }
}
