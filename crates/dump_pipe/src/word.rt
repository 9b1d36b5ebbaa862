//! A word of a meter, lent.
ghost use Rattle.std.specs.Prelude.{◌≡◌};

use crate::meter_side::MeterSide;
use crate::rule::Counts;
use atomic_table::Shared;
use std::marker::{Model, PhantomData};

/// One of the two words of a meter, of which `W` says which. Contracts see the meter.
#[derive(Drop)]
pub struct Word<'a, W> {
    pub(crate) table: &'a Shared<(), MeterSide, (), Counts>,
    which: PhantomData<W>,
}

impl<'a, W> Model for Word<'a, W> {
    ghost use Rattle.std.specs.Prelude.{◌≡◌};
    ghost use Rattle.atomic_table.specs.Seated.{TableId, table_id_coded};

    ghost Value = { TableId };

    ghost coded = { table_id_coded };

    ghost view = { λ w. w.table.now.table_id };

    ghost invariant = { λ w. w.table.now.table_id.words ≡ 2 };
}

impl<'a, W> Word<'a, W> {
    // Lends a word of the meter with this table.
    pub(crate) fn of(table: &'a Shared<(), MeterSide, (), Counts>) -> Word<'a, W>
        requires { table.now.table_id.words ≡ 2 }
        ensures { result ≡ table.now.table_id }
    {
        Word {
            table,
            which: PhantomData,
        }
    }
}
