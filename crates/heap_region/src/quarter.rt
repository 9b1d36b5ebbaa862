//! How many turns something was given, modulo 4: four turns change nothing.
ghost use Rattle.std.specs.Prelude.{◌≡◌};
ghost use Rattle.heap_region.specs.Quarters.{is_zero, next_quarter, prior_quarter, since};

// A number of turns, modulo 4.
#[derive(Clone, Copy)]
pub(crate) enum Quarter {
    Zero,
    One,
    Two,
    Three,
}

impl Quarter {
    // Returns this number and one.
    pub(crate) fn next(self) -> Quarter
        ensures { result ≡ next_quarter self }
    {
        match self {
            Quarter::Zero => Quarter::One,
            Quarter::One => Quarter::Two,
            Quarter::Two => Quarter::Three,
            Quarter::Three => Quarter::Zero,
        }
    }

    // Returns this number less one.
    pub(crate) fn prior(self) -> Quarter
        ensures { result ≡ prior_quarter self }
    {
        match self {
            Quarter::Zero => Quarter::Three,
            Quarter::One => Quarter::Zero,
            Quarter::Two => Quarter::One,
            Quarter::Three => Quarter::Two,
        }
    }

    // Tells whether this is the other number.
    #[inline(always)]
    pub(crate) fn is(self, other: Quarter) -> bool
        ensures { result ≡ is_zero (since self other) }
    {
        self as u8 == other as u8
    }

    // Returns the turns that lead from the other number to this one. It is never inlined, since mostly there are none.
    #[inline(never)]
    pub(crate) fn since(self, other: Quarter) -> Quarter
        ensures { result ≡ since self other }
    {
        match other {
            Quarter::Zero => self,
            Quarter::One => self.prior(),
            Quarter::Two => self.next().next(),
            Quarter::Three => self.next(),
        }
    }
}
