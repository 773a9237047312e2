// Whole costs: 0 to 99,999,999,999.
ghost use Rattle.std.specs.Prelude.{◌≡◌, ℕ, ◌+◌, nat_le, Some, decimal};
ghost use Rattle.cost.specs.Amounts.{capped, whole_amount};
ghost use Rattle.std.proofs.Common.{rules};

use crate::kind::CostKind;
use std::fmt;

// The highest whole cost.
pub const HIGHEST: u64 = 99_999_999_999;

// A record of more than the highest cost counts as the highest.
#[derive(Clone, Copy)]
pub struct Whole {
    pub value: u64,
}

impl Whole {
    // The number that this record counts as.
    pub fn counted(self) -> u64
        ensures answer { result ≡ whole_amount self }
    {
        self.value.min(HIGHEST)
    }
}

// Printed, it is the number that it counts as.
impl fmt::Display for Whole {
    ghost output = { λ w. Some (decimal (whole_amount w)) };

    fn fmt<W: fmt::Write>(&self, f: &mut fmt::Formatter<W>) -> fmt::Result {
        let amount = self.counted();
        write!(f, "{amount}")
    }
}

impl CostKind for Whole {
    ghost amounts = { ℕ };

    ghost amount = { whole_amount };

    ghost plus = { ◌+◌ };

    ghost le = { nat_le };

    ghost lawful = { Prim.search rules };

    fn at_most(self, b: Whole) -> bool {
        self.counted() <= b.counted()
    }

    fn sum_at_most(self, b: Whole, c: Whole, d: Whole) -> bool {
        self.counted() + b.counted() <= c.counted() + d.counted()
    }
}
