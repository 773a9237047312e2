// Pairs of whole costs: added part by part, ordered by the first number and then by the second.
ghost use Rattle.std.specs.Prelude.{◌≡◌};
ghost use Rattle.cost.specs.Amounts.{Amounts, pair_amount, pair_le, pair_plus};
ghost use Rattle.std.proofs.Common.{rules};

use crate::kind::CostKind;
use crate::whole::Whole;

#[derive(Clone, Copy)]
pub struct Pair {
    pub first: Whole,
    pub second: Whole,
}

impl CostKind for Pair {
    ghost amounts = { Amounts };

    ghost amount = { pair_amount };

    ghost plus = { pair_plus };

    ghost le = { pair_le };

    ghost lawful = { Prim.search rules };

    // The second numbers are looked at only where the first are equal: tuples compared as wholes take up to three times as long.
    fn at_most(self, b: Pair) -> bool {
        let first = self.first.counted();
        let other = b.first.counted();
        first < other || first == other && self.second.counted() <= b.second.counted()
    }

    fn sum_at_most(self, b: Pair, c: Pair, d: Pair) -> bool {
        let left = self.first.counted() + b.first.counted();
        let right = c.first.counted() + d.first.counted();
        left < right
            || left == right
                && self.second.counted() + b.second.counted()
                    <= c.second.counted() + d.second.counted()
    }
}
