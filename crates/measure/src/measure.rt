// What a measure is: a cost for every side of a figure, with its laws.
ghost use Rattle.std.specs.Prelude.{◌≡◌, ℕ, List};
ghost use Rattle.measure.specs.Asked.{asked};
ghost use Rattle.measure.specs.Laws.{MeasureLaws};

use crate::fault::RowFault;
use cost::kind::CostKind;

// A side is given by its mark row: one byte for each part, 1 for a part on the side and 0 for any other.
pub trait Measure {
    type Cost: CostKind;

    // how many parts the figure has
    ghost count: { Self → ℕ };

    // the cost of a row of as many marks
    ghost price: { Self → List ℕ → Self.Cost };

    // the ceiling
    ghost top: { Self → Self.Cost };

    fn parts(&self) -> usize
        ensures answer { result ≡ count self.now };

    fn ceiling(&self) -> Self::Cost
        ensures answer { result ≡ top self.now };

    fn cost(&self, row: &[u8]) -> Result<Self::Cost, RowFault>
        ensures answer { result ≡ asked (count self.now) (price self.now) row.now };

    ghost fair: { (m : Self) → MeasureLaws Self.Cost.CostKind.plus Self.Cost.CostKind.le (count m) (λ row. Self.Cost.CostKind.amount (price m row)) (Self.Cost.CostKind.amount (top m)) };
}
