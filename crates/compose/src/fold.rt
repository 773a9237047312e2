// A fold: parts that lie in boxes, and the boxes as the parts of a new figure.
ghost use Rattle.std.specs.Prelude.{◌≡◌, true, length, if◌then◌else◌, Ok, Err, MatchResult, nat_eq};
ghost use Rattle.measure.specs.Asked.{asked};
ghost use Rattle.compose.specs.Fold.{spread, verdict};
ghost use Rattle.compose.specs.lemmas.Folds.{fold_fair};

use crate::boxes::Boxes;
use measure::fault::{Refused, RowFault};
use measure::measure::Measure;
use measure::row::check_row;

// Where the table has not a box for each part, as no making leaves it, each part is its own box.
#[derive(Drop)]
pub struct Fold<M: Measure> {
    pub(crate) below: M,
    pub(crate) boxes: Boxes,
}

impl<M: Measure> Fold<M> {
    // Lays the parts of a measure into m boxes, by a table of the box of each.
    pub fn make(below: M, boxes: Vec<u8>, m: usize) -> Result<Fold<M>, Refused<(M, Vec<u8>)>>
        ensures cases { MatchResult result (λ f. (verdict (M.Measure.count below) boxes.items m ≡ Ok tt) × (f.below ≡ below) × (f.boxes.of ≡ boxes) × (f.boxes.count ≡ m)) (λ e. (verdict (M.Measure.count below) boxes.items m ≡ Err e.fault) × (e.given.0 ≡ below) × (e.given.1 ≡ boxes)) }
    {
        // matched, since a refusal takes with it what was given
        match Boxes::make(below.parts(), boxes, m) {
            Ok(boxes) => Ok(Fold { below, boxes }),
            Err(refused) => Err(Refused {
                fault: refused.fault,
                given: (below, refused.given),
            }),
        }
    }

    // Has each part a box?
    fn boxed(&self) -> bool
        ensures answer { result ≡ nat_eq (length self.now.boxes.of.items) (M.Measure.count self.now.below) }
    {
        self.boxes.of.len() == self.below.parts()
    }

    // What a row of the boxes costs: what all parts in the marked boxes cost.
    fn cost_spread(&self, row: &[u8]) -> Result<M::Cost, RowFault>
        requires boxed { length self.now.boxes.of.items ≡ M.Measure.count self.now.below }
        ensures answer { result ≡ asked self.now.boxes.count (λ marks. M.Measure.price self.now.below (spread self.now.boxes.of.items marks)) row.now }
    {
        check_row(self.boxes.count, row)?;
        let wide = self.boxes.spread(row);
        let n = self.boxes.of.len();
        self.below.cost(&wide[..n])
    }
}

impl<M: Measure> Measure for Fold<M> {
    type Cost = M::Cost;

    ghost count = { λ f. (if nat_eq (length f.boxes.of.items) (M.Measure.count f.below) then f.boxes.count else M.Measure.count f.below) };

    ghost price = { λ f row. M.Measure.price f.below (if nat_eq (length f.boxes.of.items) (M.Measure.count f.below) then spread f.boxes.of.items row else row) };

    ghost top = { λ f. M.Measure.top f.below };

    ghost fair = { λ f.
        let kind = M.Cost.CostKind in
        fold_fair kind.plus kind.le (M.Measure.count f.below) f.boxes.count f.boxes.of.items (λ row. kind.amount (M.Measure.price f.below row)) (kind.amount (M.Measure.top f.below)) f.boxes.fit (M.Measure.fair f.below) };

    fn parts(&self) -> usize {
        if self.boxed() {
            self.boxes.count
        } else {
            self.below.parts()
        }
    }

    fn ceiling(&self) -> M::Cost {
        self.below.ceiling()
    }

    fn cost(&self, row: &[u8]) -> Result<M::Cost, RowFault> {
        if self.boxed() {
            self.cost_spread(row)
        } else {
            self.below.cost(row)
        }
    }
}
