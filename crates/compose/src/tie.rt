// A tie: two measures, the second of which decides between equals of the first.
ghost use Rattle.std.specs.Prelude.{◌≡◌, Ok, Err, MatchResult, ◌==◌};
ghost use Rattle.compose.specs.Tie.{tied, verdict};
ghost use Rattle.compose.specs.lemmas.Ties.{tie_fair};

use cost::pair::Pair;
use cost::whole::Whole;
use measure::fault::{MakingFault, Refused, RowFault};
use measure::measure::Measure;

const NOTHING: Whole = Whole { value: 0 };

// Where the part counts differ, as no making leaves it, the tie is its first measure beside 0.
#[derive(Drop)]
pub struct Tie<A: Measure<Cost = Whole>, B: Measure<Cost = Whole>> {
    pub(crate) first: A,
    pub(crate) second: B,
}

impl<A: Measure<Cost = Whole>, B: Measure<Cost = Whole>> Tie<A, B> {
    pub fn make(first: A, second: B) -> Result<Tie<A, B>, Refused<(A, B)>>
        ensures cases { MatchResult result (λ s. (verdict (A.Measure.count first) (B.Measure.count second) ≡ Ok tt) × (s.first ≡ first) × (s.second ≡ second)) (λ e. (verdict (A.Measure.count first) (B.Measure.count second) ≡ Err e.fault) × (e.given.0 ≡ first) × (e.given.1 ≡ second)) }
    {
        if first.parts() != second.parts() {
            return Err(Refused {
                fault: MakingFault::CountsDiffer,
                given: (first, second),
            });
        }
        Ok(Tie { first, second })
    }

    // Do both measures count?
    fn ties(&self) -> bool
        ensures answer { result ≡ A.Measure.count self.now.first == B.Measure.count self.now.second }
    {
        let n = self.first.parts();
        n == self.second.parts()
    }
}

impl<A: Measure<Cost = Whole>, B: Measure<Cost = Whole>> Measure for Tie<A, B> {
    type Cost = Pair;

    ghost count = { λ s. A.Measure.count s.first };

    ghost price = { λ s row. tied (A.Measure.count s.first == B.Measure.count s.second) (A.Measure.price s.first row) (B.Measure.price s.second row) };

    ghost top = { λ s. tied (A.Measure.count s.first == B.Measure.count s.second) (A.Measure.top s.first) (B.Measure.top s.second) };

    ghost fair = { λ s.
        let A' = A.Measure in
        let B' = B.Measure in
        tie_fair (A'.count s.first) (B'.count s.second) (A'.price s.first) (B'.price s.second) (A'.top s.first) (B'.top s.second) (A.Measure.fair s.first) (B.Measure.fair s.second) };

    fn parts(&self) -> usize {
        self.first.parts()
    }

    fn ceiling(&self) -> Pair {
        let first = self.first.ceiling();
        let second = if self.ties() {
            self.second.ceiling()
        } else {
            NOTHING
        };
        Pair { first, second }
    }

    fn cost(&self, row: &[u8]) -> Result<Pair, RowFault> {
        let first = self.first.cost(row)?;
        let second = if self.ties() {
            self.second.cost(row)?
        } else {
            NOTHING
        };
        Ok(Pair { first, second })
    }
}
