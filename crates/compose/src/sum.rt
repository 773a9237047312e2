// A sum: p times one measure and q times another.
ghost use Rattle.std.specs.Prelude.{◌≡◌, true, false, ◌&&◌, if◌then◌else◌, Ok, Err, MatchResult};
ghost use Rattle.compose.specs.Sum.{adds, multiplier_fits, sum_of, verdict};
ghost use Rattle.compose.specs.lemmas.Sums.{sum_fair};

use cost::whole::{HIGHEST, Whole};
use measure::fault::{MakingFault, Refused, RowFault};
use measure::measure::Measure;

// The largest multiplier.
const MOST: u64 = 1_000;

// p and q, each 1 to 1,000.
#[derive(Clone, Copy)]
pub(crate) struct Multipliers {
    pub(crate) p: u64,
    pub(crate) q: u64,
    ghost ranged: { (multiplier_fits p && multiplier_fits q) ≡ true },
}

fn multiplier_fits(p: u64) -> bool
    ensures answer { result ≡ multiplier_fits p }
{
    1 <= p && p <= MOST
}

impl Multipliers {
    fn make(p: u64, q: u64) -> Result<Multipliers, MakingFault>
        ensures cases { MatchResult result (λ by. ((multiplier_fits p && multiplier_fits q) ≡ true) × (by.p ≡ p) × (by.q ≡ q)) (λ e. ((multiplier_fits p && multiplier_fits q) ≡ false) × (e ≡ MakingFault.Multiplier)) }
    {
        if !multiplier_fits(p) || !multiplier_fits(q) {
            return Err(MakingFault::Multiplier);
        }
        Ok(Multipliers { p, q })
    }

    fn sum_of(self, a: Whole, b: Whole) -> Whole
        ensures answer { result ≡ sum_of self.p self.q a b }
    {
        Whole {
            value: self.p * a.counted() + self.q * b.counted(),
        }
    }
}

// Where the part counts differ or the ceiling is above the highest cost, as no making leaves it, the sum is its first measure.
#[derive(Drop)]
pub struct Sum<A: Measure<Cost = Whole>, B: Measure<Cost = Whole>> {
    pub(crate) first: A,
    pub(crate) second: B,
    pub(crate) by: Multipliers,
}

// The multipliers, if the measures can be added by these.
fn check<A: Measure<Cost = Whole>, B: Measure<Cost = Whole>>(
    first: &A,
    second: &B,
    p: u64,
    q: u64,
) -> Result<Multipliers, MakingFault>
    ensures cases { MatchResult result (λ by. (verdict (A.Measure.count first.now) (B.Measure.count second.now) p q (A.Measure.top first.now) (B.Measure.top second.now) ≡ Ok tt) × (by.p ≡ p) × (by.q ≡ q)) (λ e. verdict (A.Measure.count first.now) (B.Measure.count second.now) p q (A.Measure.top first.now) (B.Measure.top second.now) ≡ Err e) }
{
    if first.parts() != second.parts() {
        return Err(MakingFault::CountsDiffer);
    }
    let by = Multipliers::make(p, q)?;
    let ceiling = by.sum_of(first.ceiling(), second.ceiling());
    if ceiling.value > HIGHEST {
        return Err(MakingFault::Ceiling);
    }
    Ok(by)
}

impl<A: Measure<Cost = Whole>, B: Measure<Cost = Whole>> Sum<A, B> {
    pub fn make(first: A, second: B, p: u64, q: u64) -> Result<Sum<A, B>, Refused<(A, B, u64, u64)>>
        ensures cases { MatchResult result (λ s. (verdict (A.Measure.count first) (B.Measure.count second) p q (A.Measure.top first) (B.Measure.top second) ≡ Ok tt) × (s.first ≡ first) × (s.second ≡ second) × (s.by.p ≡ p) × (s.by.q ≡ q)) (λ e. (verdict (A.Measure.count first) (B.Measure.count second) p q (A.Measure.top first) (B.Measure.top second) ≡ Err e.fault) × (e.given.0 ≡ first) × (e.given.1 ≡ second) × (e.given.2 ≡ p) × (e.given.3 ≡ q)) }
    {
        // matched, since a refusal takes with it what was given
        match check(&first, &second, p, q) {
            Ok(by) => Ok(Sum { first, second, by }),
            Err(fault) => Err(Refused {
                fault,
                given: (first, second, p, q),
            }),
        }
    }

    // Do both measures count?
    fn adds(&self) -> bool
        ensures answer { result ≡ adds (A.Measure.count self.now.first) (B.Measure.count self.now.second) self.now.by.p self.now.by.q (A.Measure.top self.now.first) (B.Measure.top self.now.second) }
    {
        if self.first.parts() != self.second.parts() {
            return false;
        }
        let ceiling = self.by.sum_of(self.first.ceiling(), self.second.ceiling());
        ceiling.value <= HIGHEST
    }
}

impl<A: Measure<Cost = Whole>, B: Measure<Cost = Whole>> Measure for Sum<A, B> {
    type Cost = Whole;

    ghost count = { λ s. A.Measure.count s.first };

    ghost price = { λ s row. (if adds (A.Measure.count s.first) (B.Measure.count s.second) s.by.p s.by.q (A.Measure.top s.first) (B.Measure.top s.second) then sum_of s.by.p s.by.q (A.Measure.price s.first row) (B.Measure.price s.second row) else A.Measure.price s.first row) };

    ghost top = { λ s. (if adds (A.Measure.count s.first) (B.Measure.count s.second) s.by.p s.by.q (A.Measure.top s.first) (B.Measure.top s.second) then sum_of s.by.p s.by.q (A.Measure.top s.first) (B.Measure.top s.second) else A.Measure.top s.first) };

    ghost fair = { λ s.
        let A' = A.Measure in
        let B' = B.Measure in
        sum_fair s.by.p s.by.q (A'.count s.first) (B'.count s.second) (A'.price s.first) (B'.price s.second) (A'.top s.first) (B'.top s.second) (A.Measure.fair s.first) (B.Measure.fair s.second) };

    fn parts(&self) -> usize {
        self.first.parts()
    }

    fn ceiling(&self) -> Whole {
        let first = self.first.ceiling();
        if self.adds() {
            self.by.sum_of(first, self.second.ceiling())
        } else {
            first
        }
    }

    fn cost(&self, row: &[u8]) -> Result<Whole, RowFault> {
        let first = self.first.cost(row)?;
        if !self.adds() {
            return Ok(first);
        }
        let second = self.second.cost(row)?;
        Ok(self.by.sum_of(first, second))
    }
}
