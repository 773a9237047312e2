// A phase: the order of its groups, and the line that it gives.
ghost use Rattle.std.specs.Prelude.{◌≡◌, ℕ, ◌+◌, ◌-◌, ◌<◌, ◌≤◌, true, false, not, [], length, take, slice_index_or, MatchOption};
ghost use Rattle.measure.specs.Rows.{marks};
ghost use Rattle.partition.specs.Names.{groups};
ghost use Rattle.search.specs.Candidates.{candidate, candidates as candidates'};
ghost use Rattle.search.specs.Order.{next as next'};
ghost use Rattle.search.specs.Phases.{first_line};
ghost use Rattle.search.specs.Rows.{left};

use crate::groups::Groups;
use crate::rows::{mark_added, mark_alone};
use cost::kind::CostKind;
use cost::line::Line;
use measure::measure::Measure;

// Is cost(C with v) plus cost(u) less than cost(C with u) plus cost(v)?
fn is_beaten<C: CostKind>(with_u: C, own_u: C, with_v: C, own_v: C) -> bool
    ensures answer { result ≡ not (C.CostKind.le (C.CostKind.plus (C.CostKind.amount with_u) (C.CostKind.amount own_v)) (C.CostKind.plus (C.CostKind.amount with_v) (C.CostKind.amount own_u))) }
{
    !with_u.sum_at_most(own_v, with_v, own_u)
}

// Does the row leave the candidate to be ordered?
fn is_left<C: Copy>(row: &[u8], candidate: Line<C>) -> bool
    requires within { candidate.u < length row.now }
    ensures answer { result ≡ not (marks row.now candidate.u) }
{
    row[usize::from(candidate.u)] != 1
}

// A phase orders its candidates after the group of part 0.
#[derive(Drop)]
struct Phase<'a, M: Measure> {
    groups: Groups<'a, M>,
    candidates: &'a [Line<M::Cost>],
    ghost all: { candidates.now ≡ candidates' (M.Measure.price groups.measure.now) groups.names.now },
}

impl<M: Measure> Phase<'_, M> {
    // The place of the first candidate, from place `from` on, that the row leaves.
    fn first_left(&self, row: &[u8], from: usize) -> Option<usize>
        requires row { length row.now ≡ length self.now.groups.names.now }
        ensures first { MatchOption result ((k : ℕ) (d : Line M.Cost) → from ≤ k → k < length self.now.candidates.now → not (marks row.now (slice_index_or self.now.candidates.now k d).u) ≡ false) (λ p. (from ≤ p) × (p < length self.now.candidates.now) × ((d : Line M.Cost) → not (marks row.now (slice_index_or self.now.candidates.now p d).u) ≡ true) × ((k : ℕ) (d : Line M.Cost) → from ≤ k → k < p → not (marks row.now (slice_index_or self.now.candidates.now k d).u) ≡ false)) }
    {
        // a closure would not know that a candidate's part lies in the row
        for p in from..self.candidates.len() {
            if is_left(row, self.candidates[p]) {
                return Some(p);
            }
        }
        None
    }

    // The next group of an order, after those that the row marks. A single candidate is not asked about.
    fn next(&self, row: &[u8]) -> Option<Line<M::Cost>>
        requires row { length row.now ≡ length self.now.groups.names.now }
        requires ordered { marks row.now 0 ≡ true }
        ensures next { MatchOption result (left self.now.groups.names.now row.now ≡ []) (λ v. (¬ (left self.now.groups.names.now row.now ≡ [])) × (v ≡ candidate (M.Measure.price self.now.groups.measure.now) self.now.groups.names.now (next' M.Cost.CostKind.amount M.Cost.CostKind.plus M.Cost.CostKind.le (M.Measure.price self.now.groups.measure.now) self.now.groups.names.now row.now))) }
    {
        let Some(first) = self.first_left(row, 0) else {
            return None;
        };
        let mut best = self.candidates[first];
        let Some(second) = self.first_left(row, first + 1) else {
            return Some(best);
        };
        let mut with_best = self.groups.added_cost(row, best.u);
        for candidate in &self.candidates[second..] {
            let candidate = *candidate;
            if is_left(row, candidate) {
                let with_candidate = self.groups.added_cost(row, candidate.u);
                if is_beaten(with_best, best.cost, with_candidate, candidate.cost) {
                    best = candidate;
                    with_best = with_candidate;
                }
            }
        }
        Some(best)
    }

    // Orders the candidates; the last two names of the order, and what the last costs alone, are the line.
    fn line(&self) -> Line<M::Cost>
        requires two { 2 ≤ groups self.now.groups.names.now }
        ensures answer { result ≡ first_line M.Cost.CostKind.amount M.Cost.CostKind.plus M.Cost.CostKind.le (M.Measure.price self.now.groups.measure.now) (groups self.now.groups.names.now - 1) self.now.groups.names.now }
    {
        let names = self.groups.names;
        // as long as there may be parts, since a search asks for no memory
        let mut buffer = [0u8; 80];
        let row = &mut buffer[..names.len()];
        mark_alone(names, 0, row);
        // the group of part 0 is not asked what it costs: some candidate's cost stands there until one is ordered
        let mut line = Line {
            t: 0,
            u: 0,
            ..self.candidates[0]
        };
        while let Some(next) = self.next(row) {
            mark_added(names, next.u, row);
            line = Line { t: line.u, ..next };
        }
        line
    }
}

impl<M: Measure> Groups<'_, M> {
    // Runs a phase, and writes its line at place i. From there on are as many lines as candidates, and the phase writes over them.
    pub(crate) fn run_phase(self, lines: &mut [Line<M::Cost>], i: usize) -> Line<M::Cost>
        requires within { i < length lines.old }
        requires groups { groups self.names.now ≡ length lines.old - i + 1 }
        ensures answer { result ≡ first_line M.Cost.CostKind.amount M.Cost.CostKind.plus M.Cost.CostKind.le (M.Measure.price self.entry.measure.now) (length lines.old - i) self.entry.names.now }
        ensures line { (d : Line M.Cost) → slice_index_or lines.new i d ≡ result }
        ensures before { take i lines.new ≡ take i lines.old }
    {
        let rest = &mut lines[i..];
        self.write_candidates(rest);
        let phase = Phase {
            groups: self,
            candidates: rest,
        };
        let line = phase.line();
        lines[i] = line;
        line
    }
}
