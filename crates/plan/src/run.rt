// Runs of calls on a new plan, carried out in place.
ghost use Rattle.std.specs.Prelude.{◌≡◌, ℕ, ◌-◌, ◌<◌, length, take, Ok, slice_index_or};
ghost use Rattle.partition.specs.Records.{sizes_of};
ghost use Rattle.search.specs.Certificate.{Certified};
ghost use Rattle.search.specs.Split.{lines_after, row_after, split_answer};
ghost use Rattle.plan.specs.Runs.{Certain, Done, Each, calls_of, sizes};
ghost use Rattle.plan.specs.Standing.{after, standing_after, stepped};

use crate::call::{Answer, Call, Step};
use crate::plan::Plan;
use cost::line::Line;
use measure::measure::Measure;
use search::split::Split;

// A split into owned buffers.
fn split_into<M: Measure>(
    plan: &Plan<M>,
    row: &mut Vec<u8>,
    lines: &mut Vec<Line<M::Cost>>,
) -> Answer<M::Cost>
    ensures answer { result ≡ Answer.Split (split_answer M.Cost.CostKind.amount M.Cost.CostKind.plus M.Cost.CostKind.le (M.Measure.price plan.now.measure) plan.now.groups (M.Measure.count plan.now.measure) row.old.items lines.old.items) }
    ensures row { row.new.items ≡ row_after M.Cost.CostKind.amount M.Cost.CostKind.plus M.Cost.CostKind.le (M.Measure.price plan.now.measure) plan.now.groups (M.Measure.count plan.now.measure) row.old.items lines.old.items }
    ensures lines { lines.new.items ≡ lines_after M.Cost.CostKind.amount M.Cost.CostKind.plus M.Cost.CostKind.le (M.Measure.price plan.now.measure) plan.now.groups (M.Measure.count plan.now.measure) row.old.items lines.old.items }
    ensures certified { (s : Split M.Cost) → result ≡ Answer.Split (Ok s) → Certified M.Cost.CostKind.amount M.Cost.CostKind.le (M.Measure.price plan.now.measure) plan.now.groups row.new.items (take (s.groups - 1) lines.new.items) s.cost }
{
    let marks = row.as_mut_slice();
    let room = lines.as_mut_slice();
    Answer::Split(plan.split(marks, room))
}

// One call. Calls are data, since what a run owes is stated of the list of them.
fn one<M: Measure>(plan: &mut Plan<M>, step: &mut Step<M::Cost>)
    ensures done { Done M.Cost.CostKind.amount M.Cost.CostKind.plus M.Cost.CostKind.le (M.Measure.price plan.old.measure) (M.Measure.count plan.old.measure) plan.old.groups step.old step.new }
    ensures certified { Certain M.Cost.CostKind.amount M.Cost.CostKind.plus M.Cost.CostKind.le (M.Measure.price plan.old.measure) (M.Measure.count plan.old.measure) plan.old.groups step.new }
    ensures standing { plan.new.groups ≡ stepped plan.old.groups step.old.call }
    ensures measure { plan.new.measure ≡ plan.old.measure }
{
    step.answer = match step.call {
        Call::Weld(a, b) => Answer::Weld(plan.weld(a, b)),
        Call::Release(a) => Answer::Release(plan.release(a)),
        Call::Group(a) => Answer::Group(plan.group(a)),
        Call::Cost => Answer::Cost(plan.cost(step.row.as_slice())),
        Call::Split => split_into(plan, &mut step.row, &mut step.lines),
    };
}

// The calls in their order.
fn carry<M: Measure>(plan: &mut Plan<M>, steps: &mut [Step<M::Cost>])
    ensures done { (k : ℕ) (d : Step M.Cost) → k < length steps.old → Done M.Cost.CostKind.amount M.Cost.CostKind.plus M.Cost.CostKind.le (M.Measure.price plan.old.measure) (M.Measure.count plan.old.measure) (after plan.old.groups (calls_of (take k steps.old))) (slice_index_or steps.old k d) (slice_index_or steps.new k d) }
    ensures certified { (k : ℕ) (d : Step M.Cost) → k < length steps.old → Certain M.Cost.CostKind.amount M.Cost.CostKind.plus M.Cost.CostKind.le (M.Measure.price plan.old.measure) (M.Measure.count plan.old.measure) (after plan.old.groups (calls_of (take k steps.old))) (slice_index_or steps.new k d) }
    ensures standing { plan.new.groups ≡ after plan.old.groups (calls_of steps.old) }
    ensures measure { plan.new.measure ≡ plan.old.measure }
{
    for step in steps.iter_mut() {
        one(plan, step);
    }
}

// Carries the calls out in their order on a new plan, and gives it back. Each step then holds its answer, and its buffers are as the call leaves them.
#[tactic(auto, using(crate::proofs::Carried::each_done, crate::proofs::Carried::each_certain, partition::proofs::Kept::sizes_are))]
pub fn run<M: Measure>(measure: M, steps: &mut [Step<M::Cost>]) -> Plan<M>
    ensures done { Each (M.Measure.count measure) (Done M.Cost.CostKind.amount M.Cost.CostKind.plus M.Cost.CostKind.le (M.Measure.price measure) (M.Measure.count measure)) steps.old steps.new }
    ensures certified { Each (M.Measure.count measure) (λ names _ step. Certain M.Cost.CostKind.amount M.Cost.CostKind.plus M.Cost.CostKind.le (M.Measure.price measure) (M.Measure.count measure) names step) steps.old steps.new }
    ensures standing { result.groups ≡ standing_after (M.Measure.count measure) (calls_of steps.old) }
    ensures sizes { sizes_of result.groups ≡ sizes (standing_after (M.Measure.count measure) (calls_of steps.old)) }
    ensures measure { result.measure ≡ measure }
{
    let mut plan = Plan::new(measure);
    carry(&mut plan, steps);
    plan
}
