// The calls of a plan. A refusal leaves the plan, and every buffer, as it was.
ghost use Rattle.std.specs.Prelude.{◌≡◌, ℕ, ◌-◌, ◌<◌, ◌≤◌, Bool, true, false, ◌&&◌, length, take, is_ok, IfOk, Ok, ◌==◌, ◌≢◌, nat_le};
ghost use Rattle.partition.specs.Joined.{join_after, join_answer};
ghost use Rattle.partition.specs.Names.{groups as groups', singles};
ghost use Rattle.partition.specs.Single.{name_answer, single_after, single_answer};
ghost use Rattle.search.specs.Certificate.{Certified, divides as divides'};
ghost use Rattle.search.specs.Split.{lines_after, row_after, split_answer};
ghost use Rattle.plan.specs.Replies.{cost_answer};

use crate::fault::CostFault;
use crate::plan::Plan;
use cost::line::Line;
use measure::measure::Measure;
use partition::fault::GroupFault;
use partition::partition::Partition;
use search::find::find_split;
use search::split::{Split, SplitFault};

// Does the row mark one part of a group and leave another unmarked? Each part is held against the lowest of its group.
fn divides(groups: &Partition, row: &[u8]) -> bool
    requires long { length row.now ≡ length groups.now }
    ensures answer { result ≡ divides' groups.now row.now }
{
    prove!(row.len() == groups.parts());
    // with `any` the answer did not close against the definition, which is over pairs of parts
    for (p, mark) in row.iter().enumerate() {
        if let Ok(name) = groups.name(p) {
            if (*mark == 1) != (row[usize::from(name)] == 1) {
                return true;
            }
        }
    }
    false
}

impl<M: Measure> Plan<M> {
    // A new plan, with each part a group.
    pub fn new(measure: M) -> Plan<M>
        ensures measure { result.measure ≡ measure }
        ensures names { result.groups ≡ singles (M.Measure.count measure) }
    {
        let groups = Partition::singles(measure.parts()).unwrap();
        Plan { measure, groups }
    }

    // Joins the groups of parts a and b; false where they are one group already.
    pub fn weld(&mut self, a: usize, b: usize) -> Result<bool, GroupFault>
        ensures answer { result ≡ join_answer self.old.groups a b }
        ensures after { self.new.groups ≡ join_after self.old.groups a b }
        ensures measure { self.new.measure ≡ self.old.measure }
        ensures same { (result ≢ Ok true) → self.new ≡ self.old }
    {
        self.groups.join(a, b)
    }

    // Makes every part of a's group single, and answers how many groups then stand.
    pub fn release(&mut self, a: usize) -> Result<usize, GroupFault>
        ensures answer { result ≡ single_answer self.old.groups a }
        ensures after { self.new.groups ≡ single_after self.old.groups a }
        ensures measure { self.new.measure ≡ self.old.measure }
        ensures same { is_ok result ≡ false → self.new ≡ self.old }
    {
        self.groups.single(a)
    }

    // The name of a's group.
    pub fn group(&self, a: usize) -> Result<u8, GroupFault>
        ensures answer { result ≡ name_answer self.now.groups a }
    {
        self.groups.name(a)
    }

    // The measure's cost of a row that divides no group.
    pub fn cost(&self, row: &[u8]) -> Result<M::Cost, CostFault>
        ensures answer { result ≡ cost_answer (M.Measure.price self.now.measure) self.now.groups (M.Measure.count self.now.measure) row.now }
    {
        let cost = self.measure.cost(row)?;
        if divides(&self.groups, row) {
            return Err(CostFault::Divides);
        }
        Ok(cost)
    }

    // Divides the figure at the least cost: marks a side in the row, and writes a line for each phase into the front of the lines.
    pub fn split(
        &self,
        row: &mut [u8],
        lines: &mut [Line<M::Cost>],
    ) -> Result<Split<M::Cost>, SplitFault>
        ensures answer { result ≡ split_answer M.Cost.CostKind.amount M.Cost.CostKind.plus M.Cost.CostKind.le (M.Measure.price self.now.measure) self.now.groups (M.Measure.count self.now.measure) row.old lines.old }
        ensures row { row.new ≡ row_after M.Cost.CostKind.amount M.Cost.CostKind.plus M.Cost.CostKind.le (M.Measure.price self.now.measure) self.now.groups (M.Measure.count self.now.measure) row.old lines.old }
        ensures lines { lines.new ≡ lines_after M.Cost.CostKind.amount M.Cost.CostKind.plus M.Cost.CostKind.le (M.Measure.price self.now.measure) self.now.groups (M.Measure.count self.now.measure) row.old lines.old }
        ensures accepted { is_ok result ≡ (length row.old == M.Measure.count self.now.measure && nat_le (groups' self.now.groups - 1) (length lines.old)) }
        ensures certified { IfOk result (λ s. Certified M.Cost.CostKind.amount M.Cost.CostKind.le (M.Measure.price self.now.measure) self.now.groups row.new (take (s.groups - 1) lines.new) s.cost) }
    {
        find_split(&self.measure, &self.groups, row, lines)
    }
}
