// Finding a least side.
ghost use Rattle.std.specs.Prelude.{◌≡◌, ◌+◌, ◌-◌, ◌≤◌, List, ◌++◌, length, take, IfOk};
ghost use Rattle.partition.specs.Names.{groups};
ghost use Rattle.search.specs.Certificate.{Certified};
ghost use Rattle.search.specs.Phases.{lines_of};
ghost use Rattle.search.specs.Split.{best_side, found, lines_after, row_after, split_answer};

use crate::groups::Groups;
use crate::phases::mark_side;
use crate::split::{Split, SplitFault};
use cost::line::{Line, earliest_line};
use measure::measure::Measure;
use partition::partition::Partition;

impl<M: Measure> Groups<'_, M> {
    // Splits the groups, which are one more than the lines.
    fn split(&self, row: &mut [u8], lines: &mut [Line<M::Cost>]) -> Split<M::Cost>
        requires some { 1 ≤ length lines.old }
        requires groups { groups self.now.names.now ≡ length lines.old + 1 }
        requires row { length row.old ≡ length self.now.names.now }
        ensures answer { result ≡ found M.Cost.CostKind.amount M.Cost.CostKind.plus M.Cost.CostKind.le (M.Measure.price self.now.measure.now) self.now.names.now }
        ensures row { row.new ≡ best_side M.Cost.CostKind.amount M.Cost.CostKind.plus M.Cost.CostKind.le (M.Measure.price self.now.measure.now) self.now.names.now }
        ensures lines { lines.new ≡ lines_of M.Cost.CostKind.amount M.Cost.CostKind.plus M.Cost.CostKind.le (M.Measure.price self.now.measure.now) self.now.names.now }
        ensures certified { (rest : List (Line M.Cost)) → Certified M.Cost.CostKind.amount M.Cost.CostKind.le (M.Measure.price self.now.measure.now) self.now.names.now row.new (take (result.groups - 1) (lines.new ++ rest)) result.cost }
    {
        self.find_lines(lines);
        let best = earliest_line(lines);
        mark_side(self.names, lines, best - 1, row);
        Split {
            cost: lines[best - 1].cost,
            groups: lines.len() + 1,
            best,
        }
    }
}

// Writes the names of the groups, part by part.
fn write_names(groups: &Partition, names: &mut [u8])
    requires long { length names.old ≡ length groups.now }
    ensures after { names.new ≡ groups.now }
{
    for (p, name) in names.iter_mut().enumerate() {
        *name = groups.name(p).unwrap();
    }
}

// Finds a least side: marks it in the row, and writes a line for each phase into the front of the lines. A refusal leaves both as they were.
pub fn find_split<M: Measure>(
    measure: &M,
    groups: &Partition,
    row: &mut [u8],
    lines: &mut [Line<M::Cost>],
) -> Result<Split<M::Cost>, SplitFault>
    ensures answer { result ≡ split_answer M.Cost.CostKind.amount M.Cost.CostKind.plus M.Cost.CostKind.le (M.Measure.price measure.now) groups.now (M.Measure.count measure.now) row.old lines.old }
    ensures row { row.new ≡ row_after M.Cost.CostKind.amount M.Cost.CostKind.plus M.Cost.CostKind.le (M.Measure.price measure.now) groups.now (M.Measure.count measure.now) row.old lines.old }
    ensures lines { lines.new ≡ lines_after M.Cost.CostKind.amount M.Cost.CostKind.plus M.Cost.CostKind.le (M.Measure.price measure.now) groups.now (M.Measure.count measure.now) row.old lines.old }
    ensures certified { IfOk result (λ s. Certified M.Cost.CostKind.amount M.Cost.CostKind.le (M.Measure.price measure.now) groups.now row.new (take (s.groups - 1) lines.new) s.cost) }
{
    let n = measure.parts();
    if groups.parts() != n || row.len() != n {
        return Err(SplitFault::Length);
    }
    let standing = groups.groups();
    if lines.len() < standing - 1 {
        return Err(SplitFault::Lines);
    }
    // as long as there may be parts, since a search asks for no memory
    let mut buffer = [0u8; 80];
    let names = &mut buffer[..n];
    write_names(groups, names);
    let search = Groups { measure, names };
    Ok(search.split(row, &mut lines[..standing - 1]))
}
