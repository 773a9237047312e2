// The groups of a measure's parts, and what the measure says that they cost.
ghost use Rattle.std.specs.Prelude.{◌≡◌, ◌+◌, ◌≤◌, length};
ghost use Rattle.measure.specs.Rows.{Row};
ghost use Rattle.partition.specs.Names.{Named, groups};
ghost use Rattle.search.specs.Candidates.{candidates};
ghost use Rattle.search.specs.Rows.{added, alone};

use crate::rows::{mark_added, mark_alone};
use cost::line::Line;
use measure::measure::Measure;

// `names` gives each part the name of its group. The rows that the measure is asked about, and the groups as the phases join them, lie in buffers for 80 parts, since a search asks for no memory; the lines are the caller's, so how many there are is asked by each method.
#[derive(Drop)]
pub(crate) struct Groups<'a, M: Measure> {
    pub(crate) measure: &'a M,
    pub(crate) names: &'a [u8],
    ghost parts: { length names.now ≡ M.Measure.count measure.now },
    ghost few: { (2 ≤ length names.now) × (length names.now ≤ 80) },
    ghost named: { Named names.now },
}

impl<M: Measure> Groups<'_, M> {
    // The cost of a row of marks.
    #[tactic(auto, using(measure::proofs::Asked::asked_row))]
    fn row_cost(&self, row: &[u8]) -> M::Cost
        requires marks { Row (M.Measure.count self.now.measure.now) row.now }
        ensures answer { result ≡ M.Measure.price self.now.measure.now row.now }
    {
        self.measure.cost(row).unwrap()
    }

    // The cost of the group u alone.
    pub(crate) fn alone_cost(&self, u: u8) -> M::Cost
        ensures answer { result ≡ M.Measure.price self.now.measure.now (alone self.now.names.now u) }
    {
        let mut buffer = [0u8; 80];
        let row = &mut buffer[..self.names.len()];
        mark_alone(self.names, u, row);
        self.row_cost(row)
    }

    // The cost of the row's parts with the group u.
    pub(crate) fn added_cost(&self, row: &[u8], u: u8) -> M::Cost
        requires row { length row.now ≡ length self.now.names.now }
        ensures answer { result ≡ M.Measure.price self.now.measure.now (added self.now.names.now row.now u) }
    {
        let mut buffer = [0u8; 80];
        let with = &mut buffer[..self.names.len()];
        with.copy_from_slice(row);
        mark_added(self.names, u, with);
        self.row_cost(with)
    }

    // Writes the groups but that of part 0 as candidates: what each costs alone is asked once in a phase.
    // They stand in lines, since a local table of a generic cost cannot be lent: 80 costs are not known to fit in memory.
    pub(crate) fn write_candidates(&self, lines: &mut [Line<M::Cost>])
        requires room { groups self.now.names.now ≡ length lines.old + 1 }
        ensures after { lines.new ≡ candidates (M.Measure.price self.now.measure.now) self.now.names.now }
    {
        // p is a name, and `at` counts those that stand
        let mut at = 0;
        for p in 1..self.names.len() {
            let name = p as u8;
            if self.names[p] == name {
                lines[at] = Line {
                    t: 0,
                    u: name,
                    cost: self.alone_cost(name),
                };
                at += 1;
            }
        }
    }
}
