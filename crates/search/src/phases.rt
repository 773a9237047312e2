// The phases of a search.
ghost use Rattle.std.specs.Prelude.{◌≡◌, ◌+◌, ◌<◌, ◌≤◌, length, take};
ghost use Rattle.partition.specs.Joined.{joined};
ghost use Rattle.partition.specs.Names.{groups};
ghost use Rattle.search.specs.Phases.{phases, side_at};

use crate::groups::Groups;
use crate::rows::mark_alone;
use cost::line::Line;
use measure::measure::Measure;

// Two groups become one, under the lower name.
fn join(names: &mut [u8], t: u8, u: u8)
    ensures after { names.new ≡ joined t u names.old }
{
    let high = t.max(u);
    let low = t.min(u);
    for name in names.iter_mut() {
        if *name == high {
            *name = low;
        }
    }
}

// The names in front of a table of 80.
fn copied(names: &[u8]) -> [u8; 80]
    requires few { length names.now ≤ 80 }
    ensures size { length result ≡ 80 }
    ensures answer { take (length names.now) result ≡ names.now }
{
    // as long as there may be parts, since a search asks for no memory
    let mut out = [0u8; 80];
    out[..names.len()].copy_from_slice(names);
    out
}

impl<M: Measure> Groups<'_, M> {
    // Runs a phase for each of the lines, and writes it; one group more than lines stands at first.
    pub(crate) fn find_lines(&self, lines: &mut [Line<M::Cost>])
        requires groups { groups self.now.names.now ≡ length lines.old + 1 }
        ensures after { lines.new ≡ phases M.Cost.CostKind.amount M.Cost.CostKind.plus M.Cost.CostKind.le (M.Measure.price self.now.measure.now) (length lines.old) self.now.names.now }
    {
        let mut buffer = copied(self.names);
        let work = &mut buffer[..self.names.len()];
        // a phase takes all lines from place i on
        for i in 0..lines.len() {
            let groups = Groups {
                measure: self.measure,
                names: work,
            };
            let line = groups.run_phase(lines, i);
            join(work, line.t, line.u);
        }
    }
}

// Marks the side of the line at place b, in the groups as the lines before it join them.
pub(crate) fn mark_side<C: Copy>(names: &[u8], lines: &[Line<C>], b: usize, row: &mut [u8])
    requires few { length names.now ≤ 80 }
    requires within { b < length lines.now }
    requires row { length row.old ≡ length names.now }
    ensures after { row.new ≡ side_at b lines.now names.now }
{
    let mut buffer = copied(names);
    let work = &mut buffer[..names.len()];
    for line in &lines[..b] {
        join(work, line.t, line.u);
    }
    mark_alone(work, lines[b].u, row);
}
