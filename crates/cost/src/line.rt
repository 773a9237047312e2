// Lines of a certificate, and the earliest of smallest cost.
ghost use Rattle.std.specs.Prelude.{◌≡◌, not};
ghost use Rattle.cost.specs.Lines.{line_le};
ghost use Rattle.cost.specs.Earliest.{Earliest, earliest};

use crate::kind::CostKind;

// Two groups by their names, and a cost.
#[derive(Clone, Copy)]
pub struct Line<C> {
    pub t: u8,
    pub u: u8,
    pub cost: C,
}

// Does the line cost less than the least one so far?
fn cheaper<C: CostKind>(line: Line<C>, least: Line<C>) -> bool
    ensures answer { result ≡ not (line_le C.CostKind.amount C.CostKind.le least line) }
{
    !least.cost.at_most(line.cost)
}

// The number, from 1, of the earliest line of smallest cost; 0 where there is no line, as the rules of a search have it.
pub fn earliest_line<C: CostKind>(lines: &[Line<C>]) -> usize
    ensures answer { result ≡ earliest (line_le C.CostKind.amount C.CostKind.le) lines.now }
    ensures earliest { Earliest (line_le C.CostKind.amount C.CostKind.le) lines.now result }
{
    let [first, rest @ ..] = lines else {
        return 0;
    };
    let mut number = 1;
    let mut least = *first;
    for (i, line) in rest.iter().enumerate() {
        if cheaper(*line, least) {
            number = i + 2;
            least = *line;
        }
    }
    number
}
