// Why the cost of a row is refused.
ghost use Rattle.std.specs.Prelude.{◌≡◌, Some};
ghost use Rattle.plan.specs.Numbers.{cost_number};
ghost use Rattle.plan.specs.Texts.{cost_fault_text};
ghost use Rattle.plan.specs.declared.fault.CostFault.TheVariants.{Row};

use measure::fault::RowFault;
use std::error::Error;
use std::fmt;

#[derive(Clone, Copy, Debug, PartialEq, Eq)]
pub enum CostFault {
    // the measure refuses the row
    Row(RowFault),
    // the row divides a group
    Divides,
}

impl CostFault {
    // Matched out: a variant that holds a fault has no number of its own.
    pub fn number(self) -> u8
        ensures answer { result ≡ cost_number self }
    {
        match self {
            CostFault::Row(fault) => fault.number(),
            CostFault::Divides => 43,
        }
    }
}

impl From<RowFault> for CostFault {
    ghost from_gives = { λ f r. r ≡ Row f };

    fn from(fault: RowFault) -> CostFault {
        CostFault::Row(fault)
    }
}

impl Error for CostFault {}

impl fmt::Display for CostFault {
    ghost output = { λ fault. Some (cost_fault_text fault) };

    fn fmt<W: fmt::Write>(&self, f: &mut fmt::Formatter<W>) -> fmt::Result {
        match self {
            CostFault::Row(fault) => write!(f, "{fault}"),
            CostFault::Divides => write!(f, "43: the row divides a group"),
        }
    }
}
