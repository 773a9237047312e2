// Calls on a plan as data, each with its buffers and its answer.
ghost use Rattle.std.specs.Prelude.{Some};
ghost use Rattle.plan.specs.Texts.{call_text};

use crate::fault::CostFault;
use cost::line::Line;
use partition::fault::GroupFault;
use search::split::{Split, SplitFault};
use std::fmt;

// Printed, it is written as it is called.
#[derive(Clone, Copy, Debug, PartialEq, Eq)]
pub enum Call {
    Weld(usize, usize),
    Release(usize),
    Group(usize),
    // the cost of the step's row
    Cost,
    // into the step's row and lines
    Split,
}

impl fmt::Display for Call {
    ghost output = { λ call. Some (call_text call) };

    fn fmt<W: fmt::Write>(&self, f: &mut fmt::Formatter<W>) -> fmt::Result {
        match self {
            Call::Weld(a, b) => write!(f, "weld({a}, {b})"),
            Call::Release(a) => write!(f, "release({a})"),
            Call::Group(a) => write!(f, "group({a})"),
            Call::Cost => write!(f, "cost"),
            Call::Split => write!(f, "split"),
        }
    }
}

#[derive(Drop)]
pub enum Answer<C> {
    // not carried out yet
    Open,
    Weld(Result<bool, GroupFault>),
    Release(Result<usize, GroupFault>),
    Group(Result<u8, GroupFault>),
    Cost(Result<C, CostFault>),
    Split(Result<Split<C>, SplitFault>),
}

// A call of a run.
#[derive(Drop)]
pub struct Step<C> {
    pub call: Call,
    pub row: Vec<u8>,
    pub lines: Vec<Line<C>>,
    pub answer: Answer<C>,
}
