// The rule of a row's numbers.

// From `low` to `high`, both included.
#[derive(Clone, Copy, Debug, PartialEq, Eq)]
pub struct Range {
    pub low: u64,
    pub high: u64,
}

// How many numbers a row has, and the ranges of the first one and of those after it.
#[derive(Clone, Copy, Debug, PartialEq, Eq)]
pub struct Rule {
    pub fewest: usize,
    pub most: usize,
    pub first: Range,
    pub rest: Range,
}
