// Measures made of measures: sums, ties and folds, each again a measure.
#![tactic(auto)]

pub mod boxes;
pub mod fold;
pub mod sum;
pub mod tie;
