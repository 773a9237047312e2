// Costs: how amounts are added and ordered, the two kinds of them, and lines that hold one.
#![tactic(auto)]

pub mod kind;
pub mod line;
pub mod pair;
pub mod whole;
