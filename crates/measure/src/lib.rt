// Measures: what a division of a figure's parts between two sheets costs, and the faults that go with it.
#![tactic(auto)]

pub mod fault;
pub mod limits;
pub mod measure;
pub mod row;
