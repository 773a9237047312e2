// Coder: what must cross between two sheets is counted by the rank over two elements of the parts' columns.
#![tactic(auto)]

pub mod coder;
pub mod columns;
mod rank;
