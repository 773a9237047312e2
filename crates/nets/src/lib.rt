// Nets: the hypergraph cut. Every net that a side divides is charged its weight once.
#![tactic(auto)]

pub mod net;
pub mod nets;
mod tables;
