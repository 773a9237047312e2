// Closeness: the graph cut. Every pair of parts that a side takes apart costs its entry of a table.
#![tactic(auto)]

pub mod closeness;
mod table;
