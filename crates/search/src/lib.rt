// The search for a least side: orders, phases, lines, for any measure and any partition of its parts.
#![tactic(auto)]

pub mod find;
mod groups;
mod order;
mod phases;
mod rows;
pub mod split;
