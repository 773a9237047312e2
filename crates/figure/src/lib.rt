// The figure file: what it holds, the rule of each row, and why a file is refused. The definitions under specs/ say how it is read and written.
#![tactic(auto)]

pub mod fault;
pub mod header;
pub mod rule;
pub mod stage;
