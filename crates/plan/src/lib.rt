// A plan: a measure with the groups of its parts, its calls, and runs of them.
#![tactic(auto)]

pub mod call;
pub mod calls;
pub mod fault;
pub mod plan;
pub mod run;
