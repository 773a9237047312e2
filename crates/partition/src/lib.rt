// How a figure's parts are grouped: for each part the name of its group, which is the group's lowest part, and the group's size.
#![tactic(auto)]

pub mod fault;
pub mod partition;
pub mod steps;
pub mod table;
