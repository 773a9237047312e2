// Reading a figure file into lent tables.
#![tactic(auto)]

mod cut;
mod fields;
mod format;
mod lay;
mod progress;
mod reading;
mod row;
mod rules;
mod stages;
mod tables;
mod walk;
