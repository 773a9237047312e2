// Numbers in columns: right-justified over blanks in a field of a given width, read and written.
#![tactic(auto)]

pub mod fault;
pub mod read;
pub mod row;
pub mod width;
pub mod write;
