// How far a file is read.
use crate::header::Header;

// What the rows so far have been: none, the first with so many parts, or the first two and those that the header counts.
#[derive(Clone, Copy, Debug, PartialEq, Eq)]
pub enum Stage {
    Start,
    Sized(usize),
    Body(Header),
}
