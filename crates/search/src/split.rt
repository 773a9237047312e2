// What a search answers, and why it refuses.
ghost use Rattle.std.specs.Prelude.{◌≡◌, Some};
ghost use Rattle.search.specs.Numbers.{split_number};
ghost use Rattle.search.specs.Texts.{split_text};

use std::error::Error;
use std::fmt;

#[derive(Debug, Clone, Copy, PartialEq, Eq)]
pub enum SplitFault {
    // the row, or the partition, has not one place for each part
    Length = 61,
    // fewer lines than groups less one
    Lines = 44,
}

impl SplitFault {
    pub fn number(self) -> u8
        ensures answer { result ≡ split_number self }
    {
        self as u8
    }
}

impl fmt::Display for SplitFault {
    ghost output = { λ fault. Some (split_text fault) };

    fn fmt<W: fmt::Write>(&self, f: &mut fmt::Formatter<W>) -> fmt::Result {
        match self {
            SplitFault::Length => write!(f, "61: the row has not one mark for each part"),
            SplitFault::Lines => write!(f, "44: there are fewer lines than groups less one"),
        }
    }
}

impl Error for SplitFault {}

// The cost of the marked side, how many groups stand, and the number of the best line, from 1.
#[derive(Clone, Copy)]
pub struct Split<C> {
    pub cost: C,
    pub groups: usize,
    pub best: usize,
}
