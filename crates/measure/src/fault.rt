// Why a mark row is refused, and why a measure is not made. Each fault has a number; printed, it is that number and words.
ghost use Rattle.std.specs.Prelude.{◌≡◌, Some};
ghost use Rattle.measure.specs.Numbers.{making_number, row_number};
ghost use Rattle.measure.specs.Texts.{making_text, row_text};

use std::error::Error;
use std::fmt;

#[derive(Clone, Copy, Debug, PartialEq, Eq)]
pub enum RowFault {
    // the row has not one mark for each part
    Length,
    // the first byte above 1 stands at this index
    Mark(usize),
}

impl RowFault {
    // Matched out: a variant that holds an index has no number of its own.
    pub fn number(self) -> u8
        ensures answer { result ≡ row_number self }
    {
        match self {
            RowFault::Length => 61,
            RowFault::Mark(_) => 62,
        }
    }
}

impl fmt::Display for RowFault {
    ghost output = { λ fault. Some (row_text fault) };

    fn fmt<W: fmt::Write>(&self, f: &mut fmt::Formatter<W>) -> fmt::Result {
        match self {
            RowFault::Length => write!(f, "61: the row has not one mark for each part"),
            RowFault::Mark(i) => write!(f, "62: the byte at index {i} is neither 0 nor 1"),
        }
    }
}

impl Error for RowFault {}

// The faults of all makings, by their numbers; each making says which of them it looks for, and in what order.
#[derive(Clone, Copy, Debug, PartialEq, Eq)]
pub enum MakingFault {
    // a number of parts or boxes that is not 2 to 80
    Count = 51,
    // more nets, pins or matrix rows than there may be
    TooMany = 52,
    // a table whose length is not what the number of parts asks
    TableLength = 53,
    // an entry out of its range
    Entry = 54,
    // two measures with different numbers of parts
    CountsDiffer = 55,
    // a multiplier out of its range
    Multiplier = 56,
    // a ceiling above the highest cost
    Ceiling = 57,
    // a box without a part
    EmptyBox = 58,
}

impl MakingFault {
    pub fn number(self) -> u8
        ensures answer { result ≡ making_number self }
    {
        self as u8
    }
}

impl fmt::Display for MakingFault {
    ghost output = { λ fault. Some (making_text fault) };

    fn fmt<W: fmt::Write>(&self, f: &mut fmt::Formatter<W>) -> fmt::Result {
        let text = match self {
            MakingFault::Count => "51: there are not 2 to 80 parts or boxes",
            MakingFault::TooMany => "52: there are too many nets, pins or matrix rows",
            MakingFault::TableLength => "53: a table is not as long as the number of parts asks",
            MakingFault::Entry => "54: an entry is out of its range",
            MakingFault::CountsDiffer => "55: the two measures have different numbers of parts",
            MakingFault::Multiplier => "56: a multiplier is not 1 to 1,000",
            MakingFault::Ceiling => "57: the ceiling is above 99,999,999,999",
            MakingFault::EmptyBox => "58: a box has no part",
        };
        f.write_str(text)
    }
}

impl Error for MakingFault {}

// What a making was given and hands back as it was, and why. Printed, it is its fault.
#[derive(Drop)]
pub struct Refused<T> {
    pub fault: MakingFault,
    pub given: T,
}

impl<T> fmt::Display for Refused<T> {
    ghost output = { λ refused. Some (making_text refused.fault) };

    fn fmt<W: fmt::Write>(&self, f: &mut fmt::Formatter<W>) -> fmt::Result {
        fmt::Display::fmt(&self.fault, f)
    }
}
