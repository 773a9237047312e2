// What a figure file holds besides its tables.
ghost use Rattle.std.specs.Prelude.{◌≡◌, Some};
ghost use Rattle.std.specs.Result.{OkIff};
ghost use Rattle.figure.specs.Kinds.{IsKindNumber, kind_number, kind_of};
ghost use Rattle.figure.specs.Texts.{unknown_kind_text};

use std::error::Error;
use std::fmt;

// Which measure the figure is divided by. The numbers are those of a file.
#[derive(Clone, Copy, Debug, PartialEq, Eq)]
pub enum Kind {
    Nets = 1,
    Closeness = 2,
    Coder = 3,
    // the sum of nets and closeness
    Sum = 4,
    // the tie of nets and closeness
    Tie = 5,
}

impl Kind {
    // The kind's number in a file.
    pub fn number(self) -> u64
        ensures answer { result ≡ kind_number self }
    {
        self as u64
    }
}

// No kind has the number.
#[derive(Clone, Copy, Debug, PartialEq, Eq)]
pub struct UnknownKind;

impl fmt::Display for UnknownKind {
    ghost output = { λ _. Some unknown_kind_text };

    fn fmt<W: fmt::Write>(&self, f: &mut fmt::Formatter<W>) -> fmt::Result {
        write!(f, "no kind of measure has the number")
    }
}

impl Error for UnknownKind {}

// The kind with a number.
impl TryFrom<u64> for Kind {
    type Error = UnknownKind;

    ghost try_from_gives = { λ number r. OkIff r (IsKindNumber number) (kind_of number) };

    fn try_from(number: u64) -> Result<Kind, UnknownKind> {
        match number {
            1 => Ok(Kind::Nets),
            2 => Ok(Kind::Closeness),
            3 => Ok(Kind::Coder),
            4 => Ok(Kind::Sum),
            5 => Ok(Kind::Tie),
            _ => Err(UnknownKind),
        }
    }
}

// Two parts to be welded.
#[derive(Clone, Copy, Debug, PartialEq, Eq)]
pub struct Weld {
    pub a: usize,
    pub b: usize,
}

// The number of parts, the measure's kind and its multipliers, the number of matrix rows, and how much of each table is content. There are always n columns.
#[derive(Clone, Copy, Debug, PartialEq, Eq)]
pub struct Header {
    pub n: usize,
    pub kind: Kind,
    pub p: u64,
    pub q: u64,
    pub nets: usize,
    pub pins: usize,
    pub closeness: usize,
    pub rows: usize,
    pub welds: usize,
}
