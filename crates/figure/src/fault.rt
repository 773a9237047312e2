// Why a file is refused, and why a content is not written. Rows and fields are counted from 1.
ghost use Rattle.std.specs.Prelude.{◌≡◌, Some};
ghost use Rattle.figure.specs.Numbers.{refusal_of, write_number};
ghost use Rattle.figure.specs.Texts.{file_fault_text, place_text, row_fault_text, write_fault_text};
ghost use Rattle.figure.specs.declared.fault.FileFault.TheVariants.{Row};
ghost use Rattle.figure.specs.declared.fault.RowFault.TheVariants.{Field};

use columns::fault::FieldFault;
use std::error::Error;
use std::fmt;

// A field of a row.
#[derive(Clone, Copy, Debug, PartialEq, Eq)]
pub struct Place {
    pub row: usize,
    pub field: usize,
}

impl fmt::Display for Place {
    ghost output = { λ place. Some (place_text place) };

    fn fmt<W: fmt::Write>(&self, f: &mut fmt::Formatter<W>) -> fmt::Result {
        write!(f, "row {}, field {}", self.row, self.field)
    }
}

// A field that is not read.
#[derive(Clone, Copy, Debug, PartialEq, Eq)]
pub struct FieldRefusal {
    pub place: Place,
    pub cause: FieldFault,
}

#[derive(Clone, Copy, Debug, PartialEq, Eq)]
pub enum RowFault {
    // no byte 10 ends the row
    Unended(usize),
    // the length is not 1 and whole fields
    Length(usize),
    // the letter is unknown or out of place
    Letter(usize),
    Field(FieldRefusal),
    // too few fields or too many
    Count(usize),
    // the first number outside its range
    Range(Place),
    // a row or a pin beyond its maximum
    TooMany(usize),
}

#[derive(Clone, Copy, Debug, PartialEq, Eq)]
pub enum FileFault {
    Row(RowFault),
    // a row that must be there is missing
    Missing,
    // a table is too short for the content
    TableShort,
}

// A refusal's number, and its row and field, 0 where there is none.
#[derive(Clone, Copy, Debug, PartialEq, Eq)]
pub struct Refusal {
    pub number: u8,
    pub row: usize,
    pub field: usize,
}

impl From<FieldRefusal> for RowFault {
    ghost from_gives = { λ f r. r ≡ Field f };

    fn from(f: FieldRefusal) -> RowFault {
        RowFault::Field(f)
    }
}

impl From<RowFault> for FileFault {
    ghost from_gives = { λ f r. r ≡ Row f };

    fn from(f: RowFault) -> FileFault {
        FileFault::Row(f)
    }
}

// A fault taken apart into its number, row and field. The variants hold places, so their numbers are no discriminants.
impl From<FileFault> for Refusal {
    ghost from_gives = { λ f r. r ≡ refusal_of f };

    fn from(fault: FileFault) -> Refusal {
        let (number, row, field) = match fault {
            FileFault::Row(RowFault::Unended(row)) => (31, row, 0),
            FileFault::Row(RowFault::Length(row)) => (21, row, 0),
            FileFault::Row(RowFault::Letter(row)) => (22, row, 0),
            FileFault::Row(RowFault::Field(FieldRefusal { place, cause })) => (
                cause.number(),
                place.row,
                place.field,
            ),
            FileFault::Row(RowFault::Count(row)) => (23, row, 0),
            FileFault::Row(RowFault::Range(place)) => (24, place.row, place.field),
            FileFault::Row(RowFault::TooMany(row)) => (32, row, 0),
            FileFault::Missing => (33, 0, 0),
            FileFault::TableShort => (34, 0, 0),
        };
        Refusal { number, row, field }
    }
}

impl fmt::Display for RowFault {
    ghost output = { λ fault. Some (row_fault_text fault) };

    fn fmt<W: fmt::Write>(&self, f: &mut fmt::Formatter<W>) -> fmt::Result {
        match self {
            RowFault::Unended(row) => write!(f, "31: no byte 10 ends row {row}"),
            RowFault::Length(row) => write!(f, "21: row {row} is not a letter and whole fields"),
            RowFault::Letter(row) => write!(
                f,
                "22: the letter of row {row} is unknown or out of place"
            ),
            RowFault::Field(FieldRefusal { place, cause }) => write!(f, "{cause}: {place}"),
            RowFault::Count(row) => write!(f, "23: too few fields or too many in row {row}"),
            RowFault::Range(place) => write!(f, "24: a number is outside its range: {place}"),
            RowFault::TooMany(row) => write!(
                f,
                "32: row {row} or a pin of it is beyond the maximum"
            ),
        }
    }
}

impl Error for RowFault {}

impl fmt::Display for FileFault {
    ghost output = { λ fault. Some (file_fault_text fault) };

    fn fmt<W: fmt::Write>(&self, f: &mut fmt::Formatter<W>) -> fmt::Result {
        match self {
            FileFault::Row(fault) => write!(f, "{fault}"),
            FileFault::Missing => write!(f, "33: a row that must be there is missing"),
            FileFault::TableShort => write!(f, "34: a table is too short for the content"),
        }
    }
}

impl Error for FileFault {}

#[derive(Clone, Copy, Debug, PartialEq, Eq)]
pub enum WriteFault {
    // no accepted file holds the content
    Content = 38,
    // the buffer is too short for the file
    Short = 37,
}

impl WriteFault {
    pub fn number(self) -> u8
        ensures answer { result ≡ write_number self }
    {
        self as u8
    }
}

impl fmt::Display for WriteFault {
    ghost output = { λ fault. Some (write_fault_text fault) };

    fn fmt<W: fmt::Write>(&self, f: &mut fmt::Formatter<W>) -> fmt::Result {
        match self {
            WriteFault::Content => write!(f, "38: no accepted file holds the content"),
            WriteFault::Short => write!(f, "37: the buffer is too short for the file"),
        }
    }
}

impl Error for WriteFault {}
