// Why a field is not read, and why a number is not written.
ghost use Rattle.std.specs.Prelude.{◌≡◌, Some};
ghost use Rattle.columns.specs.Faults.{field_number, field_fault_text, no_room_text};

use std::error::Error;
use std::fmt;

#[derive(Clone, Copy, Debug, PartialEq, Eq)]
pub enum FieldFault {
    // nothing but blanks
    Blank = 11,
    // a byte that is neither blank nor digit, or a blank after a digit
    Stray = 12,
    // a zero before further digits
    LeadingZero = 13,
    // no column is left blank, or the field is wider than any
    Full = 14,
}

impl FieldFault {
    pub fn number(self) -> u8
        ensures answer { result ≡ field_number self }
    {
        self as u8
    }
}

impl fmt::Display for FieldFault {
    ghost output = { λ fault. Some (field_fault_text fault) };

    fn fmt<W: fmt::Write>(&self, f: &mut fmt::Formatter<W>) -> fmt::Result {
        match self {
            FieldFault::Blank => write!(f, "11: the field is blank"),
            FieldFault::Stray => write!(
                f,
                "12: a byte is neither blank nor digit, or a blank follows a digit"
            ),
            FieldFault::LeadingZero => write!(f, "13: the number has a leading zero"),
            FieldFault::Full => write!(f, "14: the field has no blank column"),
        }
    }
}

impl Error for FieldFault {}

// The number has no room in the field, or the field lies outside the row.
#[derive(Clone, Copy, Debug, PartialEq, Eq)]
pub struct NoRoom;

impl fmt::Display for NoRoom {
    ghost output = { λ _. Some no_room_text };

    fn fmt<W: fmt::Write>(&self, f: &mut fmt::Formatter<W>) -> fmt::Result {
        write!(
            f,
            "the number has no room in the field, or the field lies outside the row"
        )
    }
}

impl Error for NoRoom {}
