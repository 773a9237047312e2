// One row of a file, read and checked.
ghost use Rattle.std.specs.Prelude.{◌≡◌, length};
ghost use Rattle.figure.specs.Cut.{and_then};
ghost use Rattle.figure.specs.Rules.{judged, roomed, row_of, rule_of};
ghost use Rattle.reader.specs.Answers.{Gives, forget};

use crate::cut::open_row;
use crate::fields::read_numbers;
use crate::format::Format;
use crate::progress::Progress;
use crate::row::{MOST, Row};
use figure::fault::RowFault;

// Do the row's numbers meet their rule, and is there room for one more row?
fn check_row(format: Format, progress: Progress, row: Row<'_>) -> Result<(), RowFault>
    ensures answer { result ≡ forget (and_then (judged progress.row (rule_of format.largest progress.stage row.entry.letter row.entry.numbers.now) row.entry.numbers.now) (roomed progress.row progress.stage row.entry.letter)) }
{
    progress.judge(format, row)?;
    if !progress.has_room(row) {
        return Err(RowFault::TooMany(progress.row));
    }
    Ok(())
}

// Reads a row, whose numbers stand in front of `numbers`.
pub(crate) fn read_row<'a>(
    format: Format,
    progress: Progress,
    text: &[u8],
    numbers: &'a mut [u64; MOST],
) -> Result<Row<'a>, RowFault>
    ensures answer { Gives (λ x. (x.letter, x.numbers.now)) result (row_of format.width format.largest progress.row progress.stage text.now) }
{
    let (letter, rest) = open_row(text, format, progress.row)?;
    if !progress.is_in_place(letter) {
        return Err(RowFault::Letter(progress.row));
    }
    let count = read_numbers(rest, format, progress.row, numbers)?;
    if count > MOST {
        return Err(RowFault::Count(progress.row));
    }
    let row = Row {
        letter,
        numbers: &numbers[..count],
    };
    check_row(format, progress, row)?;
    Ok(row)
}
