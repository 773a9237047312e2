// The numbers of a row's fields.
ghost use Rattle.std.specs.Prelude.{◌≡◌, ◌%◌, [], length};
ghost use Rattle.columns.specs.Number.{number};
ghost use Rattle.figure.specs.Cut.{numbers as numbers', pieces};
ghost use Rattle.reader.specs.Answers.{Kept, Refuses};

use crate::format::Format;
use crate::tables::store;
use columns::read::read;
use figure::fault::{FieldRefusal, Place, RowFault};

// The number in a piece of text, which is a field of a row.
fn read_field(piece: &[u8], row: usize, field: usize) -> Result<u64, FieldRefusal>
    ensures answer { Refuses row field result (number piece.now) }
{
    read(piece).map_err(|cause| FieldRefusal {
        place: Place { row, field },
        cause,
    })
}

// Reads the fields from the left, keeps as many numbers as there is room for, and answers how many fields there are.
pub(crate) fn read_numbers(
    rest: &[u8],
    format: Format,
    row: usize,
    numbers: &mut [u64],
) -> Result<usize, RowFault>
    requires whole { length rest.now % format.width ≡ 0 }
    ensures answer { Kept result numbers.old numbers.new (numbers' row 1 [] (pieces format.width rest.now)) }
{
    for (i, piece) in rest.chunks_exact(format.width).enumerate() {
        store(numbers, i, read_field(piece, row, i + 1)?);
    }
    Ok(rest.len() / format.width)
}
