// The rows of a file from the first on, read and laid into tables.
ghost use Rattle.std.specs.Prelude.{◌≡◌, IfOk, Ok};
ghost use Rattle.figure.specs.Cut.{and_then, cut};
ghost use Rattle.figure.specs.Rules.{row_of};
ghost use Rattle.reader.specs.Answers.{Few};
ghost use Rattle.reader.specs.Laid.{laid_at, laid_rows, moved, on_row, walked};
ghost use Rattle.reader.specs.Lent.{Same, held};

use crate::cut::next_row;
use crate::format::Format;
use crate::progress::Progress;
use crate::reading::read_row;
use crate::row::MOST;
use crate::tables::Tables;
use figure::fault::{FileFault, RowFault};
use figure::stage::Stage;

// Reads a row, lays it into the tables, and answers the stage after it.
fn take_row(
    format: Format,
    progress: Progress,
    text: &[u8],
    tables: &mut Tables<'_>,
) -> Result<Stage, RowFault>
    ensures answer { result ≡ and_then (row_of format.width format.largest progress.row progress.stage text.now) (λ o. Ok (moved progress.stage o.0 o.1)) }
    ensures few { IfOk result Few }
    ensures same { Same tables.old tables.new }
    ensures after { held tables.new ≡ on_row (row_of format.width format.largest progress.row progress.stage text.now) (held tables.old) (λ o. laid_at progress.stage o.0 o.1 (held tables.old)) }
{
    // as many as a row may have, since reading asks for no memory
    let mut numbers = [0; MOST];
    let row = read_row(format, progress, text, &mut numbers)?;
    tables.lay(progress, row);
    Ok(progress.stage_after(row))
}

// Reads the rows from the first on, lays them into the tables, and answers the last stage. Past a table's end nothing is laid, so that empty tables serve to check a file.
pub(crate) fn walk(
    format: Format,
    bytes: &[u8],
    tables: &mut Tables<'_>,
) -> Result<Stage, FileFault>
    ensures answer { result ≡ walked format.width format.largest 1 Stage.Start (cut bytes.now) }
    ensures same { Same tables.old tables.new }
    ensures after { held tables.new ≡ laid_rows format.width format.largest 1 Stage.Start (cut bytes.now) (held tables.old) }
{
    // Row by row, and counted by hand: what follows the last byte 10 is no row, which a `for` over pieces would have to find out first.
    let mut left = bytes;
    let mut row = 1;
    let mut stage = Stage::Start;
    while let Some((text, after)) = next_row(left, row)? {
        stage = take_row(format, Progress { row, stage }, text, tables)?;
        left = after;
        row += 1;
    }
    Ok(stage)
}
