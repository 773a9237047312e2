// A number in its own columns of a longer row.
ghost use Rattle.std.specs.Prelude.{◌≡◌, ◌+◌, ◌<◌, ◌≤◌, true, ◌++◌, length, take, drop, Ok, decimal};
ghost use Rattle.std.specs.List.{between};
ghost use Rattle.columns.specs.Field.{field, settled};
ghost use Rattle.columns.specs.Number.{number};
ghost use Rattle.columns.specs.Row.{places, placed};

use crate::fault::NoRoom;
use crate::width::fits;
use crate::write::lay;

// Lends the columns to the digit writer, by index: after a write through `get_mut` a proof knows only how many there are.
#[tactic(auto, using(crate::proofs::Lending::lent))]
fn lend(row: &mut [u8], at: usize, width: usize, v: u64)
    requires inside { at + width ≤ length row.old }
    requires some { 0 < width }
    requires room { length (decimal v) ≤ width }
    ensures after { row.new ≡ take at row.old ++ (field width v ++ drop (at + width) row.old) }
{
    lay(&mut row[at..at + width], v);
}

// Sets the number into so many columns from `at` on. All else in the row stays, and a refusal leaves it as it was.
#[tactic(auto, using(crate::proofs::Lending::lent_reads_back))]
pub fn put(row: &mut [u8], at: usize, width: usize, v: u64) -> Result<(), NoRoom>
    ensures answer { result ≡ settled (places (length row.old) at width v) }
    ensures after { row.new ≡ placed row.old at width v }
    ensures back { places (length row.old) at width v ≡ true → number (between at (at + width) row.new) ≡ Ok v }
{
    if at > row.len() || width > row.len() - at || !fits(width, v) {
        return Err(NoRoom);
    }
    lend(row, at, width, v);
    Ok(())
}
