// The one check of a mark row, for every measure.
ghost use Rattle.std.specs.Prelude.{◌≡◌, nat_lt};
ghost use Rattle.std.specs.List.{position};
ghost use Rattle.measure.specs.Asked.{asked};

use crate::fault::RowFault;

// Where the first byte stands that is no mark, if there is one.
fn first_stray(row: &[u8]) -> Option<usize>
    ensures answer { result ≡ position (λ x. nat_lt 1 x) row.now }
{
    row.iter().position(|mark| *mark > 1)
}

// Is this a row of n marks?
pub fn check_row(n: usize, row: &[u8]) -> Result<(), RowFault>
    ensures answer { result ≡ asked n (λ _. tt) row.now }
{
    if row.len() != n {
        return Err(RowFault::Length);
    }
    match first_stray(row) {
        Some(i) => Err(RowFault::Mark(i)),
        None => Ok(()),
    }
}
