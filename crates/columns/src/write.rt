// Writing a field.
ghost use Rattle.std.specs.Prelude.{◌≡◌, ◌+◌, ◌%◌, ◌<◌, ◌≤◌, true, length, if◌then◌else◌, Ok, decimal, nat_eq};
ghost use Rattle.columns.specs.Field.{field, fits, settled};
ghost use Rattle.columns.specs.Number.{number};

use crate::fault::NoRoom;
use crate::width::fits;

// The last digit in the last column, and before it what is left of the number, or blanks where nothing is left.
#[tactic(auto, using(crate::proofs::Laying::lays))]
pub(crate) fn lay(out: &mut [u8], v: u64)
    requires room { length (decimal v) ≤ length out.old }
    ensures after { out.new ≡ field (length out.old) v }
{
    let last = out.len() - 1;
    out[last] = b'0' + (v % 10) as u8;
    if v < 10 {
        out[..last].fill(b' ');
    } else {
        lay(&mut out[..last], v / 10);
    }
}

// Fills the field, as wide as the slice; a number without room leaves it as it was.
#[tactic(auto, using(crate::proofs::Laws::written_reads_back))]
pub fn write(out: &mut [u8], v: u64) -> Result<(), NoRoom>
    ensures answer { result ≡ settled (fits (length out.old) v) }
    ensures after { out.new ≡ (if fits (length out.old) v then field (length out.old) v else out.old) }
    ensures back { fits (length out.old) v ≡ true → number out.new ≡ Ok v }
{
    if !fits(out.len(), v) {
        return Err(NoRoom);
    }
    lay(out, v);
    Ok(())
}
