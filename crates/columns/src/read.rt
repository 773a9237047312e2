// Reading a field.
ghost use Rattle.std.specs.Prelude.{◌≡◌, ◌==◌, ℕ, ◌≤◌, true, length, Ok};
ghost use Rattle.std.specs.Char.{is_ascii_digit};
ghost use Rattle.std.specs.List.{list_all, take_while};
ghost use Rattle.std.specs.Str.{all_ascii_digits};
ghost use Rattle.columns.specs.Field.{field, fits};
ghost use Rattle.columns.specs.Number.{judged, number, unblank, value};

use crate::fault::FieldFault;
use crate::width::room;

// How many blanks stand at the front.
fn blanks(piece: &[u8]) -> usize
    ensures answer { result ≡ length (take_while (λ b. b == 32) piece.now) }
{
    piece.iter().take_while(|byte| **byte == b' ').count()
}

fn all_digits(text: &[u8]) -> bool
    ensures answer { result ≡ list_all is_ascii_digit text.now }
{
    text.iter().all(|byte| byte.is_ascii_digit())
}

// The number that so few digits write that it fits. A fold would not do: its closure does not know that the total fits.
#[tactic(auto, using(crate::proofs::Reading::values))]
fn value(digits: &[u8]) -> u64
    requires all { all_ascii_digits digits.now ≡ true }
    requires few { length digits.now ≤ 18 }
    ensures answer { result ≡ value 0 digits.now }
{
    let mut v = 0;
    for digit in digits {
        v = v * 10 + u64::from(*digit - b'0');
    }
    v
}

// How a text without a blank at its front is read, where there is room for so many digits.
#[tactic(auto, using(crate::proofs::Reading::all_digits_is))]
fn judge(text: &[u8], room: usize) -> Result<u64, FieldFault>
    requires few { room ≤ 18 }
    ensures answer { result ≡ judged room text.now }
{
    match text {
        [] => Err(FieldFault::Blank),
        _ if !all_digits(text) => Err(FieldFault::Stray),
        [b'0', _, ..] => Err(FieldFault::LeadingZero),
        _ if text.len() > room => Err(FieldFault::Full),
        _ => Ok(value(text)),
    }
}

// The number in a field as wide as the piece.
#[tactic(auto, using(crate::proofs::Reading::reads))]
pub fn read(piece: &[u8]) -> Result<u64, FieldFault>
    ensures answer { result ≡ number piece.now }
    ensures written { (v : ℕ) → result ≡ Ok v → (fits (length piece.now) v ≡ true) × (piece.now ≡ field (length piece.now) v) }
{
    let n = blanks(piece);
    judge(&piece[n..], room(piece.len()))
}
