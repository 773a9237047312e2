// A text cut into rows, and a row into its letter and what follows it.
ghost use Rattle.std.specs.Prelude.{◌≡◌, ◌+◌, ◌<◌, ◌==◌, [], ◌∷◌, length, position, MatchOption, MatchResult};
ghost use Rattle.figure.specs.Cut.{cut as cut', opened};
ghost use Rattle.figure.specs.declared.fault.RowFault.TheVariants.{Unended};
ghost use Rattle.reader.specs.Answers.{Gives};

use crate::format::Format;
use figure::fault::RowFault;

// The place of the first byte 10.
fn row_end(text: &[u8]) -> Option<usize>
    ensures answer { result ≡ position (λ b. b == 10) text.now }
{
    text.iter().position(|byte| *byte == 10)
}

// The next row and what follows its byte 10, or None at the end of the text.
#[tactic(auto, using(crate::proofs::Cuts::cuts))]
pub(crate) fn next_row(left: &[u8], row: usize) -> Result<Option<(&[u8], &[u8])>, RowFault>
    ensures answer { MatchResult result (λ o. MatchOption o (left.now ≡ []) (λ x. (cut' left.now ≡ x.0.now ∷ cut' x.1.now) × (length x.1.now < length left.now))) (λ e. (e ≡ Unended row) × (0 < length left.now) × (cut' left.now ≡ left.now ∷ [])) }
{
    if left.is_empty() {
        return Ok(None);
    }
    let Some(i) = row_end(left) else {
        return Err(RowFault::Unended(row));
    };
    Ok(Some((&left[..i], &left[i + 1..])))
}

// A row's letter and what follows it, which must be whole fields.
pub(crate) fn open_row(text: &[u8], format: Format, row: usize) -> Result<(u8, &[u8]), RowFault>
    ensures answer { Gives (λ x. (x.0, x.1.now)) result (opened format.width row text.now) }
{
    match text {
        [letter, rest @ ..] if rest.len() % format.width == 0 => Ok((*letter, rest)),
        _ => Err(RowFault::Length(row)),
    }
}
