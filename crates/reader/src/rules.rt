// The rule of each row. A file's letters and stages are data of the file, so a row is matched on them.
ghost use Rattle.std.specs.Prelude.{◌≡◌, ◌<◌, not, length, position, IfSome};
ghost use Rattle.figure.specs.Kinds.{kind_of, multipliers as multipliers'};
ghost use Rattle.figure.specs.Rules.{body_rule, has_room, in_place, judged, outside as outside', range as range', rule as rule', rule_of, within as within'};
ghost use Rattle.reader.specs.Answers.{forget};

use crate::format::Format;
use crate::progress::Progress;
use crate::row::{MOST, Row, number_at};
use figure::fault::{Place, RowFault};
use figure::header::Kind;
use figure::rule::{Range, Rule};
use figure::stage::Stage;

fn range(low: u64, high: u64) -> Range
    ensures answer { result ≡ range' low high }
{
    Range { low, high }
}

fn rule(fewest: usize, most: usize, first: Range, rest: Range) -> Rule
    ensures answer { result ≡ rule' fewest most first rest }
{
    Rule {
        fewest,
        most,
        first,
        rest,
    }
}

// The kind with a number. Any other number is outside the row's range, and counts as the last kind's.
pub(crate) fn kind_of(number: u64) -> Kind
    ensures answer { result ≡ kind_of number }
{
    Kind::try_from(number).unwrap_or(Kind::Tie)
}

fn multipliers(kind: Kind) -> Range
    ensures answer { result ≡ multipliers' kind }
{
    match kind {
        Kind::Sum => range(1, 1000),
        _ => range(0, 0),
    }
}

// The rule of a row after the first two.
fn body_rule(largest: u64, n: usize, letter: u8) -> Rule
    ensures answer { result ≡ body_rule largest n letter }
{
    let entry = range(0, largest);
    let part = range(0, n.saturating_sub(1) as u64);
    let bit = range(0, 1);
    match letter {
        b'N' => rule(2, MOST, entry, part),
        b'C' => rule(n, n, entry, entry),
        b'B' => rule(n, n, bit, bit),
        _ => rule(2, 2, part, part),
    }
}

fn is_within(range: Range, number: u64) -> bool
    ensures answer { result ≡ within' range number }
{
    (range.low <= number) & (number <= range.high)
}

// The place of the first number outside the range.
fn first_stray(range: Range, numbers: &[u64]) -> Option<usize>
    ensures answer { result ≡ position (λ v. not (within' range v)) numbers.now }
    ensures inside { IfSome result (λ i. i < length numbers.now) }
{
    numbers.iter().position(|number| !is_within(range, *number))
}

// The field of a row's first number outside its range.
#[tactic(auto, using(crate::proofs::Strays::outside_is))]
fn first_outside(rule: Rule, row: Row<'_>) -> Option<usize>
    ensures answer { result ≡ outside' rule row.entry.numbers.now }
{
    match row.numbers {
        [] => None,
        [first, ..] if !is_within(rule.first, *first) => Some(1),
        [_, rest @ ..] => Some(first_stray(rule.rest, rest)? + 2),
    }
}

impl Progress {
    // May a row with this letter come now?
    pub(crate) fn is_in_place(self, letter: u8) -> bool
        ensures answer { result ≡ in_place self.stage letter }
    {
        match self.stage {
            Stage::Start => letter == b'F',
            Stage::Sized(_) => letter == b'M',
            Stage::Body(header) => match letter {
                b'N' => (header.closeness == 0) & (header.rows == 0) & (header.welds == 0),
                b'C' => (header.rows == 0) & (header.welds == 0),
                b'B' => header.welds == 0,
                _ => letter == b'W',
            },
        }
    }

    fn rule(self, format: Format, row: Row<'_>) -> Rule
        ensures answer { result ≡ rule_of format.largest self.stage row.entry.letter row.entry.numbers.now }
    {
        match self.stage {
            Stage::Start => rule(1, 1, range(2, 80), range(2, 80)),
            Stage::Sized(_) => rule(
                3,
                3,
                range(1, 5),
                multipliers(kind_of(number_at(row.numbers, 0))),
            ),
            Stage::Body(header) => body_rule(format.largest, header.n, row.letter),
        }
    }

    // Has the row as many numbers as its rule wants, each in its range?
    pub(crate) fn judge(self, format: Format, row: Row<'_>) -> Result<(), RowFault>
        ensures answer { result ≡ forget (judged self.row (rule_of format.largest self.stage row.entry.letter row.entry.numbers.now) row.entry.numbers.now) }
    {
        let rule = self.rule(format, row);
        if row.numbers.len() < rule.fewest || row.numbers.len() > rule.most {
            return Err(RowFault::Count(self.row));
        }
        match first_outside(rule, row) {
            Some(field) => Err(RowFault::Range(Place {
                row: self.row,
                field,
            })),
            None => Ok(()),
        }
    }

    // Is there room for one more row?
    pub(crate) fn has_room(self, row: Row<'_>) -> bool
        ensures answer { result ≡ has_room self.stage row.entry.letter (length row.entry.numbers.now) }
    {
        let Stage::Body(header) = self.stage else {
            return true;
        };
        match row.letter {
            b'N' => (header.nets < 500)
                & (header.pins + row.numbers.len().saturating_sub(1) <= 4000),
            b'C' => header.closeness < header.n * header.n,
            b'B' => header.rows < 64,
            _ => header.welds < 200,
        }
    }
}
