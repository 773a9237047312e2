// The columns of a matrix of zeros and ones, one for each part: what a making lets through, and the rank of a side.
ghost use Rattle.std.specs.Prelude.{◌≡◌, ℕ, ◌+◌, ◌^◌, ◌≤◌, List, length, take, Ok, Err, MatchResult, nat_lt};
ghost use Rattle.measure.specs.Asked.{asked};
ghost use Rattle.measure.specs.Rows.{complement};
ghost use Rattle.coder.specs.Connectivity.{connectivity, whole};
ghost use Rattle.coder.specs.Making.{Sound, columns_fit, verdict};
ghost use Rattle.coder.specs.Rank.{rank};

use crate::rank::{rank_of, rank_of_all};
use measure::fault::{MakingFault, Refused, RowFault};
use measure::limits::count_fits;
use measure::row::check_row;

const MOST_ROWS: usize = 64;

// Nothing that a making refuses is ever held. The rank of all is kept: no side and its other parts have less between them.
#[derive(Drop)]
pub struct Columns {
    pub(crate) parts: usize,
    pub(crate) rows: usize,
    pub(crate) words: Vec<u64>,
    pub(crate) total: usize,
    ghost sound: { Sound parts rows words.items },
    ghost ranked: { total ≡ rank words.items (whole parts) },
    ghost covered: { (row : List ℕ) → length row ≡ parts → total ≤ rank words.items row + rank words.items (complement row) },
}

// Are all bits of the column below this number of rows?
fn column_fits(column: u64, rows: usize) -> bool
    requires few { rows ≤ 64 }
    ensures answer { result ≡ nat_lt column (2 ^ rows) }
{
    rows == MOST_ROWS || column < 1 << rows
}

fn columns_fit(columns: &[u64], rows: usize) -> bool
    requires few { rows ≤ 64 }
    ensures answer { result ≡ columns_fit rows columns.now }
{
    columns.iter().all(|column| column_fits(*column, rows))
}

fn check(n: usize, rows: usize, columns: &[u64]) -> Result<(), MakingFault>
    ensures answer { result ≡ verdict n rows columns.now }
{
    if !count_fits(n) {
        return Err(MakingFault::Count);
    }
    if rows > MOST_ROWS {
        return Err(MakingFault::TooMany);
    }
    if columns.len() != n {
        return Err(MakingFault::TableLength);
    }
    if !columns_fit(columns, rows) {
        return Err(MakingFault::Entry);
    }
    Ok(())
}

// The marks of the other parts, at the front of a buffer for the most parts there may be: a question asks for no memory.
fn others_of(row: &[u8]) -> [u8; 80]
    requires few { length row.now ≤ 80 }
    ensures answer { take (length row.now) result ≡ complement row.now }
{
    let mut others = [0u8; 80];
    // by index: of what is written through `iter_mut` a proof knows only the length
    for (i, mark) in row.iter().enumerate() {
        others[i] = u8::from(*mark == 0);
    }
    others
}

// The row of a question is the caller's slice, so its length is asked by each method, and is no fact of a type.
impl Columns {
    // Every column is checked first, and a refusal hands them back as they were.
    pub fn make(parts: usize, rows: usize, columns: Vec<u64>) -> Result<Columns, Refused<Vec<u64>>>
        ensures cases { MatchResult result (λ m. (verdict parts rows columns.items ≡ Ok tt) × (m.parts ≡ parts) × (m.rows ≡ rows) × (m.words ≡ columns)) (λ e. (verdict parts rows columns.items ≡ Err e.fault) × (e.given ≡ columns)) }
    {
        if let Err(fault) = check(parts, rows, columns.as_slice()) {
            return Err(Refused {
                fault,
                given: columns,
            });
        }
        let total = rank_of_all(columns.as_slice());
        Ok(Columns {
            parts,
            rows,
            words: columns,
            total,
        })
    }

    // The rank of a side; its row has a mark for each part.
    fn rank_of_side(&self, row: &[u8]) -> usize
        requires long { length row.now ≡ self.now.parts }
        ensures answer { result ≡ rank self.now.words.items row.now }
        ensures few { result ≤ 80 }
    {
        rank_of(self.words.as_slice(), row)
    }

    // The rank of the parts that a row marks. What is no row of marks is refused as a cost question refuses it.
    pub fn rank(&self, row: &[u8]) -> Result<usize, RowFault>
        ensures answer { result ≡ asked self.now.parts (rank self.now.words.items) row.now }
    {
        check_row(self.parts, row)?;
        Ok(self.rank_of_side(row))
    }

    // A side's rank, plus the rank of the other parts, minus the rank of all; its row has a mark for each part.
    pub(crate) fn connectivity(&self, row: &[u8]) -> usize
        requires long { length row.now ≡ self.now.parts }
        ensures answer { result ≡ connectivity (rank self.now.words.items) self.now.parts row.now }
    {
        let others = others_of(row);
        let side = self.rank_of_side(row);
        let rest = self.rank_of_side(&others[..row.len()]);
        side + rest - self.total
    }
}
