// A figure's table of closeness: what a making lets through, and what a row costs by it.
ghost use Rattle.std.specs.Prelude.{◌≡◌, ◌<◌, ◌≤◌, cond, length, Ok, Err, MatchResult, slice_index};
ghost use Rattle.std.specs.List.{list_all};
ghost use Rattle.closeness.specs.Cut.{all_pairs, cut, differs, row_cost, rows_cost};
ghost use Rattle.closeness.specs.Making.{Sound, entry_fits, verdict};

use measure::fault::{MakingFault, Refused};
use measure::limits::{LARGEST, count_fits};

// A row of `parts` entries for each part. Nothing that a making refuses is ever held.
#[derive(Drop)]
pub(crate) struct Table {
    pub(crate) parts: usize,
    pub(crate) entries: Vec<u32>,
    ghost sound: { Sound parts entries.items },
}

fn entries_fit(entries: &[u32]) -> bool
    ensures answer { result ≡ list_all entry_fits entries.now }
{
    entries.iter().all(|entry| *entry <= LARGEST)
}

fn check(n: usize, entries: &[u32]) -> Result<(), MakingFault>
    ensures answer { result ≡ verdict n entries.now }
{
    if !count_fits(n) {
        return Err(MakingFault::Count);
    }
    if entries.len() != n * n {
        return Err(MakingFault::TableLength);
    }
    if !entries_fit(entries) {
        return Err(MakingFault::Entry);
    }
    Ok(())
}

// The row of a question is the caller's slice, so its length is asked by each method, and is no fact of a type.
impl Table {
    pub(crate) fn make(parts: usize, entries: Vec<u32>) -> Result<Table, Refused<Vec<u32>>>
        ensures cases { MatchResult result (λ t. (verdict parts entries.items ≡ Ok tt) × (t.parts ≡ parts) × (t.entries ≡ entries)) (λ e. (verdict parts entries.items ≡ Err e.fault) × (e.given ≡ entries)) }
    {
        if let Err(fault) = check(parts, entries.as_slice()) {
            return Err(Refused {
                fault,
                given: entries,
            });
        }
        Ok(Table { parts, entries })
    }

    // What a pair costs: the entry at its place in the table, if its later part b differs from the mark. By a product: where a branch stands around the entry, the sum is several times slower.
    fn pair_cost(&self, row: &[u8], mark: u8, at: usize, b: usize) -> u32
        requires within { at < length self.now.entries.items }
        requires later { b < length row.now }
        ensures answer { result ≡ cond (differs row.now mark b) (slice_index self.now.entries.items at) 0 }
        ensures small { result ≤ 999999 }
    {
        self.entries[at] * u32::from(row[b] != mark)
    }

    // What part a's pairs with the later parts cost, as far as those differ from the mark. The beginning of a's row is worked out once.
    fn row_cost(&self, row: &[u8], mark: u8, a: usize) -> u32
        requires part { a < self.now.parts }
        requires long { self.now.parts ≤ length row.now }
        ensures answer { result ≡ row_cost self.now.parts self.now.entries.items (differs row.now mark) a }
    {
        let begin = a * self.parts;
        (a + 1..self.parts)
            .map(|b| self.pair_cost(row, mark, begin + b, b))
            .sum()
    }

    // What all parts' pairs with later parts cost, as far as those differ in the row from the earlier part's mark.
    fn rows_cost(&self, row: &[u8], marks: &[u8]) -> u64
        requires long { self.now.parts ≤ length row.now }
        requires marked { self.now.parts ≤ length marks.now }
        ensures answer { result ≡ rows_cost self.now.parts self.now.entries.items row.now marks.now }
    {
        (0..self.parts)
            .map(|a| u64::from(self.row_cost(row, marks[a], a)))
            .sum()
    }

    // What all pairs cost: no part of an empty row bears the mark 1, so each of them counts. Both rows are as long as there may be parts, since no memory is asked for.
    pub(crate) fn all_pairs(&self) -> u64
        ensures answer { result ≡ all_pairs self.now.parts self.now.entries.items }
    {
        self.rows_cost(&[0u8; 80], &[1u8; 80])
    }

    // The cost of a side; its row has a mark for each part.
    pub(crate) fn cut(&self, row: &[u8]) -> u64
        requires long { length row.now ≡ self.now.parts }
        ensures answer { result ≡ cut self.now.parts self.now.entries.items row.now }
    {
        self.rows_cost(row, row)
    }
}
