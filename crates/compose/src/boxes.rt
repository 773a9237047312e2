// The boxes of a fold: which box each part lies in.
ghost use Rattle.std.specs.Prelude.{◌≡◌, ◌≤◌, length, take, Ok, Err, MatchResult};
ghost use Rattle.compose.specs.Fold.{Sound, all_below, all_full, holds, spread, verdict};

use measure::fault::{MakingFault, Refused};
use measure::limits::count_fits;

// For each part the number of its box, and how many boxes there are.
#[derive(Drop)]
pub struct Boxes {
    pub(crate) of: Vec<u8>,
    pub(crate) count: usize,
    ghost fit: { Sound count of.items },
}

// One chain, as for the pins of nets: a function for both in a crate below would be no plainer.
fn all_below(of: &[u8], m: usize) -> bool
    ensures answer { result ≡ all_below m of.now }
{
    of.iter().all(|b| usize::from(*b) < m)
}

// Has the box a part?
fn holds(of: &[u8], number: usize) -> bool
    ensures answer { result ≡ holds of.now number }
{
    of.iter().any(|b| usize::from(*b) == number)
}

fn all_full(of: &[u8], m: usize) -> bool
    ensures answer { result ≡ all_full m of.now }
{
    (0..m).all(|number| holds(of, number))
}

// n parts in m boxes.
fn check(n: usize, of: &[u8], m: usize) -> Result<(), MakingFault>
    ensures answer { result ≡ verdict n of.now m }
{
    if !count_fits(m) {
        return Err(MakingFault::Count);
    }
    if of.len() != n {
        return Err(MakingFault::TableLength);
    }
    if !all_below(of, m) {
        return Err(MakingFault::Entry);
    }
    if !all_full(of, m) {
        return Err(MakingFault::EmptyBox);
    }
    Ok(())
}

impl Boxes {
    // Lays n parts into m boxes, by a table of the box of each.
    pub(crate) fn make(n: usize, of: Vec<u8>, m: usize) -> Result<Boxes, Refused<Vec<u8>>>
        ensures cases { MatchResult result (λ b. (verdict n of.items m ≡ Ok tt) × (b.of ≡ of) × (b.count ≡ m)) (λ e. (verdict n of.items m ≡ Err e.fault) × (e.given ≡ of)) }
    {
        if let Err(fault) = check(n, of.as_slice(), m) {
            return Err(Refused { fault, given: of });
        }
        Ok(Boxes { of, count: m })
    }

    // The row of the parts, at the front of a buffer for the most there may be, as a question asks for no memory: each bears its box's mark.
    pub(crate) fn spread(&self, row: &[u8]) -> [u8; 80]
        requires few { length self.now.of.items ≤ 80 }
        requires long { length row.now ≡ self.now.count }
        ensures full { length result ≡ 80 }
        ensures answer { take (length self.now.of.items) result ≡ spread self.now.of.items row.now }
    {
        let mut wide = [0u8; 80];
        // by index: of what is written through `iter_mut` a proof knows only the length
        for (i, b) in self.of.iter().enumerate() {
            wide[i] = row[usize::from(*b)];
        }
        wide
    }
}
