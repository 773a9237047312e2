// A row of a file.
ghost use Rattle.std.specs.Prelude.{◌≡◌, ◌≤◌, length, slice_index};

// The most numbers of a row: a weight and 80 pins.
pub(crate) const MOST: usize = 81;

// A row's letter, and the numbers of its fields.
#[derive(Clone, Copy)]
pub(crate) struct Row<'a> {
    pub letter: u8,
    pub numbers: &'a [u64],
    ghost short: { length numbers.now ≤ 81 },
}

// The number at a place, or 0 where there is none, as the definitions read a row.
pub(crate) fn number_at(numbers: &[u64], at: usize) -> u64
    ensures answer { result ≡ slice_index numbers.now at }
{
    numbers.get(at).copied().unwrap_or(0)
}
