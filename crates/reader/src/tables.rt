// The lent tables, and how single entries are set in them.
ghost use Rattle.std.specs.Prelude.{◌≡◌, ℕ, ◌+◌, ◌<◌, ◌≤◌, length, map, slice_index, slice_set};
ghost use Rattle.reader.specs.Answers.{set_from};
ghost use Rattle.reader.specs.Laid.{add_bits, plus_bit};

use figure::header::Weld;
use nets::net::Net;

// The tables that a figure is read into. Past a table's end nothing is set.
#[derive(Drop)]
pub(crate) struct Tables<'a> {
    pub nets: &'a mut [Net],
    pub pins: &'a mut [u8],
    pub closeness: &'a mut [u32],
    pub columns: &'a mut [u64],
    pub welds: &'a mut [Weld],
}

// An entry of a table, which holds the numbers up to its type's maximum.
pub(crate) trait Entry: Copy {
    ghost most: { ℕ };

    ghost holds: { ℕ → Self };

    fn of(number: u64) -> Self
        requires { number ≤ most }
        ensures { result ≡ holds number };
}

impl Entry for u8 {
    ghost most = { 255 };

    ghost holds = { λ n. n };

    fn of(number: u64) -> u8 {
        number as u8
    }
}

impl Entry for u32 {
    ghost most = { 4294967295 };

    ghost holds = { λ n. n };

    fn of(number: u64) -> u32 {
        number as u32
    }
}

// Sets the entry at a place, by index: after a write through `get_mut` a proof knows only the table's length.
pub(crate) fn store<T: Copy>(table: &mut [T], at: usize, value: T)
    ensures after { table.new ≡ slice_set table.old at value }
{
    if at < table.len() {
        table[at] = value;
    }
}

// Sets the numbers one after another, from a place on.
pub(crate) fn lay_numbers<T: Entry>(table: &mut [T], at: usize, numbers: &[u64])
    requires early { at ≤ 6480 }
    requires short { length numbers.now ≤ 81 }
    requires small { (k : ℕ) → k < length numbers.now → slice_index numbers.now k ≤ T.most }
    ensures after { table.new ≡ set_from at (map T.holds numbers.now) table.old }
{
    for (i, number) in numbers.iter().enumerate() {
        store(table, at + i, T::of(*number));
    }
}

// Bit i of one column.
fn add_bit(columns: &mut [u64], j: usize, i: usize, bit: u64)
    requires within { i < 64 }
    ensures after { columns.new ≡ slice_set columns.old j (plus_bit i (slice_index columns.old j) bit) }
{
    if j < columns.len() {
        columns[j] = columns[j].wrapping_add(bit << i);
    }
}

// Bit i of one column after another.
pub(crate) fn lay_bits(columns: &mut [u64], i: usize, numbers: &[u64])
    requires within { i < 64 }
    ensures after { columns.new ≡ add_bits i 0 numbers.now columns.old }
{
    for (j, number) in numbers.iter().enumerate() {
        add_bit(columns, j, i, *number);
    }
}
