// How many digits a number has, and how many a field has room for.
ghost use Rattle.std.specs.Prelude.{◌≡◌, ◌<◌, true, length, decimal};
ghost use Rattle.columns.specs.Field.{fits, room};

// The most columns of a field.
const WIDEST: usize = 19;

// The most digits of a number in a field of so many columns.
pub(crate) fn room(width: usize) -> usize
    ensures answer { result ≡ room width }
{
    match width {
        1..=WIDEST => width - 1,
        _ => 0,
    }
}

#[tactic(auto, using(crate::proofs::Counts::digits_by_power))]
fn digit_count(v: u64) -> usize
    ensures answer { result ≡ length (decimal v) }
    ensures some { 0 < result }
{
    v.max(1).ilog10() as usize + 1
}

// Has the number room in a field of so many columns?
pub fn fits(width: usize, v: u64) -> bool
    ensures answer { result ≡ fits width v }
    ensures blank { result ≡ true → (0 < length (decimal v)) × (length (decimal v) < width) }
{
    digit_count(v) <= room(width)
}
