// The limits that the makings share.
ghost use Rattle.std.specs.Prelude.{◌≡◌};
ghost use Rattle.measure.specs.Limits.{count_fits};

// The largest weight or entry of a table.
pub const LARGEST: u32 = 999_999;

// Is n a number of parts that a figure may have?
pub fn count_fits(n: usize) -> bool
    ensures answer { result ≡ count_fits n }
{
    2 <= n && n <= 80
}
