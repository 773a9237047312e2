// A net: its weight, the place of its first pin in the pin list, and its number of pins. Each pin names a part.
ghost use Rattle.std.specs.Prelude.{◌≡◌};

// The nets share one pin list, as the two flat tables that a caller hands over do: a list in each net would be a block of memory for each.
#[derive(Clone, Copy, Debug, PartialEq, Eq)]
pub struct Net {
    pub weight: u32,
    pub first: usize,
    pub count: usize,
}

impl Net {
    pub fn new(weight: u32, first: usize, count: usize) -> Net
        ensures weight { result.weight ≡ weight }
        ensures first { result.first ≡ first }
        ensures count { result.count ≡ count }
    {
        Net {
            weight,
            first,
            count,
        }
    }
}
