// The rank of a side, by elimination.
ghost use Rattle.std.specs.Prelude.{◌≡◌, ℕ, ◌+◌, ◌≤◌, List, length};
ghost use Rattle.measure.specs.Rows.{complement};
ghost use Rattle.coder.specs.Connectivity.{whole};
ghost use Rattle.coder.specs.Rank.{rank};

// Each marked column is reduced by basis words until nothing is left of it or it joins them.
pub(crate) fn rank_of(columns: &[u64], row: &[u8]) -> usize
    requires long { length row.now ≡ length columns.now }
    ensures answer { result ≡ rank columns.now row.now }
    ensures few { result ≤ length columns.now }
{
    // a basis word stands at the place of its leading bit, the highest first, and 0, which is no basis word, where there is none; a question asks for no memory
    let mut basis = [0u64; 64];
    let mut size = 0;
    for (column, mark) in columns.iter().zip(row) {
        if *mark == 0 {
            continue;
        }
        let mut word = *column;
        // the place of the leading bit, once that is free; none if nothing is left of the column
        let free = loop {
            if word == 0 {
                break None;
            }
            let place = (63 - word.ilog2()) as usize;
            if basis[place] == 0 {
                break Some(place);
            }
            word ^= basis[place];
        };
        if let Some(place) = free {
            basis[place] = word;
            size += 1;
        }
    }
    size
}

// The rank of all parts, of which there are at most 80.
pub(crate) fn rank_of_all(columns: &[u64]) -> usize
    requires few { length columns.now ≤ 80 }
    ensures answer { result ≡ rank columns.now (whole (length columns.now)) }
    ensures covered { (row : List ℕ) → length row ≡ length columns.now → result ≤ rank columns.now row + rank columns.now (complement row) }
{
    // as many marks as there may be parts: no memory is asked for
    let all = [1u8; 80];
    rank_of(columns, &all[..columns.len()])
}
