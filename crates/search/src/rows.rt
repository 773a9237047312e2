// Rows that the measure is asked about. The loops count the places: beside `zip`, `iter_mut` leaves no name for the row in their invariants.
ghost use Rattle.std.specs.Prelude.{◌≡◌, length};
ghost use Rattle.search.specs.Rows.{added, alone};

// Marks the parts of the group u, and no others.
pub(crate) fn mark_alone(names: &[u8], u: u8, row: &mut [u8])
    requires long { length row.old ≡ length names.now }
    ensures after { row.new ≡ alone names.now u }
{
    for (p, mark) in row.iter_mut().enumerate() {
        *mark = u8::from(names[p] == u);
    }
}

// Marks the parts of the group u beside those that the row marks.
pub(crate) fn mark_added(names: &[u8], u: u8, row: &mut [u8])
    requires long { length row.old ≡ length names.now }
    ensures after { row.new ≡ added names.now row.old u }
{
    for (p, mark) in row.iter_mut().enumerate() {
        *mark = u8::from(names[p] == u || *mark == 1);
    }
}
