// The cut of a closeness table as a measure.
ghost use Rattle.std.specs.Prelude.{◌≡◌, Ok, Err, MatchResult};
ghost use Rattle.closeness.specs.Cut.{all_pairs, cut};
ghost use Rattle.closeness.specs.Making.{verdict};
ghost use Rattle.closeness.specs.lemmas.Laws.{cut_fair};

use crate::table::Table;
use cost::whole::Whole;
use measure::fault::{Refused, RowFault};
use measure::measure::Measure;
use measure::row::check_row;

// The ceiling is what all pairs cost.
#[derive(Drop)]
pub struct Closeness {
    pub(crate) table: Table,
    pub(crate) ceiling: u64,
    ghost summed: { ceiling ≡ all_pairs table.parts table.entries.items },
}

impl Closeness {
    // Every entry is checked first, and a refusal hands the table back as it was.
    pub fn make(parts: usize, table: Vec<u32>) -> Result<Closeness, Refused<Vec<u32>>>
        ensures cases { MatchResult result (λ m. (verdict parts table.items ≡ Ok tt) × (m.table.parts ≡ parts) × (m.table.entries ≡ table)) (λ e. (verdict parts table.items ≡ Err e.fault) × (e.given ≡ table)) }
    {
        let table = Table::make(parts, table)?;
        let ceiling = table.all_pairs();
        Ok(Closeness { table, ceiling })
    }
}

// The questions read as those of nets do: a text for both would be no shorter than these lines.
impl Measure for Closeness {
    type Cost = Whole;

    ghost count = { λ m. m.table.parts };

    ghost price = { λ m row. record { value = cut m.table.parts m.table.entries.items row } };

    ghost top = { λ m. record { value = all_pairs m.table.parts m.table.entries.items } };

    ghost fair = { λ m. cut_fair m.table.parts m.table.entries.items m.table.sound };

    fn parts(&self) -> usize {
        self.table.parts
    }

    fn ceiling(&self) -> Whole {
        Whole {
            value: self.ceiling,
        }
    }

    fn cost(&self, row: &[u8]) -> Result<Whole, RowFault> {
        check_row(self.table.parts, row)?;
        let value = self.table.cut(row);
        Ok(Whole { value })
    }
}
