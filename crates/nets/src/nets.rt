// The cut of nets as a measure.
ghost use Rattle.std.specs.Prelude.{◌≡◌, Ok, Err, MatchResult};
ghost use Rattle.nets.specs.Cut.{cut, weights};
ghost use Rattle.nets.specs.Making.{verdict};
ghost use Rattle.nets.specs.lemmas.Laws.{cut_fair};

use crate::net::Net;
use crate::tables::Tables;
use cost::whole::Whole;
use measure::fault::{Refused, RowFault};
use measure::measure::Measure;
use measure::row::check_row;

// The ceiling is the sum of all weights.
#[derive(Drop)]
pub struct Nets {
    pub(crate) tables: Tables,
    pub(crate) ceiling: u64,
    ghost summed: { ceiling ≡ weights tables.nets.items },
}

impl Nets {
    // Every entry is checked first, and a refusal hands the tables back as they were.
    pub fn make(
        parts: usize,
        nets: Vec<Net>,
        pins: Vec<u8>,
    ) -> Result<Nets, Refused<(Vec<Net>, Vec<u8>)>>
        ensures cases { MatchResult result (λ m. (verdict parts nets.items pins.items ≡ Ok tt) × (m.tables.parts ≡ parts) × (m.tables.nets ≡ nets) × (m.tables.pins ≡ pins)) (λ e. (verdict parts nets.items pins.items ≡ Err e.fault) × (e.given.0 ≡ nets) × (e.given.1 ≡ pins)) }
    {
        let tables = Tables::make(parts, nets, pins)?;
        let ceiling = tables.total_weight();
        Ok(Nets { tables, ceiling })
    }
}

// The questions read as those of closeness do: a text for both would be no shorter than these lines.
impl Measure for Nets {
    type Cost = Whole;

    ghost count = { λ m. m.tables.parts };

    ghost price = { λ m row. record { value = cut m.tables.nets.items m.tables.pins.items row } };

    ghost top = { λ m. record { value = weights m.tables.nets.items } };

    ghost fair = { λ m. cut_fair m.tables.parts m.tables.nets.items m.tables.pins.items m.tables.sound };

    fn parts(&self) -> usize {
        self.tables.parts
    }

    fn ceiling(&self) -> Whole {
        Whole {
            value: self.ceiling,
        }
    }

    fn cost(&self, row: &[u8]) -> Result<Whole, RowFault> {
        check_row(self.tables.parts, row)?;
        let value = self.tables.cut(row);
        Ok(Whole { value })
    }
}
