// The coder measure: connectivity by the rank of columns.
ghost use Rattle.std.specs.Prelude.{◌≡◌, Ok, Err, MatchResult};
ghost use Rattle.coder.specs.Connectivity.{connectivity};
ghost use Rattle.coder.specs.Making.{verdict};
ghost use Rattle.coder.specs.Rank.{rank};
ghost use Rattle.coder.specs.lemmas.Sides.{coder_fair};

use crate::columns::Columns;
use cost::whole::Whole;
use measure::fault::{Refused, RowFault};
use measure::measure::Measure;
use measure::row::check_row;

// A side costs its rank, plus the rank of the other parts, minus the rank of all. The ceiling is the number of matrix rows.
#[derive(Drop)]
pub struct Coder {
    pub(crate) columns: Columns,
}

impl Coder {
    pub fn make(parts: usize, rows: usize, columns: Vec<u64>) -> Result<Coder, Refused<Vec<u64>>>
        ensures cases { MatchResult result (λ m. (verdict parts rows columns.items ≡ Ok tt) × (m.columns.parts ≡ parts) × (m.columns.rows ≡ rows) × (m.columns.words ≡ columns)) (λ e. (verdict parts rows columns.items ≡ Err e.fault) × (e.given ≡ columns)) }
    {
        let columns = Columns::make(parts, rows, columns)?;
        Ok(Coder { columns })
    }
}

impl Measure for Coder {
    type Cost = Whole;

    ghost count = { λ m. m.columns.parts };

    ghost price = { λ m row. record { value = connectivity (rank m.columns.words.items) m.columns.parts row } };

    ghost top = { λ m. record { value = m.columns.rows } };

    ghost fair = { λ m. coder_fair m.columns.parts m.columns.rows m.columns.words.items m.columns.sound };

    fn parts(&self) -> usize {
        self.columns.parts
    }

    fn ceiling(&self) -> Whole {
        Whole {
            value: self.columns.rows as u64,
        }
    }

    fn cost(&self, row: &[u8]) -> Result<Whole, RowFault> {
        check_row(self.columns.parts, row)?;
        let value = self.columns.connectivity(row) as u64;
        Ok(Whole { value })
    }
}
