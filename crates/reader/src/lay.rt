// A row's numbers laid into the lent tables, at the places that the header counts. A file's letters and stages are data of the file, so a row is matched on them.
ghost use Rattle.std.specs.Prelude.{◌≡◌, ◌≤◌};
ghost use Rattle.figure.specs.Rules.{letter_N};
ghost use Rattle.reader.specs.Answers.{Fit, FitAt};
ghost use Rattle.reader.specs.Laid.{laid, laid_at};
ghost use Rattle.reader.specs.Lent.{Same, held};

use crate::progress::Progress;
use crate::row::{Row, number_at};
use crate::tables::{Tables, lay_bits, lay_numbers, store};
use figure::header::{Header, Weld};
use figure::stage::Stage;
use nets::net::Net;

impl Tables<'_> {
    // A net, and its pins.
    fn lay_net(&mut self, header: Header, row: Row<'_>)
        requires early { header.pins ≤ 4000 }
        requires fit { Fit header letter_N row.numbers.now }
        ensures same { Same self.old self.new }
        ensures after { held self.new ≡ laid header letter_N row.entry.numbers.now (held self.old) }
    {
        let named = &row.numbers[1..];
        let net = Net {
            weight: row.numbers[0] as u32,
            first: header.pins,
            count: named.len(),
        };
        store(self.nets, header.nets, net);
        lay_numbers(self.pins, header.pins, named);
    }

    // A row of the file. The first two have no place in the tables.
    pub(crate) fn lay(&mut self, progress: Progress, row: Row<'_>)
        requires fit { FitAt progress.stage row.letter row.numbers.now }
        ensures same { Same self.old self.new }
        ensures after { held self.new ≡ laid_at progress.stage row.entry.letter row.entry.numbers.now (held self.old) }
    {
        let Stage::Body(header) = progress.stage else {
            return;
        };
        match row.letter {
            b'N' => self.lay_net(header, row),
            b'C' => lay_numbers(self.closeness, header.closeness, row.numbers),
            b'B' => lay_bits(self.columns, header.rows, row.numbers),
            _ => {
                let a = number_at(row.numbers, 0) as usize;
                let b = number_at(row.numbers, 1) as usize;
                store(self.welds, header.welds, Weld { a, b });
            }
        }
    }
}
