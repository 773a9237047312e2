// How a row moves the stage. A file's letters and stages are data of the file, so a row is matched on them.
ghost use Rattle.std.specs.Prelude.{◌≡◌};
ghost use Rattle.reader.specs.Laid.{moved};

use crate::progress::Progress;
use crate::row::{Row, number_at};
use crate::rules::kind_of;
use figure::header::Header;
use figure::stage::Stage;

// The header after the second row.
fn opening(n: usize, numbers: &[u64]) -> Header
    ensures answer { Stage.Body result ≡ moved (Stage.Sized n) 77 numbers.now }
{
    Header {
        n,
        kind: kind_of(number_at(numbers, 0)),
        p: number_at(numbers, 1),
        q: number_at(numbers, 2),
        nets: 0,
        pins: 0,
        closeness: 0,
        rows: 0,
        welds: 0,
    }
}

impl Progress {
    // The stage after a row.
    pub(crate) fn stage_after(self, row: Row<'_>) -> Stage
        ensures answer { result ≡ moved self.stage row.entry.letter row.entry.numbers.now }
    {
        let count = row.numbers.len();
        match self.stage {
            Stage::Start => Stage::Sized(number_at(row.numbers, 0) as usize),
            Stage::Sized(n) => Stage::Body(opening(n, row.numbers)),
            Stage::Body(header) => Stage::Body(match row.letter {
                b'N' => Header {
                    nets: header.nets + 1,
                    pins: header.pins + count.saturating_sub(1),
                    ..header
                },
                b'C' => Header {
                    closeness: header.closeness + count,
                    ..header
                },
                b'B' => Header {
                    rows: header.rows + 1,
                    ..header
                },
                _ => Header {
                    welds: header.welds + 1,
                    ..header
                },
            }),
        }
    }
}
