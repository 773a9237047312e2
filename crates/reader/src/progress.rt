// How far a file is read.
ghost use Rattle.reader.specs.Answers.{Few};

use figure::stage::Stage;

// The row that is next, counted from 1, and what the rows before it have been.
#[derive(Clone, Copy)]
pub(crate) struct Progress {
    pub row: usize,
    pub stage: Stage,
    ghost few: { Few stage },
}
