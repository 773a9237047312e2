// Why a step on the groups is refused.
ghost use Rattle.std.specs.Prelude.{◌≡◌, Some};
ghost use Rattle.partition.specs.Numbers.{group_number};
ghost use Rattle.partition.specs.Texts.{group_text};

use std::error::Error;
use std::fmt;

#[derive(Clone, Copy, Debug, PartialEq, Eq)]
pub enum GroupFault {
    // a part that the figure has not
    Part = 41,
    // two different groups, while only two stand
    LastTwo = 42,
}

impl GroupFault {
    pub fn number(self) -> u8
        ensures answer { result ≡ group_number self }
    {
        self as u8
    }
}

impl fmt::Display for GroupFault {
    ghost output = { λ fault. Some (group_text fault) };

    fn fmt<W: fmt::Write>(&self, f: &mut fmt::Formatter<W>) -> fmt::Result {
        match self {
            GroupFault::Part => write!(f, "41: the figure has no such part"),
            GroupFault::LastTwo => write!(
                f,
                "42: only two groups stand, and the parts lie in different ones"
            ),
        }
    }
}

impl Error for GroupFault {}
