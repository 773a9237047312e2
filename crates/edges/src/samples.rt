// What several tests make or ask: nets, costs, small figures, and how a making was refused.
use cost::kind::CostKind;
use cost::line::Line;
use cost::pair::Pair;
use cost::whole::Whole;
use measure::fault::Refused;
use nets::net::Net;
use nets::nets::Nets;
use std::alloc::Global;
use std::test::Fail;

pub(crate) fn whole(value: u64) -> Whole {
    Whole { value }
}

pub(crate) fn pair(first: u64, second: u64) -> Pair {
    Pair {
        first: whole(first),
        second: whole(second),
    }
}

// Has the line these groups and this amount? By the order of its kind, since costs have no equality.
pub(crate) fn is_line<C: CostKind>(line: Line<C>, t: u8, u: u8, cost: C) -> bool {
    line.t == t && line.u == u && line.cost.at_most(cost) && cost.at_most(line.cost)
}

// The number of a making's refusal; None where the measure is made.
pub(crate) fn refusal<M: Drop, T: Drop>(made: Result<M, Refused<T>>) -> Option<u8> {
    match made {
        Ok(_) => None,
        Err(refused) => Some(refused.fault.number()),
    }
}

// Four parts, and a net of three of them.
pub(crate) fn four(heap: Global) -> Result<Nets, Fail> {
    let nets = vec![in heap;
        Net::new(3, 0, 2),
        Net::new(1, 2, 2),
        Net::new(2, 4, 2),
        Net::new(1, 6, 3),
    ]?;
    Nets::make(4, nets, vec![in heap; 0u8, 1, 1, 2, 2, 3, 0, 2, 3]?).map_err(|_| Fail::new(
        "nets refused",
    ))
}
