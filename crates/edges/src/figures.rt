// Figures worked by hand, split under each measure and under measures made of measures.
use crate::samples::{four, is_line, pair, whole};
use closeness::closeness::Closeness;
use coder::coder::Coder;
use compose::fold::Fold;
use compose::sum::Sum;
use compose::tie::Tie;
use cost::line::Line;
use measure::measure::Measure;
use nets::net::Net;
use nets::nets::Nets;
use plan::plan::Plan;
use std::alloc::Global;
use std::test::Fail;

// The best line, the row, and both lines of a split of three parts.
fn split<M: Measure + Drop>(measure: M) -> Result<(usize, [u8; 3], [Line<M::Cost>; 2]), Fail> {
    let mut row = [9u8; 3];
    let mut lines = [Line {
        t: 9,
        u: 9,
        cost: measure.ceiling(),
    }; 2];
    let plan = Plan::new(measure);
    let found = plan
        .split(&mut row, &mut lines)
        .map_err(|_| Fail::new("refused"))?;
    Ok((found.best, row, lines))
}

// Three parts, a net of weight 1 between any two.
fn triangle(heap: Global) -> Result<Nets, Fail> {
    let nets = vec![in heap; Net::new(1, 0, 2), Net::new(1, 2, 2), Net::new(1, 4, 2)]?;
    let pins = vec![in heap; 0u8, 1, 0, 2, 1, 2]?;
    Nets::make(3, nets, pins).map_err(|_| Fail::new("nets refused"))
}

// Parts 0 and 1 at 4, parts 0 and 2 at 1.
fn near(heap: Global) -> Result<Closeness, Fail> {
    Closeness::make(3, vec![in heap; 0u32, 4, 1, 0, 0, 0, 0, 0, 0]?).map_err(|_| Fail::new(
        "closeness refused",
    ))
}

#[test]
fn columns_one_two_three(rt: HostRuntime) -> Result<(), Fail> {
    let Ok(coder) = Coder::make(3, 2, vec![in rt.alloc(); 1u64, 2, 3]?) else {
        return Err(Fail::new("coder refused"));
    };
    let (best, _, [first, second]) = split(coder)?;
    assert_eq!(rt; best, 1);
    assert!(rt; is_line(first, 1, 2, whole(1)) && is_line(second, 0, 1, whole(1)));
    Ok(())
}

#[test]
fn a_sum(rt: HostRuntime) -> Result<(), Fail> {
    let Ok(sum) = Sum::make(triangle(rt.alloc())?, near(rt.alloc())?, 2, 3) else {
        return Err(Fail::new("sum refused"));
    };
    let (_, _, [first, second]) = split(sum)?;
    assert!(rt; is_line(first, 1, 2, whole(7)) && is_line(second, 0, 1, whole(19)));
    Ok(())
}

#[test]
fn a_tie(rt: HostRuntime) -> Result<(), Fail> {
    let Ok(tie) = Tie::make(triangle(rt.alloc())?, near(rt.alloc())?) else {
        return Err(Fail::new("tie refused"));
    };
    let (best, _, [first, second]) = split(tie)?;
    assert_eq!(rt; best, 1);
    assert!(rt; is_line(first, 1, 2, pair(2, 1)) && is_line(second, 0, 1, pair(2, 5)));
    Ok(())
}

// Four parts in three boxes: a fold of a tie of a sum.
#[test]
fn a_pile(rt: HostRuntime) -> Result<(), Fail> {
    let heap = rt.alloc();
    let Ok(near) = Closeness::make(
        4,
        vec![in heap; 0u32, 2, 0, 4, 0, 0, 5, 0, 0, 0, 0, 1, 0, 0, 0, 0]?,
    ) else {
        return Err(Fail::new("closeness refused"));
    };
    let Ok(sum) = Sum::make(four(heap)?, near, 2, 3) else {
        return Err(Fail::new("sum refused"));
    };
    let Ok(tie) = Tie::make(sum, four(heap)?) else {
        return Err(Fail::new("tie refused"));
    };
    let Ok(fold) = Fold::make(tie, vec![in heap; 0u8, 0, 1, 2]?, 3) else {
        return Err(Fail::new("fold refused"));
    };
    let (best, row, [first, second]) = split(fold)?;
    assert_eq!(rt; best, 1);
    assert_eq!(rt; row, [0, 0, 1]);
    assert!(rt; is_line(first, 1, 2, pair(21, 3)) && is_line(second, 0, 1, pair(31, 2)));
    Ok(())
}

#[test]
fn a_fold(rt: HostRuntime) -> Result<(), Fail> {
    let Ok(fold) = Fold::make(four(rt.alloc())?, vec![in rt.alloc(); 0u8, 0, 1, 2]?, 3) else {
        return Err(Fail::new("fold refused"));
    };
    let (best, row, [first, second]) = split(fold)?;
    assert_eq!(rt; best, 2);
    assert_eq!(rt; row, [0, 1, 1]);
    assert!(rt; is_line(first, 1, 2, whole(3)) && is_line(second, 0, 1, whole(2)));
    Ok(())
}
