use measure::measure::Measure;
use nets::net::Net;
use nets::nets::Nets;
use std::alloc::Global;
use std::test::Fail;

// The cost of a row, or the number of its refusal.
fn answer(figure: &Nets, row: &[u8]) -> Result<u64, u8> {
    figure
        .cost(row)
        .map(|cost| cost.counted())
        .map_err(|fault| fault.number())
}

// Three parts; the second net names part 1 twice.
fn figure(heap: Global) -> Result<Nets, Fail> {
    let nets = vec![in heap; Net::new(5, 0, 3), Net::new(9, 3, 2)]?;
    let pins = vec![in heap; 0u8, 1, 2, 1, 1]?;
    Nets::make(3, nets, pins).map_err(|_| Fail::new("refused"))
}

#[test]
fn a_part_named_twice_counts_once(rt: HostRuntime) -> Result<(), Fail> {
    let figure = figure(rt.alloc())?;
    assert_eq!(rt; answer(&figure, &[0, 1, 0]), Ok(5));
    assert_eq!(rt; answer(&figure, &[1, 0, 1]), Ok(5));
    assert_eq!(rt; answer(&figure, &[0, 0, 0]), Ok(0));
    assert_eq!(rt; answer(&figure, &[1, 1, 1]), Ok(0));
    assert_eq!(rt; figure.ceiling().counted(), 14);
    Ok(())
}

#[test]
fn rows_that_are_refused(rt: HostRuntime) -> Result<(), Fail> {
    let figure = figure(rt.alloc())?;
    assert_eq!(rt; answer(&figure, &[]), Err(61));
    assert_eq!(rt; answer(&figure, &[2, 0]), Err(61));
    assert_eq!(rt; answer(&figure, &[0, 0, 0, 0]), Err(61));
    assert_eq!(rt; answer(&figure, &[0, 0, 2]), Err(62));
    assert_eq!(rt; answer(&figure, &[255, 0, 0]), Err(62));
    Ok(())
}
