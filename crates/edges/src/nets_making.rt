use crate::samples::refusal;
use nets::net::Net;
use nets::nets::Nets;
use std::alloc::{AllocError, Global};
use std::test::Fail;

// The number of the refusal of some copies of one net and some copies of one pin; None where the measure is made.
fn answer(
    heap: Global,
    parts: usize,
    nets: (usize, Net),
    pins: (usize, u8),
) -> Result<Option<u8>, AllocError> {
    let nets = vec![in heap; nets.1; nets.0]?;
    let pins = vec![in heap; pins.1; pins.0]?;
    Ok(refusal(Nets::make(parts, nets, pins)))
}

#[test]
fn limits(rt: HostRuntime) -> Result<(), Fail> {
    let one = Net::new(1, 0, 2);
    let heavy = Net::new(1_000_000, 0, 2);
    let cases = [
        (1, (0, one), (0, 0), Some(51)),
        (2, (0, one), (0, 0), None),
        (80, (1, one), (2, 79), None),
        (81, (1, one), (2, 79), Some(51)),
        (2, (500, one), (4_000, 1), None),
        (2, (501, one), (4_000, 1), Some(52)),
        (2, (500, one), (4_001, 1), Some(52)),
        (0, (501, heavy), (0, 0), Some(51)),
        (2, (501, heavy), (0, 0), Some(52)),
    ];
    for (parts, nets, pins, number) in cases {
        assert_eq!(rt; answer(rt.alloc(), parts, nets, pins)?, number);
    }
    Ok(())
}

#[test]
fn entries(rt: HostRuntime) -> Result<(), Fail> {
    let cases = [
        (Net::new(999_999, 0, 2), (2, 0), None),
        (Net::new(1_000_000, 0, 2), (2, 0), Some(54)),
        (Net::new(1, 0, 0), (2, 0), Some(54)),
        (Net::new(1, 0, 80), (80, 0), None),
        (Net::new(1, 0, 81), (81, 0), Some(54)),
        (Net::new(1, 5, 2), (7, 0), None),
        (Net::new(1, 6, 2), (7, 0), Some(54)),
        (Net::new(1, usize::MAX, 2), (7, 0), Some(54)),
        (Net::new(1, 0, 2), (3, 2), Some(54)),
    ];
    for (net, pins, number) in cases {
        assert_eq!(rt; answer(rt.alloc(), 2, (1, net), pins)?, number);
    }
    Ok(())
}

#[test]
fn a_refusal_hands_the_tables_back(rt: HostRuntime) -> Result<(), Fail> {
    let nets = vec![in rt.alloc(); Net::new(1, 0, 2); 3]?;
    let pins = vec![in rt.alloc(); 7u8, 9]?;
    match Nets::make(2, nets, pins) {
        Ok(_) => Err(Fail::new("a pin out of range was accepted")),
        Err(refused) => {
            let (nets, pins) = refused.given;
            assert_eq!(rt; nets.len(), 3);
            assert_eq!(rt; pins.as_slice(), [7u8, 9].as_slice());
            Ok(())
        }
    }
}
