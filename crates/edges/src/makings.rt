// The limits of the makings of closeness tables, coders and measures of measures.
use crate::samples::refusal;
use closeness::closeness::Closeness;
use coder::coder::Coder;
use coder::columns::Columns;
use compose::fold::Fold;
use compose::sum::Sum;
use compose::tie::Tie;
use nets::net::Net;
use nets::nets::Nets;
use std::alloc::{AllocError, Global};
use std::test::Fail;

// The number of the refusal of a table of equal entries; None where the measure is made.
fn near(heap: Global, parts: usize, entries: usize, entry: u32) -> Result<Option<u8>, AllocError> {
    Ok(refusal(Closeness::make(parts, vec![in heap; entry; entries]?)))
}

#[test]
fn closeness(rt: HostRuntime) -> Result<(), Fail> {
    let cases = [
        (1, 1, 0, Some(51)),
        (2, 4, 999_999, None),
        (2, 4, 1_000_000, Some(54)),
        (2, 3, 1_000_000, Some(53)),
        (2, 5, 0, Some(53)),
        (80, 6_400, 999_999, None),
        (81, 6_561, 0, Some(51)),
    ];
    for (parts, entries, entry, number) in cases {
        assert_eq!(rt; near(rt.alloc(), parts, entries, entry)?, number);
    }
    Ok(())
}

fn code(
    heap: Global,
    parts: usize,
    rows: usize,
    columns: usize,
    word: u64,
) -> Result<Option<u8>, AllocError> {
    Ok(refusal(Coder::make(parts, rows, vec![in heap; word; columns]?)))
}

#[test]
fn coders(rt: HostRuntime) -> Result<(), Fail> {
    let cases = [
        (1, 0, 1, 0, Some(51)),
        (2, 0, 2, 0, None),
        (2, 0, 2, 1, Some(54)),
        (2, 3, 2, 7, None),
        (2, 3, 2, 8, Some(54)),
        (80, 64, 80, u64::MAX, None),
        (80, 65, 80, 0, Some(52)),
        (80, 64, 79, 0, Some(53)),
        (81, 65, 0, 0, Some(51)),
    ];
    for (parts, rows, columns, word, number) in cases {
        assert_eq!(rt; code(rt.alloc(), parts, rows, columns, word)?, number);
    }
    Ok(())
}

#[test]
fn rank_is_modulo_two(rt: HostRuntime) -> Result<(), Fail> {
    let Ok(columns) = Columns::make(3, 3, vec![in rt.alloc(); 3u64, 6, 5]?) else {
        return Err(Fail::new("refused"));
    };
    let rank = columns
        .rank(&[1, 1, 1])
        .map_err(|_| Fail::new("no row of marks"))?;
    assert_eq!(rt; rank, 2);
    Ok(())
}

// A closeness of equal entries and one net between parts 0 and 1, for a sum or a tie to be made of.
fn closeness_and_net(
    heap: Global,
    parts: usize,
    entries: usize,
    others: usize,
    weight: u32,
) -> Result<(Closeness, Nets), Fail> {
    let Ok(near) = Closeness::make(parts, vec![in heap; 952_380u32; entries]?) else {
        return Err(Fail::new("closeness refused"));
    };
    let nets = vec![in heap; Net::new(weight, 0, 2)]?;
    let nets = Nets::make(others, nets, vec![in heap; 0u8, 1]?).map_err(|_| Fail::new(
        "nets refused",
    ))?;
    Ok((near, nets))
}

#[test]
fn sums(rt: HostRuntime) -> Result<(), Fail> {
    let cases = [
        (15, 1_000, 1, 99_999, None),
        (15, 1_000, 1, 100_000, Some(57)),
        (14, 1_000, 1, 100_000, Some(55)),
        (16, 0, 1, 1, Some(55)),
        (15, 0, 1, 1, Some(56)),
        (15, 1, 0, 1, Some(56)),
        (15, 1, 1_000, 1, None),
        (15, 1_001, 1, 1, Some(56)),
        (15, 1, 1_001, 1, Some(56)),
        (15, 1_001, 1, 100_000, Some(56)),
    ];
    for (others, p, q, weight, number) in cases {
        let (near, nets) = closeness_and_net(rt.alloc(), 15, 225, others, weight)?;
        assert_eq!(rt; refusal(Sum::make(near, nets, p, q)), number);
    }
    Ok(())
}

#[test]
fn ties(rt: HostRuntime) -> Result<(), Fail> {
    for (others, number) in [(14, Some(55)), (15, None), (16, Some(55))] {
        let (near, nets) = closeness_and_net(rt.alloc(), 15, 225, others, 1)?;
        assert_eq!(rt; refusal(Tie::make(near, nets)), number);
    }
    Ok(())
}

// The number of the refusal of a fold of so many parts whose boxes are all the same but the last.
fn folded(
    heap: Global,
    parts: usize,
    entries: usize,
    length: usize,
    last: u8,
    m: usize,
) -> Result<Option<u8>, Fail> {
    let Ok(near) = Closeness::make(parts, vec![in heap; 1u32; entries]?) else {
        return Err(Fail::new("closeness refused"));
    };
    let mut boxes = vec![in heap; 0u8; length]?;
    let Ok(_) = boxes.push(last) else {
        return Err(Fail::new("no memory"));
    };
    Ok(refusal(Fold::make(near, boxes, m)))
}

#[test]
fn folds(rt: HostRuntime) -> Result<(), Fail> {
    let cases = [
        (3, 9, 2, 1, 2, None),
        (3, 9, 2, 0, 1, Some(51)),
        (3, 9, 2, 0, 2, Some(58)),
        (3, 9, 2, 2, 2, Some(54)),
        (3, 9, 2, 2, 3, Some(58)),
        (3, 9, 1, 1, 2, Some(53)),
        (3, 9, 3, 1, 2, Some(53)),
        (80, 6_400, 79, 79, 80, Some(58)),
        (80, 6_400, 79, 80, 80, Some(54)),
        (80, 6_400, 79, 80, 81, Some(51)),
    ];
    for (parts, entries, length, last, m, number) in cases {
        assert_eq!(rt;
            folded(rt.alloc(), parts, entries, length, last, m)?,
            number
        );
    }
    Ok(())
}
