use crate::samples::{pair, whole};
use cost::kind::CostKind;

#[test]
fn more_than_the_highest_counts_as_the_highest(rt: HostRuntime) {
    assert_eq!(rt; whole(99_999_999_999).counted(), 99_999_999_999);
    assert_eq!(rt; whole(u64::MAX).counted(), 99_999_999_999);
    assert!(rt; whole(u64::MAX).at_most(whole(99_999_999_999)));
    assert!(rt; !whole(99_999_999_999).at_most(whole(99_999_999_998)));
}

#[test]
fn sums_need_not_be_costs(rt: HostRuntime) {
    let top = whole(99_999_999_999);
    assert!(rt; !top.sum_at_most(whole(1), top, whole(0)));
    assert!(rt; top.sum_at_most(whole(0), whole(0), top));
}

#[test]
fn pairs_go_by_the_first_number(rt: HostRuntime) {
    assert!(rt; pair(1, 9).at_most(pair(2, 0)));
    assert!(rt; !pair(2, 0).at_most(pair(1, 9)));
    assert!(rt; pair(1, 3).at_most(pair(1, 3)));
    assert!(rt; !pair(1, 4).at_most(pair(1, 3)));
    assert!(rt; pair(1, 0).sum_at_most(pair(1, 5), pair(2, 2), pair(0, 3)));
    assert!(rt; !pair(1, 1).sum_at_most(pair(1, 5), pair(2, 2), pair(0, 3)));
}
