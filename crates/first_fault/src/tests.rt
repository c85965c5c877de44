//! Which of two faults comes first.

use super::*;

/// A fault at a place, by the rule of this number.
fn fault(place: u32, code: u32) -> Option<Fault> {
    Some(Fault { place, code })
}

#[test]
fn the_least_place_comes_first_and_there_the_lowest_number(rt: HostRuntime) {
    for (a, b, first) in [
        (None, None, None),
        (fault(5, 7), None, fault(5, 7)),
        (None, fault(5, 7), fault(5, 7)),
        (fault(5, 7), fault(5, 8), fault(5, 7)),
        (fault(5, 8), fault(5, 7), fault(5, 7)),
        (fault(6, 1), fault(5, 9), fault(5, 9)),
        (fault(5, 9), fault(6, 1), fault(5, 9)),
    ] {
        assert_eq!(rt; earlier(a, b), first, "{a:?} and {b:?}");
    }
}
