//! That hints are found again, how much room they take, and that they can be given up.

use super::*;
use std::test::Fail;

/// The name of an endpoint of a counter, as its six bytes tell it.
fn name(counter: u32) -> u64 {
    u64::from(counter.wrapping_mul(2_654_435_761)) << 16 | 6881
}

/// How many of so many items are told where they stand, once each has been hinted at in turn.
fn told_of(hints: &mut Hints, items: u32) -> u32 {
    hints.reset(items);
    for place in 0..items {
        hints.set(name(place), place);
    }
    let mut told: u32 = 0;
    for place in 0..items {
        if hints.get(name(place)) == Some(place) {
            told = told.wrapping_add(1);
        }
    }
    told
}

#[test]
fn nearly_all_items_are_told(rt: HostRuntime) {
    let mut hints = Hints::new(rt.alloc());
    for items in [100, 128, 129, 1_000, 20_000] {
        let told = told_of(&mut hints, items);
        let most = items.wrapping_mul(9) / 10;
        assert!(rt; most <= told && told <= items, "{items} items: {told}");
        assert!(rt; hints.is_fit(items), "{items} items");
    }
}

#[test]
fn the_last_hint_of_an_item_stands(rt: HostRuntime) {
    let mut hints = Hints::new(rt.alloc());
    hints.reset(5);
    for place in [0, 4, 4, 1_000_000] {
        hints.set(7, place);
        assert_eq!(rt; hints.get(7), Some(place), "{place}");
    }
    assert_eq!(rt; hints.get(8), None, "an item without a hint");
}

/// Names that share the first of four groups.
const TOGETHER: [u64; 5] = [0, 4, 8, 9, 13];

#[test]
fn a_group_keeps_the_last_four(rt: HostRuntime) {
    let mut hints = Hints::new(rt.alloc());
    hints.reset(5);
    for name in TOGETHER {
        hints.set(name, (name % 100) as u32);
    }
    assert_eq!(rt; hints.get(TOGETHER[0]), None, "the first of five");
    for name in &TOGETHER[1..] {
        assert_eq!(rt; hints.get(*name), Some((*name % 100) as u32), "{name}");
    }
}

#[test]
fn few_items_take_no_room(rt: HostRuntime) {
    let mut hints = Hints::new(rt.alloc());
    assert!(rt; hints.is_fit(0) && hints.is_fit(FEW), "none at first");
    assert!(rt; !hints.is_fit(5), "five want some");
    hints.reset(1_000);
    assert!(rt;
        hints.is_fit(1_024) && !hints.is_fit(1_025),
        "two in a group"
    );
    assert!(rt;
        hints.is_fit(128) && !hints.is_fit(127),
        "four groups for each"
    );
    hints.reset(FEW);
    hints.set(1, 1);
    assert_eq!(rt; hints.get(1), None, "no room, no hint");
    assert!(rt; hints.is_fit(FEW), "none at last");
}
