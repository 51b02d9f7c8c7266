ghost use Rattle.std.specs.Prelude.{◌≡◌, ◌+◌, ◌<◌, ◌≤◌, IsTrue};

use crate::AgeRing;
use node_table::{MOST_NODES, Steps};
use std::alloc::{AllocError, Global};
use std::marker::Brand;
use std::process::Abort;
use std::sync::ledger::{Blank, Ledger};
use std::test::Fail;

const AGES: u32 = 45;

/// Inserts an item, unless the ring is full.
fn put<L: Ledger>(
    ring: &mut AgeRing<u64>,
    item: u64,
    steps: &mut Steps<L>,
) -> Result<(), AllocError> {
    if ring.len() < MOST_NODES {
        ring.reserve()?;
        ring.insert(item, steps);
    }
    Ok(())
}

/// Renews the item at a place, if there is one.
fn renew_at<L: Ledger>(ring: &mut AgeRing<u64>, i: u32, steps: &mut Steps<L>) {
    if i < ring.len() {
        ring.renew(i, steps);
    }
}

/// Moves the time on. It is no earlier one in any test.
fn advance_to<L: Ledger>(
    rt: &impl Abort,
    ring: &mut AgeRing<u64>,
    time: u32,
    steps: &mut Steps<L>,
) -> u32 {
    assert!(rt; ring.time() <= time);
    ring.advance(time, steps)
}

/// The items with their stamps, in order.
fn pairs_in(alloc: Global, ring: &AgeRing<u64>) -> Result<Vec<(u64, u32)>, AllocError> {
    let mut pairs = Vec::new(alloc);
    for i in 0..ring.len() {
        pairs.push((ring.item(i), ring.stamp(i)))?;
    }
    Ok(pairs)
}

/// Whether `advance` to a time drops two items, which takes 32 steps at most.
fn drops_two<L: Ledger>(ring: &mut AgeRing<u64>, time: u32, steps: &mut Steps<L>) -> bool
    requires { ring.old.time ≤ time }
    ensures { IsTrue result → steps.new ≤ steps.old + 32 }
{
    ring.advance(time, steps) == 2
}

fn keep_a_list<L: Ledger>(rt: &impl Abort, alloc: Global, blank: Blank) -> Result<(), AllocError>
    requires name { blank.name ≡ L.name }
    requires parts { blank.parts ≡ L.parts }
    requires counts { 0 < blank.parts }
{
    let mut steps = Steps::<L>::new(blank);
    let mut ring = AgeRing::new(alloc, 3, 0)?;
    assert!(rt; ring.is_empty());
    for item in [10, 11, 12] {
        put(&mut ring, item, &mut steps)?;
    }
    assert_eq!(rt;
        advance_to(rt, &mut ring, 1, &mut steps),
        0,
        "nothing is due at 1"
    );
    renew_at(&mut ring, 0, &mut steps);
    assert_eq!(rt; ring.time(), 1);
    assert_eq!(rt;
        ring.next_due(3).map(|i| i > 0),
        Some(true),
        "an older item is due at 3"
    );
    assert!(rt; drops_two(&mut ring, 3, &mut steps), "two are dropped at 3");
    let left = pairs_in(alloc, &ring)?;
    assert_eq!(rt; left.as_slice(), [(10, 1)].as_slice());
    ring.shrink();
    assert_eq!(rt; ring.len(), 1);
    Ok(())
}

#[test]
fn ring_keeps_its_list(rt: HostRuntime) -> Result<(), Fail> {
    keep_a_list::<Brand>(&rt, rt.alloc(), Blank::new(1))?;
    Ok(())
}

/// Numbers that look random (a linear congruential generator).
#[derive(Drop)]
struct Dice {
    state: u32,
}

impl Dice {
    fn below(&mut self, sides: u32) -> u32
        requires { 0 < sides }
        ensures { result < sides }
    {
        self.state = self
            .state
            .wrapping_mul(1_664_525)
            .wrapping_add(1_013_904_223);
        (self.state >> 8) % sides
    }
}

/// A ring, and a plain list of what it should hold.
#[derive(Drop)]
struct Pair {
    ring: AgeRing<u64>,
    plain: Vec<(u64, u32)>,
}

impl Pair {
    fn renew<L: Ledger>(&mut self, i: u32, steps: &mut Steps<L>) {
        renew_at(&mut self.ring, i, steps);
        if let Some(pair) = self.plain.get_mut(i as usize) {
            pair.1 = self.ring.time();
        }
    }

    fn remove<L: Ledger>(&mut self, rt: &impl Abort, i: u32, steps: &mut Steps<L>) {
        assert!(rt; i < self.ring.len());
        assert!(rt; (i as usize) < self.plain.len());
        let item = self.ring.remove(i, steps);
        assert_eq!(rt;
            self.plain.swap_remove(i as usize).0,
            item,
            "removed at {i}"
        );
    }

    /// Takes the due items out of both one by one, so that `advance` has none to drop.
    fn take_due<L: Ledger>(&mut self, rt: &impl Abort, time: u32, steps: &mut Steps<L>) {
        for _ in 0..self.ring.len() {
            assert!(rt; self.ring.time() <= time);
            let Some(i) = self.ring.next_due(time) else {
                break;
            };
            self.remove(rt, i, steps);
        }
        assert_eq!(rt;
            advance_to(rt, &mut self.ring, time, steps),
            0,
            "all due were taken"
        );
    }

    /// Lets `advance` drop the due items. The order is its own, so sorted lists are compared.
    fn drop_due<L: Ledger>(
        &mut self,
        rt: &impl Abort,
        alloc: Global,
        time: u32,
        steps: &mut Steps<L>,
    ) -> Result<(), AllocError> {
        let before = self.plain.len();
        self.plain.retain(|pair| time.saturating_sub(pair.1) < AGES);
        let dropped = advance_to(rt, &mut self.ring, time, steps);
        assert_eq!(rt;
            dropped as usize,
            before - self.plain.len(),
            "dropped at {time}"
        );
        let mut left = pairs_in(alloc, &self.ring)?;
        left.sort()?;
        self.plain.sort()?;
        assert_eq!(rt; left.as_slice(), self.plain.as_slice(), "left at {time}");
        self.plain = pairs_in(alloc, &self.ring)?;
        Ok(())
    }

    fn step<L: Ledger>(
        &mut self,
        rt: &impl Abort,
        alloc: Global,
        dice: &mut Dice,
        steps: &mut Steps<L>,
    ) -> Result<(), AllocError> {
        let time = self.ring.time();
        let len = self.ring.len();
        match dice.below(8) {
            0 | 1 | 2 => {
                let item = dice.below(1_000) as u64;
                put(&mut self.ring, item, steps)?;
                self.plain.push((item, time))?;
            }
            3 | 4 if len > 0 => self.renew(dice.below(len), steps),
            5 if len > 0 => self.remove(rt, dice.below(len), steps),
            6 => self.take_due(rt, time.saturating_add(dice.below(3)), steps),
            _ => self.drop_due(rt, alloc, time.saturating_add(dice.below(9)), steps)?,
        }
        Ok(())
    }
}

fn follow_a_list<L: Ledger>(rt: &impl Abort, alloc: Global, blank: Blank) -> Result<(), AllocError>
    requires name { blank.name ≡ L.name }
    requires parts { blank.parts ≡ L.parts }
    requires counts { 0 < blank.parts }
{
    let mut steps = Steps::<L>::new(blank);
    let mut dice = Dice { state: 7 };
    let mut pair = Pair {
        ring: AgeRing::new(alloc, AGES, 30)?,
        plain: Vec::new(alloc),
    };
    for round in 0..20_000 {
        pair.step(rt, alloc, &mut dice, &mut steps)?;
        let held = pairs_in(alloc, &pair.ring)?;
        assert_eq!(rt;
            held.as_slice(),
            pair.plain.as_slice(),
            "after round {round}"
        );
    }
    Ok(())
}

#[test]
fn ring_follows_a_plain_list(rt: HostRuntime) -> Result<(), Fail> {
    follow_a_list::<Brand>(&rt, rt.alloc(), Blank::new(1))?;
    Ok(())
}

fn hold_many<L: Ledger>(rt: &impl Abort, alloc: Global, blank: Blank) -> Result<(), AllocError>
    requires name { blank.name ≡ L.name }
    requires parts { blank.parts ≡ L.parts }
    requires counts { 0 < blank.parts }
{
    let mut steps = Steps::<L>::new(blank);
    let mut ring = AgeRing::new(alloc, AGES, 0)?;
    for item in 0..100_000 {
        put(&mut ring, item, &mut steps)?;
    }
    assert_eq!(rt; advance_to(rt, &mut ring, 1, &mut steps), 0);
    for i in 0..50_000 {
        renew_at(&mut ring, 2 * i, &mut steps);
    }
    assert_eq!(rt;
        advance_to(rt, &mut ring, 44, &mut steps),
        0,
        "44 minutes are young"
    );
    assert_eq!(rt;
        advance_to(rt, &mut ring, 45, &mut steps),
        50_000,
        "the half not renewed"
    );
    for i in 0..ring.len() {
        assert_eq!(rt; ring.item(i) % 2, 0, "renewed");
    }
    assert_eq!(rt;
        advance_to(rt, &mut ring, 1_000_000, &mut steps),
        50_000,
        "the renewed half"
    );
    ring.shrink();
    assert_eq!(rt; ring.spare(), 0);
    Ok(())
}

#[test]
fn ring_holds_many(rt: HostRuntime) -> Result<(), Fail> {
    hold_many::<Brand>(&rt, rt.alloc(), Blank::new(1))?;
    Ok(())
}
