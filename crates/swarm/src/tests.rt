//! What no clause says: that calls succeed, and that each does what it does to a plain list.

ghost use Rattle.std.specs.Prelude.{◌≡◌, ◌<◌};

use super::*;
use node_table::Steps;
use ot_base::{Addr, Endpoint, Family, Held, Minute, Peers};
use std::alloc::{AllocError, Global};
use std::marker::Brand;
use std::process::Abort;
use std::sync::ledger::{Blank, Ledger};
use std::test::Fail;

/// Numbers that look random: a linear congruential generator.
#[derive(Drop)]
struct Dice {
    state: u32,
}

impl Dice {
    fn word(&mut self) -> u32 {
        self.state = self
            .state
            .wrapping_mul(1_664_525)
            .wrapping_add(1_013_904_223);
        self.state >> 8
    }

    fn below(&mut self, sides: u32) -> u32
        requires { 0 < sides }
        ensures { result < sides }
    {
        self.word() % sides
    }

    fn words(&mut self) -> [u32; 200] {
        let mut words = [0; 200];
        for word in &mut words {
            *word = self.word();
        }
        words
    }
}

/// An endpoint of a family, by a number.
fn endpoint(family: Family, number: u32) -> Endpoint {
    let n = number.to_be_bytes();
    let addr = match family {
        Family::Four => Addr::V4([10, n[1], n[2], n[3]]),
        Family::Six => Addr::V6([
            32, 1, 13, 184, 0, 0, 0, 0, 0, 0, 0, 0, n[0], n[1], n[2], n[3],
        ]),
    };
    Endpoint { addr, port: 6881 }
}

/// The peers of a family in their order.
fn peers_of(alloc: Global, swarm: &Swarm, family: Family) -> Result<Vec<Held>, AllocError> {
    let mut peers = Vec::new(alloc);
    for i in 0..swarm.len(family) {
        peers.push(swarm.at(family, i))?;
    }
    Ok(peers)
}

/// Puts a peer into a swarm that isn't full.
fn put_into<L: Ledger>(
    rt: &impl Abort,
    swarm: &mut Swarm,
    who: Endpoint,
    seed: bool,
    steps: &mut Steps<L>,
) -> Result<Put, AllocError> {
    assert!(rt; !swarm.is_full());
    swarm.put(who, seed, steps)
}

/// Moves a swarm on, to no earlier time.
fn move_on<L: Ledger>(rt: &impl Abort, swarm: &mut Swarm, time: u32, steps: &mut Steps<L>) {
    assert!(rt; swarm.time().0 <= time);
    swarm.advance(Minute(time), steps);
}

/// The endpoints that the words choose out of a list of those that are left.
fn plainly_chosen(
    rt: &impl Abort,
    alloc: Global,
    peers: &[Held],
    asker: &Endpoint,
    want: u32,
    words: &[u32; 200],
) -> Result<Vec<Endpoint>, AllocError> {
    let mut left = Vec::new(alloc);
    for peer in peers {
        if peer.who != *asker {
            left.push(peer.who)?;
        }
    }
    let mut chosen = Vec::new(alloc);
    for i in 0..want {
        let len = left.len();
        if len == 0 {
            break;
        }
        assert!(rt; i < 200);
        chosen.push(left.remove(words[i as usize] as usize % len))?;
    }
    Ok(chosen)
}

/// Puts a peer into a swarm and into the list of its family.
fn put_both<L: Ledger>(
    rt: &impl Abort,
    swarm: &mut Swarm,
    plain: &mut Vec<Held>,
    who: Endpoint,
    seed: bool,
    steps: &mut Steps<L>,
) -> Result<(), AllocError> {
    let place = plain.iter().position(|held| held.who == who);
    let put = put_into(rt, swarm, who, seed, steps)?;
    let stamp = swarm.time();
    let renewed = Held { who, seed, stamp };
    match place {
        Some(i) => {
            assert!(rt; i < plain.len());
            assert_eq!(rt;
                put,
                Put::Again {
                    seed: plain[i].seed
                },
                "{who:?} again"
            );
            plain[i] = renewed;
        }
        None => {
            assert_eq!(rt; put, Put::Fresh, "{who:?} is new");
            plain.push(renewed)?;
        }
    }
    Ok(())
}

/// Takes a peer out of a swarm and out of the list of its family.
fn take_both<L: Ledger>(
    rt: &impl Abort,
    swarm: &mut Swarm,
    plain: &mut Vec<Held>,
    who: &Endpoint,
    steps: &mut Steps<L>,
) {
    let place = plain.iter().position(|held| held.who == *who);
    assert_eq!(rt;
        swarm.place(who).map(|at| at as usize),
        place,
        "place of {who:?}"
    );
    let taken = swarm.take(who, steps);
    match place {
        Some(i) => {
            assert!(rt; i < plain.len());
            assert_eq!(rt; taken, Some(plain.swap_remove(i)), "{who:?} is taken");
        }
        None => assert_eq!(rt; taken, None, "{who:?} isn't held"),
    }
}

/// Drops from a list what isn't young, and compares it with what a swarm has left. The order in
/// which peers go is the swarm's own, so the list takes it over.
fn follow(
    rt: &impl Abort,
    alloc: Global,
    left: &[Held],
    plain: &mut Vec<Held>,
    time: u32,
) -> Result<(), AllocError> {
    plain.retain(|held| time.saturating_sub(held.stamp.0) < PEER_AGES);
    let mut sorted = left.to_vec(alloc)?;
    sorted.sort()?;
    plain.sort()?;
    assert_eq!(rt; sorted.as_slice(), plain.as_slice(), "left at {time}");
    *plain = left.to_vec(alloc)?;
    Ok(())
}

/// Compares what a swarm chooses with what the words choose out of a list.
fn choose_both(
    rt: &impl Abort,
    alloc: Global,
    swarm: &Swarm,
    plain: &[Held],
    asker: &Endpoint,
    want: u32,
    words: &[u32; 200],
) -> Result<(), AllocError> {
    assert!(rt; want <= 200);
    let mut peers = Peers::new();
    swarm.choose(asker, want, words, &mut peers);
    let chosen = plainly_chosen(rt, alloc, plain, asker, want, words)?;
    assert_eq!(rt;
        peers.as_slice(),
        chosen.as_slice(),
        "{want} chosen for {asker:?}"
    );
    Ok(())
}

/// Puts or takes an endpoint, or chooses for it, in a swarm and in the list of its family.
fn act<L: Ledger>(
    rt: &impl Abort,
    alloc: Global,
    swarm: &mut Swarm,
    plain: &mut Vec<Held>,
    who: Endpoint,
    dice: &mut Dice,
    steps: &mut Steps<L>,
) -> Result<(), AllocError> {
    match dice.below(8) {
        0 => take_both(rt, swarm, plain, &who, steps),
        1 | 2 => {
            let want = dice.below(50);
            let words = dice.words();
            choose_both(rt, alloc, swarm, plain.as_slice(), &who, want, &words)?;
        }
        sides => put_both(rt, swarm, plain, who, sides < 5, steps)?,
    }
    Ok(())
}

/// Moves a swarm on by some minutes, and the lists with it.
fn move_both<L: Ledger>(
    rt: &impl Abort,
    alloc: Global,
    swarm: &mut Swarm,
    fours: &mut Vec<Held>,
    sixes: &mut Vec<Held>,
    minutes: u32,
    steps: &mut Steps<L>,
) -> Result<(), AllocError> {
    let time = swarm.time().0.saturating_add(minutes);
    move_on(rt, swarm, time, steps);
    let left = peers_of(alloc, swarm, Family::Four)?;
    follow(rt, alloc, left.as_slice(), fours, time)?;
    let left = peers_of(alloc, swarm, Family::Six)?;
    follow(rt, alloc, left.as_slice(), sixes, time)
}

/// Compares the counts of a swarm with those of lists.
fn compare(rt: &impl Abort, swarm: &Swarm, fours: &[Held], sixes: &[Held], round: u32) {
    let seeds = fours.iter().filter(|held| held.seed).count() as u64
        + sixes.iter().filter(|held| held.seed).count() as u64;
    assert_eq!(rt;
        u64::from(swarm.complete()),
        seeds,
        "seeds in round {round}"
    );
    let all = fours.len() as u64 + sixes.len() as u64;
    let counted = u64::from(swarm.complete()) + u64::from(swarm.incomplete());
    assert_eq!(rt; counted, all, "peers in round {round}");
}

fn follow_lists<L: Ledger>(rt: &impl Abort, alloc: Global, blank: Blank) -> Result<(), AllocError>
    requires name { blank.name ≡ L.name }
    requires parts { blank.parts ≡ L.parts }
    requires counts { 0 < blank.parts }
{
    let mut steps = Steps::<L>::new(blank);
    let mut dice = Dice { state: 7 };
    let mut swarm = Swarm::new(alloc, Minute(30))?;
    let mut fours = Vec::new(alloc);
    let mut sixes = Vec::new(alloc);
    for round in 0..10_000 {
        let number = dice.below(40);
        match dice.below(10) {
            0 | 1 | 2 | 3 => {
                let who = endpoint(Family::Four, number);
                act(
                    rt, alloc, &mut swarm, &mut fours, who, &mut dice, &mut steps,
                )?;
            }
            4 | 5 | 6 | 7 => {
                let who = endpoint(Family::Six, number);
                act(
                    rt, alloc, &mut swarm, &mut sixes, who, &mut dice, &mut steps,
                )?;
            }
            sides => {
                let minutes = if sides == 8 { number % 2 } else { number * 2 };
                let (a, b) = (&mut fours, &mut sixes);
                move_both(rt, alloc, &mut swarm, a, b, minutes, &mut steps)?;
            }
        }
        let left = peers_of(alloc, &swarm, Family::Four)?;
        assert_eq!(rt; left.as_slice(), fours.as_slice(), "round {round}");
        let left = peers_of(alloc, &swarm, Family::Six)?;
        assert_eq!(rt; left.as_slice(), sixes.as_slice(), "round {round}");
        compare(rt, &swarm, fours.as_slice(), sixes.as_slice(), round);
    }
    Ok(())
}

#[test]
fn swarm_follows_plain_lists(rt: HostRuntime) -> Result<(), Fail> {
    follow_lists::<Brand>(&rt, rt.alloc(), Blank::new(1))?;
    Ok(())
}

fn hold_many<L: Ledger>(rt: &impl Abort, alloc: Global, blank: Blank) -> Result<(), AllocError>
    requires name { blank.name ≡ L.name }
    requires parts { blank.parts ≡ L.parts }
    requires counts { 0 < blank.parts }
{
    let mut steps = Steps::<L>::new(blank);
    let mut dice = Dice { state: 11 };
    let mut swarm = Swarm::new(alloc, Minute(0))?;
    assert!(rt; swarm.is_empty());
    for number in 0..500 {
        let four = endpoint(Family::Four, number);
        put_into(rt, &mut swarm, four, number % 5 == 0, &mut steps)?;
        put_into(
            rt,
            &mut swarm,
            endpoint(Family::Six, number),
            false,
            &mut steps,
        )?;
    }
    assert_eq!(rt; (swarm.complete(), swarm.incomplete()), (100, 900));
    move_on(rt, &mut swarm, 44, &mut steps);
    assert_eq!(rt; swarm.len(Family::Six), 500, "44 minutes are young");
    let asker = endpoint(Family::Six, 77);
    let again = put_into(rt, &mut swarm, asker, true, &mut steps)?;
    assert_eq!(rt; again, Put::Again { seed: false });
    let plain = peers_of(alloc, &swarm, Family::Six)?;
    choose_both(
        rt,
        alloc,
        &swarm,
        plain.as_slice(),
        &asker,
        200,
        &dice.words(),
    )?;
    move_on(rt, &mut swarm, 45, &mut steps);
    assert_eq!(rt;
        (swarm.complete(), swarm.incomplete()),
        (1, 0),
        "one was renewed"
    );
    assert_eq!(rt; swarm.place(&asker), Some(0));
    assert_eq!(rt; swarm.time(), Minute(45));
    Ok(())
}

#[test]
fn swarm_holds_both_families(rt: HostRuntime) -> Result<(), Fail> {
    hold_many::<Brand>(&rt, rt.alloc(), Blank::new(1))?;
    Ok(())
}
