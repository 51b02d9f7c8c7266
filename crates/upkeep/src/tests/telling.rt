//! What is told, and how it crosses to another node.

ghost use Rattle.std.specs.Prelude.{◌≡◌, ◌≤◌, length};

use super::*;
use ot_io::NODES;

/// Seeds are announced, so many times, from ports 1 to 120 in turn.
fn announce_each<R: Wait>(
    rt: &R,
    shards: &Shards,
    pass: &mut Pass,
    announces: u16,
) -> Result<(), AllocError>
    requires { pass.old.shards ≡ shards.now }
    ensures { pass.new.shards ≡ shards.now }
{
    'seeds: for number in 0..announces {
        ask(rt, shards, pass, announce(1 + number % 120))?;
    }
    Ok(())
}

/// Seeds are announced like this, and then perhaps the one of port 1 stops. What their bucket keeps
/// of that is told these nodes.
fn tell<R: Wait>(
    rt: &R,
    alloc: Global,
    wire: &mut MemWire,
    nodes: &[Endpoint],
    announces: u16,
    stops: bool,
) -> Result<SyncOut, AllocError>
    requires few { length nodes.now ≤ NODES }
{
    let (shards, mut pass) = shards(alloc)?;
    announce_each(rt, &shards, &mut pass, announces)?;
    if stops {
        let stop = Call::Stop {
            hash: HASH,
            who: at(1),
        };
        ask(rt, &shards, &mut pass, stop)?;
    }
    Ok(sync_out_turn(rt, &shards, &mut pass, wire, OTHER, nodes, 0, Minute(0)))
}

/// Another node's datagrams, as they were sent over a wire.
fn sent_over(
    alloc: Global,
    wire: &MemWire,
    incoming: &mut Vec<Incoming>,
) -> Result<(), AllocError> {
    for datagram in wire.sent() {
        incoming.push(Incoming {
            from: NODE,
            bytes: Vec::from_slice(alloc, datagram.bytes.as_slice())?,
        })?;
    }
    Ok(())
}

#[test]
fn one_batch_crosses(rt: HostRuntime) -> Result<(), Fail> {
    let alloc = rt.alloc();
    let mut incoming = Vec::new(alloc);
    let told = SyncOut::Sent {
        datagrams: 1,
        dropped: 0,
    };
    let mut announced = wire(alloc, Vec::new(alloc), 1, &[])?;
    assert_eq!(&rt;
        tell(&rt, alloc, &mut announced, &[STRANGER], 1, false)?,
        told
    );
    sent_over(alloc, &announced, &mut incoming)?;
    let mut other = wire(alloc, incoming, 0, &[])?;
    let applied = |calls| SyncIn::Applied { calls, full: 0 };
    let (counts, _) = hear_anew(&rt, alloc, &mut other, &[applied(1)])?;
    assert_eq!(&rt; (counts.complete, counts.incomplete), (1, 0));

    let mut incoming = Vec::new(alloc);
    let mut stopped = wire(alloc, Vec::new(alloc), 1, &[])?;
    assert_eq!(&rt; tell(&rt, alloc, &mut stopped, &[STRANGER], 1, true)?, told);
    sent_over(alloc, &announced, &mut incoming)?;
    sent_over(alloc, &stopped, &mut incoming)?;
    let mut other = wire(alloc, incoming, 0, &[])?;
    let (counts, _) = hear_anew(&rt, alloc, &mut other, &[applied(1), applied(2)])?;
    assert_eq!(&rt; (counts.complete, counts.incomplete), (0, 0));
    Ok(())
}

#[test]
fn each_batch_goes_to_every_node(rt: HostRuntime) -> Result<(), Fail> {
    let alloc = rt.alloc();
    let nodes = [at(1), at(2), at(3)];
    let mut all = wire(alloc, Vec::new(alloc), 9, &[])?;
    let told = SyncOut::Sent {
        datagrams: 9,
        dropped: 0,
    };
    assert_eq!(&rt; tell(&rt, alloc, &mut all, &nodes, 120, false)?, told);
    let batch = |notes, port| Batch {
        notes,
        port,
        ..SEED
    };
    let batches = [batch(50, 1), batch(50, 51), batch(20, 101)];
    assert_eq!(&rt; all.sent().len(), 9);
    for (i, datagram) in all.sent().iter().enumerate() {
        let bytes = batches[i / 3 % 3].incoming(alloc)?.bytes;
        assert_eq!(&rt; datagram.to, nodes[i % 3]);
        assert_eq!(&rt; datagram.bytes.as_slice(), bytes.as_slice());
    }
    for count in 0..9 {
        let mut some = wire(alloc, Vec::new(alloc), 9, &[u64::from(count)])?;
        let told = SyncOut::SendFault { datagrams: count };
        assert_eq!(&rt; tell(&rt, alloc, &mut some, &nodes, 120, false)?, told);
        assert_eq!(&rt; some.sent().len(), count as usize);
    }
    Ok(())
}

#[test]
fn what_is_too_much_is_dropped(rt: HostRuntime) -> Result<(), Fail> {
    // Of 4,100 notes the first 4,096 are told: 81 batches of 50, and one of 46 whose last is the
    // sixteenth of 120 ports.
    let alloc = rt.alloc();
    let mut wire = wire(alloc, Vec::new(alloc), 82, &[])?;
    let told = SyncOut::Sent {
        datagrams: 82,
        dropped: 4,
    };
    assert_eq!(&rt; tell(&rt, alloc, &mut wire, &[NODE], 4_100, false)?, told);
    assert_eq!(&rt; wire.sent().len(), 82);
    let last = wire.sent()[81].bytes.as_slice();
    assert_eq!(&rt; last.len(), 1_296);
    assert!(&rt; last.ends_with(&[0, 16, 0x80, 0]));
    Ok(())
}
