//! What is heard, and what isn't.

use super::*;
use ot_io::DATAGRAM_LEN;

/// Hears a front of each length of these bytes, from none to all of them, and checks what was done.
/// Gives the torrent's counts after that, and how many calls its bucket had.
fn hear_fronts<R: Wait + Abort>(
    rt: &R,
    alloc: Global,
    bytes: &[u8],
    want: &[SyncIn],
) -> Result<(Counts, u64), AllocError> {
    let mut incoming = Vec::new(alloc);
    for len in 0..=bytes.len() {
        incoming.push(Incoming {
            from: NODE,
            bytes: Vec::from_slice(alloc, &bytes[..len])?,
        })?;
    }
    let mut wire = wire(alloc, incoming, 0, &[])?;
    let heard = hear_anew(rt, alloc, &mut wire, want)?;
    assert_eq!(rt; wire.waiting().len(), 0);
    Ok(heard)
}

#[test]
fn bad_datagrams_make_no_call(rt: HostRuntime) -> Result<(), Fail> {
    let alloc = rt.alloc();
    let table = [
        (Batch { node: OWN, ..SEED }, SyncFault::Own(OWN)),
        (Batch { port: 0, ..SEED }, SyncFault::Flag(0)),
        (
            Batch {
                notes: 2,
                port: 65_535,
                ..SEED
            },
            SyncFault::Flag(1),
        ),
        (Batch { last: 1, ..SEED }, SyncFault::Flag(0)),
        (Batch { notes: 0, ..SEED }, SyncFault::Length(8)),
        (Batch { notes: 51, ..SEED }, SyncFault::Length(1_436)),
    ];
    let mut incoming = Vec::new(alloc);
    let mut want = Vec::new(alloc);
    for (batch, fault) in table {
        incoming.push(batch.incoming(alloc)?)?;
        want.push(SyncIn::Refused(fault))?;
    }
    for kind in 0..256 {
        if kind != 4 {
            incoming.push(Batch { kind, ..SEED }.incoming(alloc)?)?;
            want.push(SyncIn::Refused(SyncFault::Kind(kind)))?;
        }
    }
    for kind in [0x0400_0000, u32::MAX] {
        incoming.push(Batch { kind, ..SEED }.incoming(alloc)?)?;
        want.push(SyncIn::Refused(SyncFault::Kind(kind)))?;
    }
    let mut stranger = SEED.incoming(alloc)?;
    stranger.from = STRANGER;
    incoming.push(stranger)?;
    want.push(SyncIn::Stranger { from: STRANGER })?;
    want.push(SyncIn::Idle)?;
    let mut wire = wire(alloc, incoming, 0, &[])?;
    let heard = hear_anew(&rt, alloc, &mut wire, want.as_slice())?;
    assert_eq!(&rt; heard, (Counts::default(), 0));
    Ok(())
}

#[test]
fn three_flags_alone_are_applied(rt: HostRuntime) -> Result<(), Fail> {
    // Each flag comes with a port of its own: that of a leecher, 0, makes one, that of a seed one.
    let alloc = rt.alloc();
    let mut incoming = Vec::new(alloc);
    let mut want = Vec::new(alloc);
    for flag in 0..=255 {
        let port = 1 + u16::from(flag);
        incoming.push(Batch { flag, port, ..SEED }.incoming(alloc)?)?;
        want.push(match flag {
            0 | 0x20 | 0x80 => SyncIn::Applied { calls: 1, full: 0 },
            _ => SyncIn::Refused(SyncFault::Flag(0)),
        })?;
    }
    let mut wire = wire(alloc, incoming, 0, &[])?;
    let (counts, calls) = hear_anew(&rt, alloc, &mut wire, want.as_slice())?;
    assert_eq!(&rt; (counts.complete, counts.incomplete, calls), (1, 1, 3));
    Ok(())
}

#[test]
fn whole_batches_alone_are_applied(rt: HostRuntime) -> Result<(), Fail> {
    // Of 1 to 50 notes, so that 1,275 calls are made in all.
    let alloc = rt.alloc();
    let mut bytes = Batch { notes: 73, ..SEED }.incoming(alloc)?.bytes;
    bytes.truncate(DATAGRAM_LEN);
    let mut want = Vec::new(alloc);
    for len in 0..=DATAGRAM_LEN {
        want.push(match len {
            36..=1_408 if (len - 8) % 28 == 0 => SyncIn::Applied {
                calls: ((len - 8) / 28) as u32,
                full: 0,
            },
            _ => SyncIn::Refused(SyncFault::Length(len)),
        })?;
    }
    let (counts, calls) = hear_fronts(&rt, alloc, bytes.as_slice(), want.as_slice())?;
    assert_eq!(&rt; (counts.complete, calls), (50, 1_275));
    Ok(())
}

#[test]
fn zeros_make_no_call(rt: HostRuntime) -> Result<(), Fail> {
    let alloc = rt.alloc();
    let mut want = Vec::new(alloc);
    for len in 0..=DATAGRAM_LEN {
        want.push(SyncIn::Refused(if len < 8 {
            SyncFault::Length(len)
        } else {
            SyncFault::Kind(0)
        }))?;
    }
    let heard = hear_fronts(&rt, alloc, &[0; DATAGRAM_LEN], want.as_slice())?;
    assert_eq!(&rt; heard, (Counts::default(), 0));
    Ok(())
}

#[test]
fn full_swarms_and_faults_are_told(rt: HostRuntime) -> Result<(), Fail> {
    // The first receive fails. Of 150 seeds 120 find a place, and one of these stops.
    let alloc = rt.alloc();
    let mut incoming = Vec::new(alloc);
    for port in [1, 101, 201] {
        let batch = Batch {
            notes: 50,
            port,
            ..SEED
        };
        incoming.push(batch.incoming(alloc)?)?;
    }
    let stop = Batch {
        port: 1,
        flag: 0x20,
        ..SEED
    };
    incoming.push(stop.incoming(alloc)?)?;
    let mut wire = wire(alloc, incoming, 0, &[0])?;
    let applied = |calls, full| SyncIn::Applied { calls, full };
    let want = [
        SyncIn::RecvFault,
        applied(50, 0),
        applied(50, 0),
        applied(50, 30),
        applied(1, 0),
        SyncIn::Idle,
    ];
    let (counts, _) = hear_anew(&rt, alloc, &mut wire, &want)?;
    assert_eq!(&rt; (counts.complete, counts.incomplete), (119, 0));
    Ok(())
}
