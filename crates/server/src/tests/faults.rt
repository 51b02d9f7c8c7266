//! Runs in which one call of the outside fails.

use super::*;

const NO_DEVICE: &[u8] = b"opentracker: device fault\n";

/// The makers are called in this order: wires, listeners, wires to other nodes, clocks. All that
/// was made before the one that fails comes back.
#[test]
fn a_maker_fails(rt: HostRuntime) -> Result<(), Fail> {
    let settings = ServeSettings {
        udp: Some(SERVER),
        http: Some(SERVER),
        sync: Some(SYNC),
        ..USUAL
    };
    for (failing, wires, listeners) in [(0, 0, 0), (1, 1, 0), (2, 1, 1), (3, 3, 1)] {
        let mut outside = outside(rt.alloc(), &[failing])?;
        for _ in 0..3 {
            outside.add_wire(wire(rt.alloc(), CLIENT, &[ANNOUNCE], &[])?)?;
        }
        outside.add_listener(listener(rt.alloc())?)?;
        let run = serve(&rt, rt.alloc(), &settings, &mut outside)?;
        assert_eq!(&rt; run.status, Status::Device, "{failing}");
        assert_eq!(&rt; run.err.as_slice(), NO_DEVICE, "{failing}");
        assert_eq!(&rt; run.out.len(), 0, "{failing}");
        assert_eq!(&rt; outside.wires_back().len(), wires, "{failing}");
        assert_eq!(&rt; outside.listeners_back().len(), listeners, "{failing}");
    }
    Ok(())
}

/// The announce of a seeder that asks for no peers. This number ends its transaction and its port.
fn announce(number: u8) -> [u8; 98] {
    let mut bytes = ANNOUNCE;
    bytes[15] = number;
    bytes[97] = number;
    for byte in &mut bytes[92..96] {
        *byte = 0;
    }
    bytes
}

/// Its reply where so many seeders take part, itself among them.
fn reply(number: u8, seeders: u8) -> [u8; 20] {
    let mut bytes = ANNOUNCED;
    bytes[7] = number;
    bytes[19] = seeders;
    bytes
}

/// The summary where so many seeders take part in one torrent. The bucket was cleaned twice.
fn summary(alloc: Global, seeders: usize) -> Result<String, AllocError> {
    let torrents = seeders.min(1);
    let calls = seeders.saturating_add(2);
    format!(in alloc; "torrents {torrents} complete {seeders} incomplete 0 calls {calls}\n")
}

/// Three datagrams wait, so that each even call is a receive and each odd one a send. Where a send
/// fails its reply alone is missing. Where a receive fails no reply is: the server may end there,
/// and then what wasn't received still waits.
#[test]
fn a_call_of_a_wire_fails(rt: HostRuntime) -> Result<(), Fail> {
    for failing in 0..7 {
        let mut outside = outside(rt.alloc(), &[])?;
        let waiting = [announce(0), announce(1), announce(2)];
        outside.add_wire(wire(rt.alloc(), CLIENT, &waiting, &[failing])?)?;
        let run = serve(&rt, rt.alloc(), &UDP, &mut outside)?;
        assert_eq!(&rt; run.status, Status::Done, "{failing}");
        assert_eq!(&rt; outside.wires_back().len(), 1, "{failing}");
        let wire = &outside.wires_back()[0];
        let received = 3 - wire.waiting().len().min(3);
        assert_eq!(&rt;
            run.out.as_slice(),
            summary(rt.alloc(), received)?.as_str().as_bytes()
        );
        assert_eq!(&rt; wire.faults(), 1, "{failing}");
        let mut sent = wire.sent().iter();
        for number in 0..received as u8 {
            if failing != u64::from(number) * 2 + 1 {
                let bytes = sent.next().map(|sent| sent.bytes.as_slice());
                let want = reply(number, number + 1);
                assert_eq!(&rt; bytes, Some(want.as_slice()), "{failing}");
            }
        }
        assert!(&rt; sent.next().is_none(), "{failing}");
        assert!(&rt; failing % 2 == 0 || received == 3, "{failing}");
        assert!(&rt; received as u64 >= failing / 2, "{failing}");
    }
    Ok(())
}

/// The input is three bytes, each read by itself, and its end. Where a read fails the server ends
/// as at the end, and tells it. A fault of the output keeps the front of the summary, and a fault
/// of the input goes before it.
#[test]
fn the_input_or_the_output_fails(rt: HostRuntime) -> Result<(), Fail> {
    let read_fault = (Status::ReadFault, "opentracker: read fault\n");
    let write_fault = (Status::WriteFault, "opentracker: write fault\n");
    for (read, write, (status, told), written) in [
        (0, 9, read_fault, ONE_SEEDER),
        (1, 9, read_fault, ONE_SEEDER),
        (3, 9, read_fault, ONE_SEEDER),
        (9, 0, write_fault, &[]),
        (9, 1, write_fault, &ONE_SEEDER[..20]),
        (9, 2, write_fault, &ONE_SEEDER[..40]),
        (0, 1, read_fault, &ONE_SEEDER[..20]),
    ] {
        let mut outside = outside(rt.alloc(), &[])?;
        outside.add_wire(wire(rt.alloc(), CLIENT, &[ANNOUNCE], &[])?)?;
        let failing = [read];
        let mut input = MemSource::new(b"ab\n", &[1, 1, 1], &failing);
        let run = serve_with(&rt, rt.alloc(), &UDP, &mut input, &[write], &mut outside)?;
        assert_eq!(&rt; run.status, status, "{read} {write}");
        assert_eq!(&rt; run.err.as_slice(), told.as_bytes(), "{read} {write}");
        assert_eq!(&rt; run.out.as_slice(), written, "{read} {write}");
        assert_eq!(&rt; outside.wires_back().len(), 1, "{read} {write}");
        assert_eq!(&rt; outside.wires_back()[0].sent().len(), 1, "{read} {write}");
    }
    Ok(())
}
