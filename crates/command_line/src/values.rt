//! The values of settings, as words write them.

ghost use Rattle.std.specs.Prelude.{◌≡◌, ◌≤◌, IfSome};
ghost use Rattle.command_line.specs.Values.{endpoint_from, endpoint_value, mode_value};
ghost use Rattle.command_line.specs.Values.{nodes_value, number_value, secret_value};
ghost use Rattle.command_line.specs.Values.{switch_value};

use ot_base::{Endpoint, Mode, Secret};
use ot_io::NODES;

/// The number that 1 to 20 decimal digits write, with leading zeros or without, where it is one of
/// these.
pub fn read_number(text: &str, least: u64, greatest: u64) -> Option<u64>
    ensures value { result ≡ number_value least greatest text.now }
    ensures among { IfSome result (λ number. (least ≤ number) × (number ≤ greatest)) }
{
    if text.len() > 20 {
        return None;
    }
    match query_read::read_number(text.as_bytes()) {
        Some(number) if least <= number && number <= greatest => Some(number),
        _ => None,
    }
}

/// The same for numbers of 32 bits.
pub fn read_small(text: &str, least: u32, greatest: u32) -> Option<u32>
    ensures { result ≡ number_value least greatest text.now }
{
    match read_number(text, u64::from(least), u64::from(greatest)) {
        Some(number) => Some(number as u32),
        None => None,
    }
}

/// What is on or off.
pub fn read_switch(text: &str) -> Option<bool>
    ensures { result ≡ switch_value text.now }
{
    match text {
        "on" => Some(true),
        "off" => Some(false),
        _ => None,
    }
}

/// What an access list does with the torrents that it names.
pub fn read_mode(text: &str) -> Option<Mode>
    ensures { result ≡ mode_value text.now }
{
    match text {
        "deny" => Some(Mode::Deny),
        "allow" => Some(Mode::Allow),
        _ => None,
    }
}

/// A secret as 40 hex digits in either case.
pub fn read_secret(text: &str) -> Option<Secret>
    ensures { result ≡ secret_value text.now }
{
    let mut bytes = [0; 20];
    if text.len() != 40 {
        return None;
    }
    match hex::decode_to_slice(text, &mut bytes) {
        Ok(()) => Some(Secret(bytes)),
        Err(_) => None,
    }
}

/// An endpoint: an IPv4 address as four numbers with dots between, `:`, and a port from 1 to 65535.
pub fn read_endpoint(text: &str) -> Option<Endpoint>
    ensures { result ≡ endpoint_value text.now }
{
    match text.split_once(':') {
        Some((address, port)) => read_parts(address, port),
        None => None,
    }
}

/// An endpoint of the texts of its address and its port.
fn read_parts(address: &str, port: &str) -> Option<Endpoint>
    ensures { result ≡ endpoint_from address.now port.now }
{
    let addr = trace_text::read_address(address.as_bytes()).ok()?;
    let port = read_small(port, 1, 65_535)? as u16;
    Some(Endpoint { addr, port })
}

/// The endpoints of other nodes, from 1 to 16, with `,` between. They stand in this order from the
/// first place on, and the places behind them are empty.
pub fn read_nodes(text: &str) -> Option<[Option<Endpoint>; NODES]>
    ensures { result ≡ nodes_value text.now }
{
    let mut nodes = [None; NODES];
    for (i, endpoint) in text.split(',').enumerate() {
        if i == NODES {
            return None;
        }
        nodes[i] = Some(read_endpoint(endpoint)?);
    }
    Some(nodes)
}
