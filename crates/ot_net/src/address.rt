//! Addresses as the host has them.

ghost use Rattle.std.specs.Prelude.{◌≡◌};
ghost use Rattle.std.specs.Net.Socket.{socket_ip, socket_port};
ghost use Rattle.ot_net.specs.Addresses.{Calls, address_of, endpoint_of};

use ot_base::{Addr, Endpoint};
use std::net::{IpAddr, Ipv4Addr, Ipv6Addr, SocketAddr};

/// Who is at the other end. A socket of IPv6 tells an IPv4 address in its mapped form.
pub(crate) fn endpoint(peer: &SocketAddr) -> Endpoint
    ensures { result ≡ endpoint_of peer.now }
{
    Endpoint {
        addr: address(peer.ip()),
        port: peer.port(),
    }
}

fn address(ip: IpAddr) -> Addr
    ensures { result ≡ address_of ip }
{
    match ip {
        IpAddr::V4(ip) => Addr::V4(ip.octets()),
        IpAddr::V6(ip) => Addr::of_six(ip.octets()),
    }
}

/// What a socket calls an endpoint: one of IPv6 takes an IPv4 address in its mapped form alone.
pub(crate) fn socket_address(endpoint: Endpoint, is_six: bool) -> SocketAddr
    ensures ip { Calls is_six endpoint.addr (socket_ip result) }
    ensures port { socket_port result ≡ endpoint.port }
{
    SocketAddr::new(host_address(endpoint.addr, is_six), endpoint.port)
}

fn host_address(addr: Addr, is_six: bool) -> IpAddr
    ensures { Calls is_six addr result }
{
    if is_six {
        return IpAddr::V6(Ipv6Addr::from_octets(addr.wide()));
    }
    match addr {
        Addr::V4(bytes) => IpAddr::V4(Ipv4Addr::from_octets(bytes)),
        Addr::V6(bytes) => IpAddr::V6(Ipv6Addr::from_octets(bytes)),
    }
}
