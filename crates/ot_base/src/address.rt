//! Addresses and endpoints.

ghost use Rattle.std.specs.Prelude.{◌≡◌};
ghost use Rattle.ot_base.specs.Address.{address_of_six, wide_bytes, family_of};
ghost use Rattle.ot_base.specs.Address.{unspecified, no_endpoint};

/// An IP address, its bytes in network order. All of IPv4 stands before all of IPv6 in the order.
#[derive(Clone, Copy, Debug, PartialEq, Eq, PartialOrd, Ord, Hash)]
pub enum Addr {
    /// An IPv4 address (RFC 791).
    V4([u8; 4]),
    /// An IPv6 address (RFC 4291).
    V6([u8; 16]),
}

/// Where one peer listens.
#[derive(Clone, Copy, Debug, PartialEq, Eq, PartialOrd, Ord, Hash)]
pub struct Endpoint {
    pub addr: Addr,
    /// The port of TCP and UDP, in host order.
    pub port: u16,
}

/// Which of the two kinds of address.
#[derive(Clone, Copy, Debug, PartialEq, Eq, PartialOrd, Ord, Hash)]
pub enum Family {
    /// IPv4.
    Four,
    /// IPv6.
    Six,
}

/// The unspecified IPv4 address, 0.0.0.0, with port 0, which no peer has. All of its bytes are
/// zero.
pub const NO_ENDPOINT: Endpoint = Endpoint {
    addr: Addr::V4([0; 4]),
    port: 0,
};

/// What an IPv4-mapped IPv6 address begins with.
const MAPPED_FRONT: [u8; 12] = [0, 0, 0, 0, 0, 0, 0, 0, 0, 0, 255, 255];

impl Addr {
    /// The address that 16 bytes in network order name. An IPv4-mapped IPv6 address (RFC 4291,
    /// 2.5.5.2) is read as the IPv4 address that it holds.
    pub fn of_six(bytes: [u8; 16]) -> Addr
        ensures { result ≡ address_of_six bytes }
    {
        if bytes.starts_with(&MAPPED_FRONT) {
            Addr::V4([bytes[12], bytes[13], bytes[14], bytes[15]])
        } else {
            Addr::V6(bytes)
        }
    }

    /// The address as 16 bytes in network order, an IPv4 address in its IPv4-mapped form.
    pub fn wide(self) -> [u8; 16]
        ensures { result ≡ wide_bytes self }
    {
        match self {
            Addr::V4(b) => [
                0, 0, 0, 0, 0, 0, 0, 0, 0, 0, 255, 255, b[0], b[1], b[2], b[3],
            ],
            Addr::V6(bytes) => bytes,
        }
    }

    /// Which kind of address it is.
    pub fn family(self) -> Family
        ensures { result ≡ family_of self }
    {
        match self {
            Addr::V4(_) => Family::Four,
            Addr::V6(_) => Family::Six,
        }
    }
}

/// The unspecified IPv4 address, 0.0.0.0.
impl Default for Addr {
    ghost is_default = { λ a. a ≡ unspecified };

    fn default() -> Self {
        Addr::V4([0; 4])
    }
}

/// The unspecified IPv4 address with port 0, which no peer has.
impl Default for Endpoint {
    ghost is_default = { λ e. e ≡ no_endpoint };

    fn default() -> Self {
        NO_ENDPOINT
    }
}
