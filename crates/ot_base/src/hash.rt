//! Info hashes, the tracker's secret, and the bucket that a hash belongs to.

ghost use Rattle.std.specs.Prelude.{◌≡◌, ◌≤◌};
ghost use Rattle.ot_base.specs.Hash.{first_bits};

/// The name of a torrent: the SHA-1 of its info dictionary (BEP 3), ordered by bytes.
#[derive(Clone, Copy, Debug, Default, PartialEq, Eq, PartialOrd, Ord, Hash)]
pub struct InfoHash(pub [u8; 20]);

/// What a tracker mixes into its connection ids.
#[derive(Clone, Copy, Debug, PartialEq, Eq)]
pub struct Secret(pub [u8; 20]);

/// The number of the bucket that keeps a torrent, of 2^`bits` buckets: the number that the first
/// `bits` bits of its hash make, the most significant first.
pub fn bucket_of(hash: &InfoHash, bits: u32) -> u32
    requires { bits ≤ 10 }
    ensures { result ≡ first_bits hash.now.0 bits }
{
    u32::from(u16::from_be_bytes([hash.0[0], hash.0[1]])) >> (16 - bits)
}
