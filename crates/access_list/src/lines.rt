//! One line of an access list.

ghost use Rattle.std.specs.Prelude.{◌≡◌};
ghost use Rattle.access_list.specs.Access.{hash_named, is_remark};

use hex::FromHex;
use ot_base::InfoHash;

/// Whether a line names nothing, since it is empty or begins with `#`.
pub fn is_remark(line: &[u8]) -> bool
    ensures { result ≡ is_remark line.now }
{
    match line {
        [] => true,
        [first, ..] => *first == b'#',
    }
}

/// The hash that a line of 40 hex digits names.
pub fn hash_named(line: &[u8]) -> Option<InfoHash>
    ensures { result ≡ hash_named line.now }
{
    match <[u8; 20]>::from_hex(line) {
        Ok(bytes) => Some(InfoHash(bytes)),
        Err(_) => None,
    }
}
