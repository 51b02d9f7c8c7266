//! What no clause says: packets as they lie on the wire.

mod replies;
mod requests;

use ot_base::Addr;

const TRANSACTION: u32 = 0x1234_5678;

const P: Addr = Addr::V4([192, 0, 2, 1]);

/// An address of the documentation's prefix (RFC 3849).
const SIX: Addr = Addr::V6([32, 1, 13, 184, 0, 0, 0, 0, 0, 0, 0, 0, 0, 0, 0, 1]);
