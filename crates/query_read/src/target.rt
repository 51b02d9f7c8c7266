//! The target of a request.

ghost use Rattle.std.specs.Prelude.{◌≡◌, IfOk};
ghost use Rattle.query_read.specs.Query.{target_of};

use crate::cut::cut;
use crate::query::Query;
use std::alloc::{AllocError, Global};

/// What a request asks for.
#[derive(Debug, Drop)]
pub enum Target {
    /// An announce (BEP 3): the path is `/announce`.
    Announce(Query),
    /// A scrape (BEP 48): the path is `/scrape`.
    Scrape(Query),
    /// Any other path.
    Other,
}

/// Reads a target: the path is what stands before its first `?`, the query what follows.
pub fn read_target(alloc: Global, target: &[u8]) -> Result<Target, AllocError>
    ensures { IfOk result (λ read. read ≡ target_of target.now) }
{
    let (path, query) = cut(target, b'?');
    if path == b"/announce".as_slice() {
        Ok(Target::Announce(Query::read(alloc, query)?))
    } else if path == b"/scrape".as_slice() {
        Ok(Target::Scrape(Query::read(alloc, query)?))
    } else {
        Ok(Target::Other)
    }
}
