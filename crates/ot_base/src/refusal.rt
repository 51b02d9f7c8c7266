//! Why a request is refused.

ghost use Rattle.std.specs.Prelude.{◌≡◌};
ghost use Rattle.ot_base.specs.Refusal.{refusal_text};

/// Why a request is refused, as its client is told.
#[derive(Clone, Copy, Debug, PartialEq, Eq, PartialOrd, Ord, Hash)]
pub enum Refusal {
    /// A UDP request's connection id (BEP 15) isn't of the client's address, or is too old.
    ConnectionId,
    /// A UDP request's action number is none of BEP 15's.
    Action,
    /// An HTTP request names no info hash (BEP 3).
    MissingHash,
    /// The info hash of an HTTP request doesn't have 20 bytes, or isn't well escaped.
    BadHash,
    /// An HTTP announce names no port.
    MissingPort,
    /// The port of an announce is no number from 1 to 65,535.
    BadPort,
    /// The access list doesn't admit the torrent.
    Denied,
    /// The torrent has as many live peers as it may have.
    SwarmFull,
    /// The bucket knows as many torrents as it may know.
    TrackerFull,
}

impl Refusal {
    /// The text that the client is told, in ASCII.
    pub fn text(self) -> &'static str
        ensures { result.now ≡ refusal_text self }
    {
        match self {
            Refusal::ConnectionId => "bad connection id",
            Refusal::Action => "unknown action",
            Refusal::MissingHash => "missing info_hash",
            Refusal::BadHash => "bad info_hash",
            Refusal::MissingPort => "missing port",
            Refusal::BadPort => "bad port",
            Refusal::Denied => "not authorized",
            Refusal::SwarmFull => "swarm is full",
            Refusal::TrackerFull => "tracker is full",
        }
    }
}
