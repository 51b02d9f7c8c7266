//! Endpoints that take part in torrents, and why they may not.

ghost use Rattle.std.specs.Prelude.{◌≡◌, List, if◌then◌else◌};
ghost use Rattle.ot_base.specs.declared.address.Endpoint.{Endpoint};
ghost use Rattle.tracker_model.specs.Answers.{with_peers};
ghost use Rattle.bucket.specs.Answers.{error_answer};
ghost use Rattle.bucket.specs.declared.joining.JoinError.TheVariants.{NoMemory};

use ot_base::{Endpoint, InfoHash, Limits};
use std::alloc::{AllocError, AllocFailed};
use tracker_model::{Answer, ReportAnswer};

/// An endpoint that takes part in a torrent.
#[derive(Clone, Copy)]
pub struct Joining {
    pub hash: InfoHash,
    pub who: Endpoint,
    /// Whether it has all of the torrent.
    pub seed: bool,
    /// Whether it has just finished its download.
    pub completed: bool,
}

/// Why an endpoint can't take part.
#[derive(Clone, Copy)]
pub enum JoinError {
    /// It is a new one, and the torrent has as many live peers as it may have.
    SwarmFull,
    /// The torrent isn't known, and as many are known as may be.
    BucketFull,
    /// There was no memory.
    NoMemory,
}

impl JoinError {
    /// This one where it is met, and else want of memory.
    pub fn or_memory(self, is_met: bool) -> JoinError
        ensures { result ≡ (if is_met then self else NoMemory) }
    {
        if is_met { self } else { JoinError::NoMemory }
    }

    /// What a report is answered then.
    pub fn report(self, limits: &Limits) -> ReportAnswer
        ensures { (told : List Endpoint) → with_peers told result ≡ error_answer limits.now self }
    {
        match self {
            JoinError::SwarmFull => ReportAnswer::SwarmFull {
                count: limits.peers,
            },
            JoinError::BucketFull => ReportAnswer::BucketFull {
                count: limits.torrents,
            },
            JoinError::NoMemory => ReportAnswer::NoMemory,
        }
    }

    /// What a sync is answered then.
    pub fn answer(self, limits: &Limits) -> Answer
        ensures { result ≡ error_answer limits.now self }
    {
        match self {
            JoinError::SwarmFull => Answer::SwarmFull {
                count: limits.peers,
            },
            JoinError::BucketFull => Answer::BucketFull {
                count: limits.torrents,
            },
            JoinError::NoMemory => Answer::NoMemory,
        }
    }
}

impl From<AllocError> for JoinError {
    ghost from_gives = { λ _ e. e ≡ NoMemory };

    fn from(_e: AllocError) -> JoinError {
        JoinError::NoMemory
    }
}

impl<T: Drop> From<AllocFailed<T>> for JoinError {
    ghost from_gives = { λ _ e. e ≡ NoMemory };

    fn from(_e: AllocFailed<T>) -> JoinError {
        JoinError::NoMemory
    }
}
