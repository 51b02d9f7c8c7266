//! Waiting for connections to come.

use crate::refusal::Refusal;
use mio::unix::SourceFd;
use mio::{Events, Interest, Poll, Token};
use std::alloc::Global;
use std::net::{Net, TcpListener};
use std::os::fd::AsRawFd;
use std::time::Duration;

/// Wakes who waits at a listening socket when a connection comes.
#[derive(Drop)]
pub struct Arrivals {
    poll: Poll,
    events: Events<Global>,
}

impl Arrivals {
    /// Wakes at what comes to this socket.
    pub fn at<R: Net + Alloc<A = Global>>(rt: &R, socket: &TcpListener) -> Result<Self, Refusal> {
        let poll = Poll::new(rt)?;
        let fd = socket.as_raw_fd();
        poll.registry()
            .register(&mut SourceFd(&fd), Token(0), Interest::READABLE)?;
        Ok(Arrivals {
            poll,
            events: Events::with_capacity(rt.alloc(), 1)?,
        })
    }

    /// Waits until a connection comes, at most so many milliseconds. Where the host can't wait, it
    /// is over at once.
    pub fn wait(&mut self, longest: u64) {
        let _ = self
            .poll
            .poll(&mut self.events, Some(Duration::from_millis(longest)));
    }
}
