//! A stream that was accepted.

use std::net::{TcpListener, TcpStream};
use std::time::Duration;

/// The stream of a client that a listener accepted, before it is a connection's. Nobody else gets at it.
#[derive(Drop)]
pub struct Incoming {
    pub(crate) stream: TcpStream,
}

impl Incoming {
    /// Waits for a client, and accepts its stream: it sends each write at once, and a write and a read that wait for
    /// longer than so many seconds fail on it. None where the system refuses it.
    pub fn accept(
        listener: &TcpListener,
        write_seconds: u64,
        read_seconds: u64,
    ) -> Option<Incoming> {
        let Ok((stream, _)) = listener.accept() else {
            return None;
        };
        let _ = stream.set_nodelay(true);
        let _ = stream.set_write_timeout(Some(Duration::from_secs(write_seconds)));
        let _ = stream.set_read_timeout(Some(Duration::from_secs(read_seconds)));
        Some(Incoming { stream })
    }
}
