ghost use Rattle.std.specs.Prelude.{◌≤◌, length, IfOk};

use crate::limits::patience;
use crate::port::{Port, is_ready};
use sc_io::Failed;
use std::io;
use std::io::{ErrorKind, Read, Write};
use std::net::{Shutdown, TcpStream};
use std::os::fd::AsRawFd;
use std::rt::Clock;
use std::sync::Arc;
use std::sync::atomic::{AtomicU64, Ordering};
use std::time::{Duration, Instant};

/// How many milliseconds one call waits for the client, before it is looked whether the client is too slow or another waits.
const TURN: u64 = 50;

/// How many milliseconds a client that has begun no request still has to begin one while another waits. One that asks again at once
/// keeps its worker.
const GRACE: i32 = 5;

/// How long the client has, in milliseconds, to take the last reply and to end its side of the connection, once this side is ended.
const FAREWELL: u64 = 1_000;

/// The client at the other end of a connection, as its source and its sink both see it.
#[derive(Drop)]
pub struct Peer {
    stream: TcpStream,
    port: Arc<Port>,
    accepted: Instant,
    // When the last reply was written, or the connection was accepted: milliseconds from `accepted` on.
    replied: AtomicU64,
    // How many bytes have come since then.
    came: AtomicU64,
}

impl Peer {
    /// The client of a connection that was accepted just now.
    pub fn new<R: Clock>(clock: &R, port: Arc<Port>, stream: TcpStream) -> io::Result<Peer> {
        stream.set_nodelay(true)?;
        let turn = Duration::from_millis(TURN);
        stream.set_read_timeout(Some(turn))?;
        stream.set_write_timeout(Some(turn))?;
        Ok(Peer {
            stream,
            port,
            accepted: Instant::now(clock)?,
            replied: AtomicU64::new(0),
            came: AtomicU64::new(0),
        })
    }

    /// Reads what has come, or waits until something comes. `Ok(0)` says that nothing more is read: the client has ended its side,
    /// or it has begun no request and gives way to another (RFC 9112, section 9.5). It fails where the client is too slow.
    pub fn read<R: Clock>(&self, clock: &R, into: &mut [u8]) -> Result<usize, Failed>
        ensures { IfOk result (λ n. n ≤ length into.new) }
    {
        for _ in 0..u64::MAX {
            let waited = self
                .moment(clock)?
                .saturating_sub(self.replied.load(Ordering::SeqCst));
            let came = self.came.load(Ordering::SeqCst);
            if waited > patience(came) {
                return Err(Failed);
            }
            if came == 0 && self.gives_way() {
                return Ok(0);
            }
            match (&self.stream).read(into) {
                Ok(count) => {
                    self.came.fetch_add(count as u64, Ordering::SeqCst);
                    return Ok(count);
                }
                Err(error) if !ends_turn(&error) => return Err(Failed),
                Err(_) => {}
            }
        }
        Err(Failed)
    }

    /// Writes the whole piece, which is the end of a reply. It fails where the client is too slow, or gone.
    pub fn write<R: Clock>(&self, clock: &R, piece: &[u8]) -> Result<(), Failed> {
        let begun = self.moment(clock)?;
        let mut left = piece;
        for _ in 0..u64::MAX {
            let now = self.moment(clock)?;
            if left.is_empty() {
                self.replied.store(now, Ordering::SeqCst);
                self.came.store(0, Ordering::SeqCst);
                return Ok(());
            }
            let passed = piece.len().saturating_sub(left.len());
            if now.saturating_sub(begun) > patience(passed as u64) {
                return Err(Failed);
            }
            match (&self.stream).write(left) {
                Ok(0) => return Err(Failed),
                Ok(count) => left = &left[count..],
                Err(error) if !ends_turn(&error) => return Err(Failed),
                Err(_) => {}
            }
        }
        Err(Failed)
    }

    /// Ends the connection in stages (RFC 9112, section 9.6): this side first, and then the client has time to take the last reply
    /// and to end its own. What still comes is dropped. Else what was not read could keep the reply from the client.
    pub fn end<R: Clock>(&self, clock: &R) {
        let Ok(begun) = self.moment(clock) else {
            return;
        };
        if self.stream.shutdown(Shutdown::Write).is_err() {
            return;
        }
        let mut dropped = [0; 4_096];
        for _ in 0..u64::MAX {
            match (&self.stream).read(&mut dropped) {
                Ok(0) => return,
                Ok(_) => {}
                Err(error) if !ends_turn(&error) || self.port.has_waiting() => return,
                Err(_) => {}
            }
            match self.moment(clock) {
                Ok(now) if now.saturating_sub(begun) < FAREWELL => {}
                _ => return,
            }
        }
    }

    // Whether another waits while the client says nothing. It is looked twice, since a worker may have become free meanwhile.
    fn gives_way(&self) -> bool {
        self.port.has_waiting()
            && !is_ready(self.stream.as_raw_fd(), GRACE)
            && self.port.has_waiting()
    }

    // Milliseconds since the connection was accepted.
    fn moment<R: Clock>(&self, clock: &R) -> Result<u64, Failed> {
        match self.accepted.elapsed(clock) {
            Ok(since) => Ok(u64::try_from(since.as_millis()).unwrap_or(u64::MAX)),
            Err(_) => Err(Failed),
        }
    }
}

// The call has waited for a turn, or a signal came: it took and gave nothing, and may be made again.
fn ends_turn(error: &io::Error) -> bool {
    matches!(error.kind(), ErrorKind::WouldBlock | ErrorKind::Interrupted)
}
