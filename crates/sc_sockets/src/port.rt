use libc::net::{self, POLLIN};
use libc::types::pollfd;
use std::io;
use std::net::{Ipv4Addr, Net, SocketAddr, SocketAddrV4, TcpListener, TcpStream};
use std::os::fd::{AsRawFd, RawFd};
use std::sync::atomic::{AtomicU64, Ordering};

/// An open port of this machine's own address, 127.0.0.1, which its workers share.
#[derive(Drop)]
pub struct Port {
    listener: TcpListener,
    // How many workers wait for a connection.
    accepting: AtomicU64,
}

impl Port {
    /// Opens the port of this number; where it is 0, the system picks one that is free. Fails where the system refuses it, as where another
    /// has it.
    pub fn open<R: Net<Listener = TcpListener, Stream = TcpStream>>(
        net: &R,
        number: u16,
    ) -> io::Result<Port> {
        let address = SocketAddr::V4(SocketAddrV4::new(Ipv4Addr::LOCALHOST, number));
        Ok(Port {
            listener: TcpListener::bind(net, address)?,
            accepting: AtomicU64::new(0),
        })
    }

    /// The address, with the number that the system picked where 0 was asked for.
    pub fn address(&self) -> io::Result<SocketAddr> {
        self.listener.local_addr()
    }

    /// Waits for the next connection and takes it.
    pub(crate) fn accept(&self) -> io::Result<TcpStream> {
        self.accepting.fetch_add(1, Ordering::SeqCst);
        let accepted = self.listener.accept();
        self.accepting.fetch_sub(1, Ordering::SeqCst);
        Ok(accepted?.0)
    }

    /// Whether a connection waits that no worker is about to take. It waits for nothing.
    pub(crate) fn has_waiting(&self) -> bool {
        self.accepting.load(Ordering::SeqCst) == 0 && is_ready(self.listener.as_raw_fd(), 0)
    }
}

/// Waits until something can be taken from a socket, for at most so many milliseconds, and says whether it can.
pub fn is_ready(socket: RawFd, milliseconds: i32) -> bool {
    let mut asked = [pollfd {
        fd: socket,
        events: POLLIN,
        revents: 0,
    }];
    net::poll(&mut asked, milliseconds) > 0
}
