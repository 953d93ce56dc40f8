use crate::conn::Conn;
use std::io;
use std::net::{TcpListener, TcpStream};
use std::os::fd::OwnedFd;
use std::os::unix::net::{UnixListener, UnixStream};
use std::sync::atomic::{AtomicU64, Ordering};

/// The largest number of connections that wait at a listener. It is the usual value of Linux's `somaxconn`.
const MOST_WAITING: u32 = 4096;

/// A listening socket for TCP or for a Unix path.
#[derive(Drop)]
pub enum Listener {
    Tcp(TcpListener),
    Unix(UnixListener),
}

impl Listener {
    /// Waits for the next connection. On a TCP connection, written bytes are sent without delay.
    fn accept(&self) -> io::Result<Conn> {
        match self {
            Listener::Tcp(listener) => {
                let (stream, _) = listener.accept()?;
                stream.set_nodelay(true)?;
                Ok(Conn::Tcp(stream))
            }
            Listener::Unix(listener) => {
                let (stream, _) = listener.accept()?;
                Ok(Conn::Unix(stream))
            }
        }
    }

    /// Makes every later `accept` fail at once if no connection is waiting.
    fn never_waits(&self) -> io::Result<()> {
        match self {
            Listener::Tcp(listener) => listener.set_nonblocking(true),
            Listener::Unix(listener) => listener.set_nonblocking(true),
        }
    }

    /// Returns a second handle for the listening socket, which is used to shut the socket down.
    fn shutdown_handle(&self) -> io::Result<Conn> {
        match self {
            Listener::Tcp(listener) => {
                let handle = OwnedFd::from(listener.try_clone()?);
                Ok(Conn::Tcp(TcpStream::from(handle)))
            }
            Listener::Unix(listener) => {
                let handle = OwnedFd::from(listener.try_clone()?);
                Ok(Conn::Unix(UnixStream::from(handle)))
            }
        }
    }
}

/// An acceptor: a listener and the number of sessions that it accepts.
#[derive(Drop)]
pub struct Acceptor {
    listener: Listener,
    shutdown_handle: Conn,
    sessions: u32,
    /// The number of sessions that have entered raw mode, in runs that count only these.
    raw: AtomicU64,
}

impl Acceptor {
    /// Returns an acceptor for this many sessions. The acceptor uses one more file descriptor.
    pub fn new(listener: Listener, sessions: u32) -> io::Result<Acceptor> {
        let shutdown_handle = listener.shutdown_handle()?;
        Ok(Acceptor {
            listener,
            shutdown_handle,
            sessions,
            raw: AtomicU64::new(0),
        })
    }

    /// Returns the number of sessions that the acceptor accepts.
    pub fn sessions(&self) -> u32 {
        self.sessions
    }

    /// Counts a session that entered raw mode. Returns whether the acceptor accepts the session. After the last accepted session,
    /// the acceptor is closed.
    pub(crate) fn count_raw(&self) -> bool {
        let before = self.raw.fetch_add(1, Ordering::SeqCst);
        let sessions = u64::from(self.sessions);
        if before.saturating_add(1) >= sessions {
            self.close();
        }
        before < sessions
    }

    /// Returns whether as many sessions have entered raw mode as the acceptor accepts.
    pub(crate) fn is_used_up(&self) -> bool {
        self.raw.load(Ordering::SeqCst) >= u64::from(self.sessions)
    }

    /// Waits for the next connection.
    pub(crate) fn accept(&self) -> io::Result<Conn> {
        self.listener.accept()
    }

    /// Closes the acceptor, so that the system refuses later connections. A thread that waits for a connection returns, because on
    /// Linux `accept` fails on a listening socket that was shut down.
    pub(crate) fn close(&self) {
        self.shutdown_handle.shutdown();
    }

    /// Closes connections that arrived before the acceptor was closed and were not accepted. Linux still returns such connections
    /// if they are on a Unix path.
    pub(crate) fn turn_away(&self) {
        if self.listener.never_waits().is_err() {
            return;
        }
        for _ in 0..MOST_WAITING {
            if self.accept().is_err() {
                break;
            }
        }
    }
}
