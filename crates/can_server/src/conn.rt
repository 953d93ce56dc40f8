ghost use Rattle.std.specs.Prelude.{◌≤◌, length, IfOk};

use can_proto::{Cause, refusal_text};
use std::io;
use std::io::{Read, Write};
use std::net::{Shutdown, SocketAddr, TcpStream};
use std::os::unix::net::UnixStream;

/// A client's connection, which is shared by several threads.
#[derive(Drop)]
pub enum Conn {
    Tcp(TcpStream),
    Unix(UnixStream),
}

impl Conn {
    /// Waits for bytes from the client and returns how many were read. Returns 0 at the end of the input.
    pub fn read(&self, piece: &mut [u8]) -> io::Result<usize>
        ensures { IfOk result (λ n. n ≤ length piece.new) }
    {
        match self {
            Conn::Tcp(stream) => {
                let mut stream = stream;
                stream.read(piece)
            }
            Conn::Unix(stream) => {
                let mut stream = stream;
                stream.read(piece)
            }
        }
    }

    /// Returns the client's address, if it has one.
    pub fn peer(&self) -> Option<SocketAddr> {
        let Conn::Tcp(stream) = self else {
            return None;
        };
        stream.peer_addr().ok()
    }

    /// Writes the reason for a refusal to the client. A failed write is ignored.
    pub fn refuse(&self, cause: Cause) {
        let text = refusal_text(cause);
        let _ = Out(self).write_all(text.as_bytes());
    }

    /// Shuts down both directions of the connection. A thread that is reading or writing returns.
    pub fn shutdown(&self) {
        let _ = match self {
            Conn::Tcp(stream) => stream.shutdown(Shutdown::Both),
            Conn::Unix(stream) => stream.shutdown(Shutdown::Both),
        };
    }
}

/// The writer of a connection.
#[derive(Drop)]
pub struct Out<'a>(pub &'a Conn);

impl Write for Out<'_> {
    fn write(&mut self, text: &[u8]) -> io::Result<usize> {
        match self.0 {
            Conn::Tcp(stream) => {
                let mut stream = stream;
                stream.write(text)
            }
            Conn::Unix(stream) => {
                let mut stream = stream;
                stream.write(text)
            }
        }
    }

    fn flush(&mut self) -> io::Result<()> {
        Ok(())
    }
}
