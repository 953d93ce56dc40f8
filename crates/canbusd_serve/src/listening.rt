//! The address of a server: a Unix path, or a host and a port.
ghost use Rattle.std.specs.Prelude.{◌≡◌, IfErr, IfOk, IsTrue, string_bytes};
ghost use Rattle.canbusd_io.specs.declared.program_error.ProgramError.TheVariants as fault;
ghost use Rattle.canbusd_serve.specs.Served.{IsHeardAt, IsOfServing, LeavesPort};

use crate::socket_file::SocketFile;
use can_server::{Acceptor, Listener};
use canbusd_io::{ProgramError, Report, reason_note};
use std::alloc::{AllocError, Global};
use std::fs::File;
use std::io;
use std::io::{Error, ErrorKind};
use std::net::{Net, TcpListener, TcpStream};
use std::rt::Files;

/// The note that is added if another program listens at the port.
const FREE_PORT: &str = "  with port 0, as in --listen 127.0.0.1:0, the system picks a free one\n";

/// An acceptor at the address of a server, and the address as a string.
#[derive(Drop)]
pub struct Listening {
    pub acceptors: [Acceptor; 1],
    /// The address as it was given. If its port is 0, this is the address that the system assigned.
    pub heard: String,
    /// The socket file, if the address is a Unix path.
    pub file: Option<SocketFile>,
}

/// Listens at an address for up to this many sessions. The address is a Unix path if it begins with `/` or `.`, and otherwise a
/// host and a port.
pub fn listen<'a, H: Files<File = File> + Net<Listener = TcpListener, Stream = TcpStream>>(
    rt: &H,
    alloc: Global,
    address: &str,
    sessions: u32,
) -> Result<Listening, Report<'a>>
    ensures heard { IfOk result (λ listening.
        IsHeardAt address.now (string_bytes listening.heard)) }
    ensures fault { IfErr result (λ failure. IsOfServing failure.error) }
{
    let (listener, file) = match bind(rt, alloc, address) {
        Ok(bound) => bound,
        Err(error) => return Err(listen_failure(alloc, address, &error)),
    };
    match open(alloc, address, listener, sessions) {
        Ok((acceptor, heard)) => Ok(Listening {
            acceptors: [acceptor],
            heard,
            file,
        }),
        Err(failure) => {
            leave(rt, file);
            Err(failure)
        }
    }
}

fn open<'a>(
    alloc: Global,
    address: &str,
    listener: Listener,
    sessions: u32,
) -> Result<(Acceptor, String), Report<'a>>
    ensures heard { IfOk result (λ opened. IsHeardAt address.now (string_bytes opened.1)) }
    ensures fault { IfErr result (λ failure. IsOfServing failure.error) }
{
    let Ok(heard) = heard_at(alloc, address, &listener) else {
        return Err(Report::new(alloc, ProgramError::NoMemory));
    };
    match Acceptor::new(listener, sessions) {
        Ok(acceptor) => Ok((acceptor, heard)),
        Err(error) => Err(listen_failure(alloc, address, &error)),
    }
}

/// Returns the report for an address at which the server cannot listen.
pub fn listen_failure<'a>(alloc: Global, place: &str, error: &Error) -> Report<'a>
    ensures { result.error ≡ fault.CannotListen }
{
    let failure = Report::with(
        alloc,
        ProgramError::CannotListen,
        reason_note(alloc, place, error),
    );
    if error.kind() == ErrorKind::AddrInUse && !is_path(place) {
        return failure.and(FREE_PORT);
    }
    failure
}

/// Removes the socket file, if there is one.
pub fn leave<H: Files>(rt: &H, file: Option<SocketFile>) {
    if let Some(file) = file {
        file.remove(rt);
    }
}

fn bind<H: Files<File = File> + Net<Listener = TcpListener, Stream = TcpStream>>(
    rt: &H,
    alloc: Global,
    address: &str,
) -> io::Result<(Listener, Option<SocketFile>)> {
    if is_path(address) {
        let (listener, file) = SocketFile::listen(rt, alloc, address)?;
        Ok((Listener::Unix(listener), Some(file)))
    } else {
        Ok((Listener::Tcp(TcpListener::bind(rt, address)?), None))
    }
}

fn heard_at(alloc: Global, address: &str, listener: &Listener) -> Result<String, AllocError>
    ensures { IfOk result (λ heard. IsHeardAt address.now (string_bytes heard)) }
{
    if let Listener::Tcp(listener) = listener {
        if is_port_open(address) {
            if let Ok(got) = listener.local_addr() {
                return format!(in alloc; "{got}");
            }
        }
    }
    String::from_str(alloc, address)
}

fn is_path(address: &str) -> bool {
    address.starts_with('/') || address.starts_with('.')
}

// Returns whether the address lets the system choose the port.
fn is_port_open(address: &str) -> bool
    ensures { IsTrue result → LeavesPort address.now }
{
    address.ends_with(":0")
}
