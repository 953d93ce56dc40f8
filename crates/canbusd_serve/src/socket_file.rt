//! The socket file of a server that listens at a Unix path. No other server can use the path at the same time. A server locks the
//! file PATH.lock next to the socket PATH, and removes both files at the end. A server that was killed leaves both files unlocked,
//! and the next server can use them. The lock shows whether another server is running, so a server never connects to another one to
//! find out.

use crate::lock_file::LockFile;
use std::alloc::Global;
use std::fs::File;
use std::io::ErrorKind;
use std::net::Net;
use std::os::unix::fs::{FileTypeExt, MetadataExt};
use std::os::unix::net::{UnixListener, UnixStream};
use std::rt::Files;
use std::{fs, io};

/// A socket file and its lock.
#[derive(Drop)]
pub struct SocketFile {
    path: String,
    lock: LockFile,
    /// The device number and the inode number of the socket file. While the socket is open, no other file has the same two numbers.
    device: u64,
    file: u64,
}

impl SocketFile {
    /// Listens at a path. If the path leads to a socket at which no program listens any more, the socket is removed, even if it was
    /// left by a different program. Returns `AddrInUse` if another server uses the path or another file is there.
    pub fn listen<H: Files<File = File> + Net>(
        rt: &H,
        alloc: Global,
        path: &str,
    ) -> io::Result<(UnixListener, SocketFile)> {
        let beside = format!(in alloc; "{path}.lock")?;
        let lock = LockFile::take(rt, alloc, &beside)?;
        match bind(rt, path) {
            Ok(listener) => {
                let found = fs::symlink_metadata(rt, path)?;
                let file = SocketFile {
                    path: String::from_str(alloc, path)?,
                    lock,
                    device: found.dev(),
                    file: found.ino(),
                };
                Ok((listener, file))
            }
            Err(error) => {
                lock.remove(rt);
                Err(error)
            }
        }
    }

    /// Removes the socket file, if the path still leads to this socket, and releases the path. The socket must still be open.
    pub fn remove<H: Files>(self, rt: &H) {
        if let Ok(found) = fs::symlink_metadata(rt, &self.path) {
            if found.dev() == self.device && found.ino() == self.file {
                let _ = fs::remove_file(rt, &self.path);
            }
        }
        self.lock.remove(rt);
    }
}

fn bind<H: Files + Net>(rt: &H, path: &str) -> io::Result<UnixListener> {
    match UnixListener::bind(rt, path) {
        Err(error) if error.kind() == ErrorKind::AddrInUse && is_left_behind(rt, path) => {
            fs::remove_file(rt, path)?;
            UnixListener::bind(rt, path)
        }
        bound => bound,
    }
}

// Returns whether the file is a socket at which no program listens. No other server can be using it, because this server has the
// lock.
fn is_left_behind<H: Files + Net>(rt: &H, path: &str) -> bool {
    let Ok(found) = fs::symlink_metadata(rt, path) else {
        return false;
    };
    if !found.file_type().is_socket() {
        return false;
    }
    match UnixStream::connect(rt, path) {
        Ok(_) => false,
        Err(error) => error.kind() == ErrorKind::ConnectionRefused,
    }
}
