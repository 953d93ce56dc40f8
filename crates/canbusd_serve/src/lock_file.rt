//! Files that a server locks while it runs, so that no other server uses the files next to them.
//!
//! A lock file has mode 0600, so that no other user can lock it, and it is not a symbolic link. A server removes its lock file at
//! the end. A server that was killed leaves its lock file unlocked, and the next server can use it.

use std::alloc::Global;
use std::fs::{File, Metadata, TryLockError};
use std::io::{Error, ErrorKind};
use std::os::unix::fs::{MetadataExt, OpenOptionsExt};
use std::rt::Files;
use std::{fs, io};

/// How many times a server tries to lock a file. It tries again if another server has just created or removed the file.
const TRIES: u32 = 16;

/// A file that this server has locked.
#[derive(Drop)]
pub struct LockFile {
    path: String,
    file: File,
}

impl LockFile {
    /// Locks the file at a path. The file is created if it does not exist. Returns `AddrInUse` if another server has locked it, and
    /// `InvalidInput` if it is a symbolic link.
    pub fn take<H: Files<File = File>>(rt: &H, alloc: Global, path: &str) -> io::Result<LockFile> {
        for _ in 0..TRIES {
            let Some(file) = open(rt, path)? else {
                continue;
            };
            match file.try_lock() {
                Ok(()) => {}
                Err(TryLockError::WouldBlock) => return Err(Error::from(ErrorKind::AddrInUse)),
                Err(TryLockError::Error(error)) => return Err(error),
            }
            if is_at(rt, path, &file.metadata()?) {
                let path = String::from_str(alloc, path)?;
                return Ok(LockFile { path, file });
            }
        }
        Err(Error::from(ErrorKind::AddrInUse))
    }

    /// Removes the file, unless something was written into it. The file stays locked until it is dropped.
    pub fn remove<H: Files>(&self, rt: &H) {
        let Ok(found) = self.file.metadata() else {
            return;
        };
        if found.len() == 0 && is_at(rt, &self.path, &found) {
            let _ = fs::remove_file(rt, &self.path);
        }
    }
}

// Opens the file at a path, or creates it. Returns `None` if the file was removed in the meantime.
fn open<H: Files<File = File>>(rt: &H, path: &str) -> io::Result<Option<File>> {
    let made = File::options()
        .read(true)
        .write(true)
        .create_new(true)
        .mode(0o600)
        .open(rt, path);
    match made {
        Err(error) if error.kind() == ErrorKind::AlreadyExists => open_old(rt, path),
        made => made.map(Some),
    }
}

// Opens the existing file at a path, unless it is a symbolic link.
fn open_old<H: Files<File = File>>(rt: &H, path: &str) -> io::Result<Option<File>> {
    if matches!(fs::symlink_metadata(rt, path), Ok(found) if found.is_symlink()) {
        return Err(Error::new(ErrorKind::InvalidInput, "its lock file is a link"));
    }
    match File::options().read(true).write(true).open(rt, path) {
        Err(error) if error.kind() == ErrorKind::NotFound => Ok(None),
        opened => opened.map(Some),
    }
}

// Returns whether this file is the file at the path.
fn is_at<H: Files>(rt: &H, path: &str, file: &Metadata) -> bool {
    match fs::symlink_metadata(rt, path) {
        Ok(found) => found.dev() == file.dev() && found.ino() == file.ino(),
        Err(_) => false,
    }
}
