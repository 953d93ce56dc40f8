//! Files that are written under another name and are renamed once they are complete. Until then, the file of an earlier run
//! stays unchanged.
use crate::files::open_failure;
use crate::report::Report;
use crate::shown::Shown;
use std::alloc::{AllocError, Global};
use std::fs::{File, OpenOptions};
use std::io::{Error, ErrorKind};
use std::os::unix::fs::FileTypeExt;
use std::rt::Files;
use std::{fs, io};

/// A file and its draft, the file that is written until the text is complete. The draft is in the same folder and has the same name
/// with `.new` at the end. If the path leads to something other than a regular file, such as a device, the text is written there
/// directly. The draft of a run that was cut off can be set aside under the name with `.cut` at the end.
#[derive(Drop)]
pub struct Draft {
    path: String,
    draft: String,
    aside: String,
}

impl Draft {
    /// Returns the file of a bus. Its name consists of the bus's first name and the kind of file. Nothing is written. If the path
    /// is a symbolic link to a regular file, the new file replaces the link.
    pub fn new<H: Files>(
        rt: &H,
        alloc: Global,
        folder: &str,
        name: &str,
        kind: &str,
    ) -> Result<Draft, AllocError> {
        let path = format!(in alloc; "{folder}/{name}.{kind}")?;
        let is_plain = match fs::metadata(rt, &path) {
            Ok(found) => found.is_file(),
            Err(_) => true,
        };
        Draft::of(alloc, path, is_plain)
    }

    /// Returns the file with this path. Nothing is written. A symbolic link at the path is followed.
    pub fn at<H: Files>(rt: &H, alloc: Global, path: String) -> Result<Draft, AllocError> {
        let is_plain = match fs::symlink_metadata(rt, &path) {
            Ok(found) => found.is_file(),
            Err(_) => true,
        };
        Draft::of(alloc, path, is_plain)
    }

    fn of(alloc: Global, path: String, is_plain: bool) -> Result<Draft, AllocError> {
        let end = if is_plain { ".new" } else { "" };
        let draft = format!(in alloc; "{path}{end}")?;
        let aside = format!(in alloc; "{path}.cut")?;
        Ok(Draft { path, draft, aside })
    }

    /// The same file.
    pub fn copy(&self, alloc: Global) -> Result<Draft, AllocError> {
        Ok(Draft {
            path: String::from_str(alloc, &self.path)?,
            draft: String::from_str(alloc, &self.draft)?,
            aside: String::from_str(alloc, &self.aside)?,
        })
    }

    /// The file's name.
    pub fn path(&self) -> &str {
        &self.path
    }

    /// Returns the path of the draft.
    pub fn draft(&self) -> &str {
        &self.draft
    }

    /// Returns the path to which the draft is moved if it is left over from a run that was cut off.
    pub fn aside(&self) -> &str {
        &self.aside
    }

    /// Removes a draft that an earlier run or another program has left behind, unless the file is written directly. If the draft is
    /// a symbolic link, the link itself is removed.
    pub fn clear<H: Files>(&self, rt: &H) {
        if self.is_apart() {
            let _ = fs::remove_file(rt, &self.draft);
        }
    }

    /// Returns whether there is a draft that is a regular file of more than this many bytes. Returns false if the file is written
    /// directly.
    pub fn has_more_than<H: Files>(&self, rt: &H, bytes: u64) -> bool {
        match fs::symlink_metadata(rt, &self.draft) {
            Ok(found) => self.is_apart() && found.is_file() && found.len() > bytes,
            Err(_) => false,
        }
    }

    /// Moves the draft to the path of drafts that are set aside.
    pub fn set_aside<H: Files>(&self, rt: &H) -> io::Result<()> {
        fs::rename(rt, &self.draft, &self.aside)
    }

    /// Moves the draft that was set aside back to its old path.
    pub fn put_back<H: Files>(&self, rt: &H) {
        let _ = fs::rename(rt, &self.aside, &self.draft);
    }

    /// Removes a draft that was set aside earlier, if there is one.
    pub fn clear_aside<H: Files>(&self, rt: &H) -> io::Result<()> {
        match fs::remove_file(rt, &self.aside) {
            Err(error) if error.kind() != ErrorKind::NotFound => Err(error),
            _ => Ok(()),
        }
    }

    /// Removes the file of an earlier run, unless the file is written directly.
    pub fn remove_older<H: Files>(&self, rt: &H) {
        if self.is_apart() {
            let _ = fs::remove_file(rt, &self.path);
        }
    }

    /// Checks whether the file can be created. The folder is left unchanged.
    pub fn look<H: Files>(&self, rt: &H) -> io::Result<()> {
        if self.is_apart() {
            match File::create_new(rt, &self.draft) {
                Ok(_) => return fs::remove_file(rt, &self.draft),
                Err(error) if error.kind() == ErrorKind::AlreadyExists => {}
                Err(error) => return Err(error),
            }
        }
        if fs::symlink_metadata(rt, &self.draft)?.is_dir() {
            return Err(ErrorKind::IsADirectory.into());
        }
        Ok(())
    }

    /// Checks whether the draft can be set aside. It cannot if there is a folder at that path.
    pub fn look_aside<H: Files>(&self, rt: &H) -> io::Result<()> {
        match fs::symlink_metadata(rt, &self.aside) {
            Ok(found) if self.is_apart() && found.is_dir() => Err(ErrorKind::IsADirectory.into()),
            _ => Ok(()),
        }
    }

    /// Does the same check as `look`, for a file that must be readable after it is written. A FIFO is refused.
    pub fn look_for_record<H: Files>(&self, rt: &H) -> io::Result<()> {
        let is_fifo = match fs::metadata(rt, &self.path) {
            Ok(found) => found.file_type().is_fifo(),
            Err(_) => false,
        };
        if is_fifo {
            return Err(Error::new(ErrorKind::InvalidInput, "a fifo can't be a record"));
        }
        self.look(rt)
    }

    /// Creates the draft, replacing any older draft, and opens it for appending.
    pub fn make<H: Files<File = File>>(&self, rt: &H) -> io::Result<File> {
        if !self.is_apart() {
            return fs::create(rt, &self.path);
        }
        self.clear(rt);
        OpenOptions::new()
            .append(true)
            .create_new(true)
            .open(rt, &self.draft)
    }

    /// Renames a complete file to its final name. A file that is not complete is removed.
    pub fn keep<'a, H: Files>(
        &'a self,
        rt: &H,
        alloc: Global,
        saved: Result<(), Report<'a>>,
    ) -> Result<(), Report<'a>> {
        match saved {
            Ok(()) => self.rename(rt, alloc),
            Err(failure) => {
                self.clear(rt);
                Err(failure)
            }
        }
    }

    /// Renames a file to its final name, even if only its first part was written. If the file is incomplete and another file
    /// already has that name, the part keeps the draft's name.
    pub fn keep_part<'a, H: Files>(
        &'a self,
        rt: &H,
        alloc: Global,
        saved: Result<(), Report<'a>>,
    ) -> Result<(), Report<'a>> {
        let Err(failure) = saved else {
            return self.rename(rt, alloc);
        };
        if !self.is_apart() || !matches!(fs::exists(rt, &self.path), Ok(true)) {
            let _ = self.rename(rt, alloc);
            return Err(failure);
        }
        match self.part_note(alloc) {
            Ok(note) => Err(failure.and(&note)),
            Err(_) => Err(failure),
        }
    }

    fn part_note(&self, alloc: Global) -> Result<String, AllocError> {
        let (path, draft) = (Shown::whole(&self.path), Shown::whole(&self.draft));
        format!(in alloc; "  what was written is in {draft}: the old file {path} stays as it is\n")
    }

    fn is_apart(&self) -> bool {
        self.draft != self.path
    }

    fn rename<H: Files>(&self, rt: &H, alloc: Global) -> Result<(), Report<'_>> {
        self.take_name(rt)
            .map_err(|error| open_failure(alloc, &self.path, &error))
    }

    /// Renames the draft to the file's final name.
    pub fn take_name<H: Files>(&self, rt: &H) -> io::Result<()> {
        if !self.is_apart() {
            return Ok(());
        }
        fs::rename(rt, &self.draft, &self.path)
    }
}
