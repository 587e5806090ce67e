//! One file that a run has for itself.
ghost use Rattle.std.specs.Prelude.{IfOk};
ghost use Rattle.tdb_files.specs.IsNoStandardDescriptor.{IsNoStandardDescriptor};

use crate::descriptors::apart;
use std::fs::{File, Files, OpenOptions};
use std::io::ErrorKind;
use std::os::unix::fs::MetadataExt;
use std::{fs, io};

/// How often a file is opened anew at most, where its name leads elsewhere by the time it is locked.
const MOST_TRIES: u32 = 16;

/// A file that is open for reading and writing, and locked until it is let go. The lock is advisory and
/// exclusive. It belongs to the open file, so each share of it holds it too.
#[derive(Drop)]
pub(crate) struct HeldFile<'a> {
    file: File,
    name: &'a str,
    made: bool,
    ghost apart: { IsNoStandardDescriptor file },
}

impl<'a> HeldFile<'a> {
    /// Opens and locks a file, without waiting. It is made where it is missing, and what it holds stays.
    ///
    /// The folder of an empty file is synced, whoever made it: else a stop could take the file away, and
    /// with it what was synced into it.
    pub fn open<R: Files<File = File> + Alloc>(rt: &R, name: &'a str) -> io::Result<HeldFile<'a>> {
        for _ in 0..MOST_TRIES {
            let Some((file, made)) = open_or_make(rt, name)? else {
                continue;
            };
            let file = apart(file)?;
            let held = HeldFile { file, name, made };
            match held.take(rt) {
                Ok(true) => return Ok(held),
                Ok(false) => {}
                Err(error) => {
                    // A file that another run has locked is in use, even if this run made it.
                    if error.kind() != ErrorKind::WouldBlock {
                        held.remove_if_unused(rt);
                    }
                    return Err(error);
                }
            }
        }
        Err(io::Error::from(ErrorKind::WouldBlock))
    }

    // Locks the file, and says whether its name leads to it. If so, and it is empty, its folder is synced.
    fn take<R: Files<File = File> + Alloc>(&self, rt: &R) -> io::Result<bool> {
        self.file.try_lock().map_err(io::Error::from)?;
        if !self.has_its_name(rt)? {
            return Ok(false);
        }
        self.sync_folder_of_empty(rt)?;
        Ok(true)
    }

    fn sync_folder_of_empty<R: Files<File = File> + Alloc>(&self, rt: &R) -> io::Result<()> {
        if !self.is_empty()? {
            return Ok(());
        }
        let path = fs::canonicalize(rt, self.name)?;
        match path.parent() {
            // Else a stop could take a new file away, with what was synced into it. No test can see this sync.
            Some(folder) => File::open(rt, folder)?.sync_all(),
            None => Ok(()),
        }
    }

    /// Another handle of the same open file, which holds the lock too.
    pub fn share(&self) -> io::Result<File>
        ensures { IfOk result IsNoStandardDescriptor }
    {
        apart(self.file.try_clone()?)
    }

    /// Removes the file, where this run made it and it is still empty.
    pub fn remove_if_unused(&self, files: &impl Files<File = File>) {
        // Where it can't be removed it stays, which harms nothing.
        let _removed = self.try_to_remove(files);
    }

    fn try_to_remove(&self, files: &impl Files<File = File>) -> io::Result<()> {
        if self.made && self.is_empty()? && self.has_its_name(files)? {
            fs::remove_file(files, self.name)?;
        }
        Ok(())
    }

    fn is_empty(&self) -> io::Result<bool> {
        Ok(self.file.metadata()?.len() == 0)
    }

    // Whether the name leads to this file. Another run may have removed it before it was locked.
    fn has_its_name(&self, files: &impl Files<File = File>) -> io::Result<bool> {
        let held = self.file.metadata()?;
        match fs::metadata(files, self.name) {
            Ok(named) => Ok(named.dev() == held.dev() && named.ino() == held.ino()),
            Err(error) if error.kind() == ErrorKind::NotFound => Ok(false),
            Err(error) => Err(error),
        }
    }
}

// The file, and whether it was made. There is none where it went or came between two looks.
fn open_or_make(files: &impl Files<File = File>, name: &str) -> io::Result<Option<(File, bool)>> {
    let mut options = OpenOptions::new();
    options.read(true).write(true);
    match options.open(files, name) {
        Ok(file) => return Ok(Some((file, false))),
        Err(error) if error.kind() == ErrorKind::NotFound => {}
        Err(error) => return Err(error),
    }
    match options.create_new(true).open(files, name) {
        Ok(file) => Ok(Some((file, true))),
        Err(error) if error.kind() == ErrorKind::AlreadyExists => Ok(None),
        Err(error) => Err(error),
    }
}
