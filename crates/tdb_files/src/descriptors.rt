//! The standard descriptors, and that no file of the database is one of them.
ghost use Rattle.std.specs.Prelude.{IfOk};
ghost use Rattle.tdb_files.specs.IsNoStandardDescriptor.{IsNoStandardDescriptor};

use std::fs::{File, Files};
use std::io;
use std::io::ErrorKind;
use std::os::fd::{AsRawFd, IntoRawFd};

/// The greatest standard descriptor: 0 is input, 1 output and 2 errors.
const LAST_STANDARD: i32 = 2;

const NULL_DEVICE: &str = "/dev/null";

/// Takes each standard descriptor that is closed: it is opened on the null device, for reading alone,
/// and stays so until the process ends. A put to it then fails, and it gives no byte.
///
/// It is to be called before any other file is opened. The system gives a file the least descriptor that
/// is free, so a database that was opened with output closed would get each reply written into it.
pub fn take_standard_descriptors(files: &impl Files<File = File>) -> io::Result<()> {
    for _ in 0..=LAST_STANDARD {
        let null = File::open(files, NULL_DEVICE)?;
        if null.as_raw_fd() > LAST_STANDARD {
            return Ok(());
        }
        let _stays_open = null.into_raw_fd();
    }
    Ok(())
}

/// The file, where it is no standard descriptor.
pub(crate) fn apart(file: File) -> io::Result<File>
    ensures { IfOk result IsNoStandardDescriptor }
{
    if file.as_raw_fd() > LAST_STANDARD {
        Ok(file)
    } else {
        Err(io::Error::from(ErrorKind::Other))
    }
}
