//! The device file and the anchor file of one run.
use crate::file_platform::FilePlatform;
use crate::held_file::HeldFile;
use std::fs::{File, Files};
use std::io;

/// A device file and an anchor file that one run has for itself, for its whole time.
#[derive(Drop)]
pub struct HeldFiles<'a> {
    device: HeldFile<'a>,
    anchor: HeldFile<'a>,
}

impl<'a> HeldFiles<'a> {
    /// Opens and locks both, the device first, without waiting. What is missing is made. No byte of
    /// either is read or written. Where it fails no file is left that wasn't there.
    pub fn open<R: Files<File = File> + Alloc>(
        rt: &R,
        device: &'a str,
        anchor: &'a str,
    ) -> io::Result<HeldFiles<'a>> {
        let device = HeldFile::open(rt, device)?;
        match HeldFile::open(rt, anchor) {
            Ok(anchor) => Ok(HeldFiles { device, anchor }),
            Err(error) => {
                device.remove_if_unused(rt);
                Err(error)
            }
        }
    }

    /// The platform over the two files.
    pub fn platform(&self) -> io::Result<FilePlatform> {
        Ok(FilePlatform::new(self.device.share()?, self.anchor.share()?))
    }

    /// Removes what was made and is still empty, and only then gives the locks back. Each platform over
    /// the files is to be dropped before.
    pub fn let_go(self, files: &impl Files<File = File>) {
        self.device.remove_if_unused(files);
        self.anchor.remove_if_unused(files);
    }
}
