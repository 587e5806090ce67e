//! The file of the owner's secret.
use std::fs::{File, Files};
use std::io;
use std::io::{ErrorKind, Read};

/// The secret in a file of exactly 32 bytes. A file of another length is an error.
pub fn secret_in(files: &impl Files<File = File>, path: &str) -> io::Result<[u8; 32]> {
    let mut file = File::open(files, path)?;
    let mut secret = [0; 32];
    file.read_exact(&mut secret)?;
    match file.read_exact(&mut [0]) {
        Err(error) if error.kind() == ErrorKind::UnexpectedEof => Ok(secret),
        Err(error) => Err(error),
        Ok(()) => Err(io::Error::from(ErrorKind::InvalidData)),
    }
}
