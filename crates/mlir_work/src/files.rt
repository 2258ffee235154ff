//! Reads the files of the host.
ghost use Rattle.std.specs.Prelude.{⊤};

use mlir_work_cli::files::{FileError, Files};
use mlir_work_cli::input::{ReadFault, read_all};
use std::alloc::Global;
use std::{fs, io};

/// The files of the host. Contracts don't know what they have.
#[derive(Drop)]
pub(crate) struct HostFiles<'a> {
    pub(crate) rt: &'a HostRuntime,
}

/// Reads an open file to its end.
fn read<R: io::Read>(alloc: Global, reader: &mut R) -> Result<Vec<u8>, FileError> {
    match read_all(alloc, reader) {
        Ok(bytes) => Ok(bytes),
        Err(ReadFault::Memory) => Err(FileError::Memory),
        Err(ReadFault::TooMany) => Err(FileError::TooLong),
        Err(ReadFault::Broken) => Err(FileError::Unreadable),
    }
}

/// Reads a file.
fn read_file(rt: &HostRuntime, alloc: Global, name: &str) -> Result<Vec<u8>, FileError> {
    match fs::open(rt, name) {
        Ok(mut file) => read(alloc, &mut file),
        Err(error) => {
            if error.kind() == io::ErrorKind::NotFound {
                return Err(FileError::Missing);
            }
            Err(FileError::Unreadable)
        }
    }
}

impl Files for HostFiles<'_> {
    ghost has = { λ file text. ⊤ };

    fn read(&mut self, alloc: Global, file: Option<&str>) -> Result<Vec<u8>, FileError> {
        match file {
            Some(name) => read_file(self.rt, alloc, name),
            None => read(alloc, &mut self.rt.stdin()),
        }
    }
}
