// The shelf of the process: the files of the system.
ghost use Rattle.std.specs.Prelude.{◌≡◌, None};

use cep_base::{FaultCount, Shelf, ShelfFault};
use std::alloc::{AllocError, Global};
use std::io::{ErrorKind, Read};
use std::rt::Files;
use std::{fs, io};

/// A shelf over the files of the system. It tells nothing of them.
#[derive(Drop)]
pub struct FileShelf<R: Files + Drop> {
    runtime: R,
    faults: FaultCount,
}

impl<R: Files + Drop> FileShelf<R> {
    /// A shelf that has not failed yet.
    pub fn new(runtime: R) -> FileShelf<R>
        ensures { result.faults ≡ 0 }
    {
        FileShelf {
            runtime,
            faults: FaultCount::new(),
        }
    }
}

impl<R: Files + Drop> Shelf for FileShelf<R> {
    ghost files = { λ _. None };

    ghost asked = { λ _. None };

    ghost faults = { λ shelf. shelf.faults };

    fn load(&mut self, alloc: Global, name: &str, most: usize) -> Result<Vec<u8>, ShelfFault> {
        match read_file(alloc, &self.runtime, name, most) {
            Ok(bytes) if bytes.len() > most => Err(ShelfFault::TooLong),
            Ok(bytes) => Ok(bytes),
            Err(error) if error.kind() == ErrorKind::OutOfMemory => Err(ShelfFault::Memory(
                AllocError,
            )),
            Err(_) => {
                self.faults.rise();
                Err(ShelfFault::Failed)
            }
        }
    }
}

// The bytes of a file, and no more than one beyond `most` of them.
fn read_file<R: Files>(alloc: Global, rt: &R, name: &str, most: usize) -> io::Result<Vec<u8>> {
    let file = fs::open(rt, name)?;
    let mut bytes = Vec::new(alloc);
    file.take((most as u64).saturating_add(1))
        .read_to_end(&mut bytes)?;
    Ok(bytes)
}
