// The console of the process: its standard input and output.
ghost use Rattle.std.specs.Prelude.{◌≡◌, ◌≤◌, None, IfOk, vec_len};

use cep_base::{Console, ConsoleFault, FaultCount};
use std::alloc::{AllocError, Global};
use std::io::Read;

/// How many bytes one reading of the standard input asks for.
const BLOCK: usize = 65_536;

/// A console over standard input and output. What is put is written at once, and what is typed is
/// read in blocks. It tells nothing of its bytes.
#[derive(Drop)]
pub struct StdConsole<R: Input + Drop> {
    runtime: R,
    reader: R::Reader,
    block: Vec<u8>,
    start: usize,
    end: usize,
    faults: FaultCount,
    ghost within: { end ≤ vec_len block },
}

impl<R: Input + Print + Drop> StdConsole<R> {
    /// A console that has not failed yet.
    pub fn new(alloc: Global, runtime: R) -> Result<StdConsole<R>, AllocError>
        ensures { IfOk result (λ console. console.faults ≡ 0) }
    {
        let block = vec![in alloc; 0u8; BLOCK]?;
        Ok(StdConsole {
            reader: runtime.reader(),
            runtime,
            block,
            start: 0,
            end: 0,
            faults: FaultCount::new(),
        })
    }
}

impl<R: Input + Print + Drop> Console for StdConsole<R> {
    ghost talk = { λ _. None };

    ghost left = { λ _. None };

    ghost faults = { λ console. console.faults };

    fn is_read(&self) -> bool {
        true
    }

    fn put(&mut self, bytes: &[u8]) -> Result<(), ConsoleFault> {
        match self.runtime.write_all(bytes) {
            Ok(()) => Ok(()),
            Err(_) => {
                self.faults.rise();
                Err(ConsoleFault::Failed)
            }
        }
    }

    fn next(&mut self) -> Result<Option<u8>, ConsoleFault> {
        if self.start >= self.end {
            match self.reader.read(&mut self.block) {
                Ok(0) => return Ok(None),
                Ok(count) => {
                    self.start = 0;
                    self.end = count;
                }
                Err(_) => {
                    self.faults.rise();
                    return Err(ConsoleFault::Failed);
                }
            }
        }
        let byte = self.block[self.start];
        self.start += 1;
        Ok(Some(byte))
    }
}
