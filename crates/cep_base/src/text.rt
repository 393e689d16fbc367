ghost use Rattle.std.specs.Prelude.{◌≡◌, [], ◌++◌, decimal, OnOk, OnErr};

use itoa::Buffer;
use std::alloc::{AllocError, Global};
use std::marker::Model;

// How many bytes a text has room for once it has any, so that a short line takes one piece of memory.
const FIRST_ROOM: usize = 64;

/// Text that grows at its end, as bytes.
pub struct Text {
    bytes: Vec<u8>,
}

impl Drop for Text {
    fn drop(self) {
        let Text { bytes } = self;
        drop(bytes);
    }
}

impl Model for Text {
    ghost use Rattle.std.specs.Prelude.{List, ℕ};

    ghost Value = { List ℕ };

    ghost view = { λ text. text.bytes.items };
}

impl Text {
    /// The empty text. It takes no memory.
    pub fn new(alloc: Global) -> Text
        ensures { result ≡ [] }
    {
        Text {
            bytes: Vec::new(alloc),
        }
    }

    /// Adds bytes at the end. Most calls add one alone, as a space or a bracket.
    pub fn append(&mut self, bytes: &[u8]) -> Result<(), AllocError>
        ensures ok { OnOk result (self.new ≡ self.old ++ bytes.now) }
        ensures err { OnErr result (self.new ≡ self.old) }
    {
        match bytes {
            [byte] => {
                self.bytes.push(*byte)?;
                Ok(())
            }
            _ => {
                if self.bytes.capacity() == 0 {
                    self.bytes.reserve_exact(FIRST_ROOM)?;
                }
                self.bytes.extend_from_slice(bytes)
            }
        }
    }

    /// Adds a number at the end, in decimal without leading zeros.
    pub fn number(&mut self, n: u64) -> Result<(), AllocError>
        ensures ok { OnOk result (self.new ≡ self.old ++ decimal n) }
        ensures err { OnErr result (self.new ≡ self.old) }
    {
        let mut buffer = Buffer::new();
        self.append(buffer.format(n).as_bytes())
    }

    /// The bytes so far.
    pub fn bytes(&self) -> &[u8]
        ensures { result.now ≡ self.now }
    {
        &self.bytes
    }
}
