// Texts that are being made.
use std::alloc::{AllocError, Global};

/// The reason that memory ran out.
pub const NO_MEMORY: &str = "out of memory";

/// A text that is being made, and the first reason for which it cannot be, if there is one. After that nothing is added.
#[derive(Drop)]
pub struct Draft {
    bytes: Vec<u8>,
    fault: Option<&'static str>,
}

impl Draft {
    /// The empty text.
    pub fn new(alloc: Global) -> Draft {
        Draft {
            bytes: Vec::new(alloc),
            fault: None,
        }
    }

    /// What was added so far.
    pub fn bytes(&self) -> &[u8] {
        &self.bytes
    }

    /// The reason for which the text cannot be made.
    pub fn fault(&self) -> Option<&'static str> {
        self.fault
    }

    /// Says why the text cannot be made, unless something was said before.
    pub fn fail(&mut self, why: &'static str) {
        if self.fault.is_none() {
            self.fault = Some(why);
        }
    }

    /// Fails if that text failed.
    pub fn fail_with(&mut self, other: &Draft) {
        if let Some(why) = other.fault {
            self.fail(why);
        }
    }

    /// Forgets what was added.
    pub fn clear(&mut self) {
        self.bytes.clear();
    }

    /// Adds bytes.
    pub fn put(&mut self, bytes: &[u8]) {
        if self.fault.is_none() && self.bytes.extend_from_slice(bytes).is_err() {
            self.fail(NO_MEMORY);
        }
    }

    /// Adds the digits of a number.
    pub fn put_number(&mut self, number: u64) {
        match format!(in *self.bytes.allocator(); "{number}") {
            Ok(digits) => self.put(digits.as_bytes()),
            Err(_) => self.fail(NO_MEMORY),
        }
    }
}
