// What is written of a case.
use crate::draft::{Draft, NO_MEMORY};
use std::alloc::Global;

/// How a call of the command ended, and what it said.
#[derive(Drop)]
pub struct Outcome {
    pub status: u8,
    pub said: Draft,
}

/// The name of a case: that of its lines, of the text that it changes, if it is one of several, and its number, from 1, if it is one of several.
#[derive(Clone, Copy)]
pub struct Name<'a> {
    pub lines: &'a str,
    pub base: Option<&'a str>,
    pub number: u64,
}

impl Name<'_> {
    /// Adds the name.
    pub fn put(&self, out: &mut Draft) {
        out.put(self.lines.as_bytes());
        if let Some(base) = self.base {
            out.put(b", ");
            out.put(base.as_bytes());
        }
        if self.number > 0 {
            out.put(b"/");
            out.put_number(self.number);
        }
    }
}

// A sum of bytes in which each place counts (Fowler, Noll and Vo, 64 bits).
fn sum(bytes: &[u8]) -> u64 {
    let mut sum = 0xcbf2_9ce4_8422_2325u64;
    for byte in bytes {
        sum = (sum ^ u64::from(*byte)).wrapping_mul(0x100_0000_01b3);
    }
    sum
}

// Adds the names that were asked for, or a word for none.
fn put_names(names: &[String], out: &mut Draft) {
    if names.is_empty() {
        out.put(b" nothing");
    }
    for name in names {
        out.put(b" ");
        out.put(name.as_bytes());
    }
}

// Adds the character of a byte.
fn put_char(byte: u8, out: &mut Draft) {
    if byte.is_ascii() {
        out.put(&[byte]);
    } else {
        out.put(&[0xc0 | byte >> 6, 0x80 | byte & 0x3f]);
    }
}

// Adds bytes as lines of their own, after four spaces each. A backslash ends the last one if it has no line feed.
fn put_lines(said: &[u8], out: &mut Draft) {
    let mut begins = true;
    for &byte in said {
        if begins {
            out.put(b"    ");
        }
        put_char(byte, out);
        begins = byte == b'\n';
    }
    if !begins {
        out.put(b"\\\n");
    }
}

// Adds a line.
fn put_line(said: &[u8], out: &mut Draft) {
    for &byte in said {
        put_char(byte, out);
    }
    out.put(b"\n");
}

// Adds how many bytes these are, and their sum.
fn put_sum(alloc: Global, said: &[u8], out: &mut Draft) {
    match format!(in alloc; " {} bytes, sum {:016x}\n", said.len(), sum(said)) {
        Ok(told) => out.put(told.as_bytes()),
        Err(_) => out.fail(NO_MEMORY),
    }
}

// Adds what was said: in the same line if it is one, in lines below, or by its length and sum if it is long.
fn put_said(alloc: Global, said: &[u8], most: u64, out: &mut Draft) {
    if said.len() as u64 > most {
        put_sum(alloc, said, out);
    } else if said.is_empty() {
        out.put(b" nothing\n");
    } else {
        put_short(said, out);
    }
}

// Adds what was said, which is not nothing.
fn put_short(said: &[u8], out: &mut Draft) {
    match said.strip_suffix(b"\n") {
        Some(line) if !line.contains(&b'\n') => {
            out.put(b" ");
            put_line(line, out);
        }
        _ => {
            out.put(b"\n");
            put_lines(said, out);
        }
    }
}

/// Adds what came of the case of this name, where of its output at most so many bytes are written out.
pub fn tell(
    alloc: Global,
    name: Name,
    outcome: &Outcome,
    names: &[String],
    most: u64,
    out: &mut Draft,
) {
    name.put(out);
    out.put(b": status ");
    out.put_number(u64::from(outcome.status));
    out.put(b", asked");
    put_names(names, out);
    out.put(b", said");
    put_said(alloc, outcome.said.bytes(), most, out);
}
