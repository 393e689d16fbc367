// Texts with a change.
use crate::bodies::{number_of, spell};
use crate::draft::Draft;
use crate::texts::Texts;

// The first lines of a text, so many of them, and the rest.
fn cut_lines(text: &[u8], number: u64) -> (&[u8], &[u8]) {
    let mut lines = 0u64;
    for (i, &byte) in text.iter().enumerate() {
        if lines == number {
            return text.split_at_checked(i).unwrap_or((text, &[]));
        }
        if byte == b'\n' {
            lines = lines.saturating_add(1);
        }
    }
    (text, &[])
}

// Adds a text with a carriage return before each line feed.
fn put_returns(text: &[u8], out: &mut Draft) {
    for &byte in text {
        if byte == b'\n' {
            out.put(b"\r");
        }
        out.put(&[byte]);
    }
}

// Adds a text without the lines that begin with a question mark.
fn put_record(text: &[u8], out: &mut Draft) {
    let mut begins = true;
    let mut stays = true;
    for &byte in text {
        if begins {
            stays = byte != b'?';
        }
        if stays {
            out.put(&[byte]);
        }
        begins = byte == b'\n';
    }
}

// What stands before and after a part of a text, where that stands first.
fn cut_part<'a>(text: &'a [u8], part: &[u8]) -> Option<(&'a str, &'a str)> {
    match (str::from_utf8(text), str::from_utf8(part)) {
        (Ok(text), Ok(part)) => text.split_once(part),
        _ => None,
    }
}

// Adds a text with a part in the place of another, as `OLD => NEW` says.
fn put_with_part(texts: &Texts, text: &[u8], parts: &str, out: &mut Draft) {
    let (old, new) = parts.split_once(" => ").unwrap_or((parts, ""));
    let mut part = Draft::new(texts.alloc());
    spell(texts, old, &mut part);
    out.fail_with(&part);
    match cut_part(text, part.bytes()) {
        Some((before, after)) => {
            out.put(before.as_bytes());
            spell(texts, new, out);
            out.put(after.as_bytes());
        }
        None => out.fail("a part that is not there"),
    }
}

// Adds a text with what is spelled after a space in the place of a line, or nothing there. Lines count from 1.
fn put_with_line(texts: &Texts, text: &[u8], number: u64, body: &str, out: &mut Draft) {
    let (before, rest) = cut_lines(text, number.saturating_sub(1));
    let (line, after) = cut_lines(rest, 1);
    out.put(before);
    if line.ends_with(b"\n") && !body.is_empty() {
        spell(texts, body.strip_prefix(' ').unwrap_or(body), out);
        out.put(b"\n");
    }
    out.put(after);
}

// Adds a text with a change of a line, or its first lines.
fn put_with_lines(texts: &Texts, text: &[u8], line: &str, out: &mut Draft) {
    match line.split_once(" |") {
        Some((number, body)) => {
            let number = number_of(number, out);
            put_with_line(texts, text, number, body, out);
        }
        None => {
            let number = number_of(line, out);
            out.put(cut_lines(text, number).0);
        }
    }
}

/// Adds a text with the change that a line names:
///
/// | change | what it does |
/// |---|---|
/// | `N \| LINE` | puts a line in the place of line N |
/// | `N \|` | leaves line N out |
/// | `N` | leaves all lines after line N out |
/// | `~ OLD => NEW` | puts a new part in the place of an old one, where that stands first |
/// | `returns` | puts a carriage return before each line feed |
/// | `open` | leaves the last line feed out |
/// | `record` | leaves out each line that begins with a question mark |
/// | `-` | nothing |
///
/// The draft fails if the line names none of these.
pub fn put_changed(texts: &Texts, text: &[u8], line: &str, out: &mut Draft) {
    match line {
        "-" => out.put(text),
        "returns" => put_returns(text, out),
        "open" => out.put(text.strip_suffix(b"\n").unwrap_or(text)),
        "record" => put_record(text, out),
        _ => match line.strip_prefix("~ ") {
            Some(parts) => put_with_part(texts, text, parts, out),
            None => put_with_lines(texts, text, line, out),
        },
    }
}
