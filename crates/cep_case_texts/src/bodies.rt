// What the bodies of sections spell.
use crate::draft::Draft;
use crate::texts::Texts;

/// Adds what a body spells: its bytes, in which a backslash and what follows it stand for something else. Answers whether the end of the
/// body is the end of a line.
///
/// | escape | spells |
/// |---|---|
/// | `\\`, `\n`, `\r`, `\t`, `\xHH` | a backslash, a line feed, a carriage return, a tab, a byte |
/// | `\` at the end of a line | nothing, and the line has no line feed |
/// | `\<NAME>` | the text of this name |
/// | `\[N\|BODY]` | the body N times, in which `\#` is how often it stands before, and `\]` a bracket |
///
/// The draft fails if the body has another escape, or an escape without an end.
pub fn spell(texts: &Texts, body: &str, out: &mut Draft) -> bool {
    let mut rest = body;
    for _escape in 0..=body.len() {
        let Some((before, escape)) = rest.split_once('\\') else {
            out.put(rest.as_bytes());
            return true;
        };
        out.put(before.as_bytes());
        if escape.is_empty() {
            return false;
        }
        rest = match escape.strip_prefix('[') {
            Some(repeated) => put_repeated(texts, repeated, out),
            None => put_escape(texts, escape, 0, out),
        };
    }
    true
}

// Adds what a body without repeated ones spells, in which `\#` is this number.
fn spell_once(texts: &Texts, body: &str, number: u64, out: &mut Draft) {
    let mut rest = body;
    for _escape in 0..=body.len() {
        let Some((before, escape)) = rest.split_once('\\') else {
            out.put(rest.as_bytes());
            break;
        };
        out.put(before.as_bytes());
        rest = put_escape(texts, escape, number, out);
    }
}

// Adds a body as often as the number before it says, and answers what follows its bracket.
fn put_repeated<'a>(texts: &Texts, repeated: &'a str, out: &mut Draft) -> &'a str {
    let (inner, rest) = cut_repeated(repeated);
    match inner.split_once('|') {
        Some((times, body)) => {
            for number in 0..number_of(times, out) {
                spell_once(texts, body, number, out);
            }
        }
        None => out.fail("a body that is repeated without a number or an end"),
    }
    rest
}

// What stands before the bracket that closes, and what follows it. Without such a bracket nothing stands before it.
fn cut_repeated(repeated: &str) -> (&str, &str) {
    let mut escapes = false;
    for (i, &byte) in repeated.as_bytes().iter().enumerate() {
        if byte == b']' && !escapes {
            let (inner, rest) = repeated.split_at_checked(i).unwrap_or(("", repeated));
            return (inner, rest.strip_prefix(']').unwrap_or(rest));
        }
        escapes = byte == b'\\';
    }
    ("", "")
}

/// The number of its digits.
pub fn number_of(digits: &str, out: &mut Draft) -> u64 {
    match digits.parse::<u64>() {
        Ok(number) => number,
        Err(_) => {
            out.fail("no number");
            0
        }
    }
}

// Adds what an escape spells, and answers what follows it.
fn put_escape<'a>(texts: &Texts, escape: &'a str, number: u64, out: &mut Draft) -> &'a str {
    let (_, rest) = escape.split_at_checked(1).unwrap_or(("", ""));
    match *escape.as_bytes().first().unwrap_or(&b'\n') {
        b'<' => return put_text(texts, rest, out),
        b'x' => return put_byte(rest, out),
        b'#' => out.put_number(number),
        b'n' => out.put(b"\n"),
        b'r' => out.put(b"\r"),
        b't' => out.put(b"\t"),
        b'\\' => out.put(b"\\"),
        b']' => out.put(b"]"),
        b'\n' => {}
        _ => out.fail("an escape that spells nothing"),
    }
    rest
}

// Adds the text of a name.
fn put_text<'a>(texts: &Texts, escape: &'a str, out: &mut Draft) -> &'a str {
    let (name, rest) = escape.split_once('>').unwrap_or((escape, ""));
    texts.put(name, out);
    rest
}

// Adds a byte by its two digits.
fn put_byte<'a>(escape: &'a str, out: &mut Draft) -> &'a str {
    let (digits, rest) = escape.split_at_checked(2).unwrap_or((escape, ""));
    match u8::from_str_radix(digits, 16) {
        Ok(byte) => out.put(&[byte]),
        Err(_) => out.fail("the digits of a byte"),
    }
    rest
}
