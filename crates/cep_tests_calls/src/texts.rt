// The canonical texts of terms and atoms, which are read and written again, and texts that are of nothing.
use crate::reading::{numbers, read_atom, read_term};
use cep_base::Text;
use cep_rule::Program;
use cep_text::{put_atom, put_term};
use std::alloc::{AllocError, Global};
use std::process::Abort;
use std::test::Fail;

// For each kind of text, texts of it, one on each line.
fn texts() -> [(&'static str, &'static str); 2] {
    [
        ("term", "z\n(s z)"),
        ("atom", "num (s z)\nplus z (s (s z)) z"),
    ]
}

// For each kind of text, texts that are of nothing of this kind, one on each line.
fn other_texts() -> [(&'static str, &'static str); 3] {
    [
        ("term of no sort", "z"),
        (
            "term",
            "\ns\ns z\n(s  z)\n((s z))\n(z)\n(s z\n(s z) \nnum\nN",
        ),
        ("atom", "\nnum\nnum s z\n(num z)\nnum  z\nnum z z\nnu z"),
    ]
}

// Whether the bytes are the text of a term of this sort, which is written.
fn term_again(
    alloc: Global,
    program: &Program,
    sort: u32,
    bytes: &[u8],
    out: &mut Text,
) -> Result<bool, AllocError> {
    match read_term(alloc, program, sort, bytes)? {
        Some(term) => {
            put_term(program, &term, out)?;
            Ok(true)
        }
        None => Ok(false),
    }
}

// Whether the bytes are the text of an atom, which is written.
fn atom_again(
    alloc: Global,
    program: &Program,
    bytes: &[u8],
    out: &mut Text,
) -> Result<bool, AllocError> {
    match read_atom(alloc, program, bytes)? {
        Some(atom) => {
            put_atom(program, &atom, out)?;
            Ok(true)
        }
        None => Ok(false),
    }
}

// Whether the bytes are a text of the program of this kind, which is written.
fn again_in(
    alloc: Global,
    program: &Program,
    kind: &str,
    bytes: &[u8],
    out: &mut Text,
) -> Result<bool, Fail> {
    Ok(match kind {
        "term" => term_again(alloc, program, 0, bytes, out)?,
        "term of no sort" => term_again(alloc, program, 1, bytes, out)?,
        _ => atom_again(alloc, program, bytes, out)?,
    })
}

// Whether the bytes are a text of this kind, which is written.
fn again(alloc: Global, kind: &str, bytes: &[u8], out: &mut Text) -> Result<bool, Fail> {
    let program = numbers(alloc)?;
    again_in(alloc, &program, kind, bytes, out)
}

// Whether the text is one of this kind, and then it is written again byte for byte.
fn is_text(alloc: Global, kind: &str, text: &str) -> Result<bool, Fail> {
    let mut out = Text::new(alloc);
    if !again(alloc, kind, text.as_bytes(), &mut out)? {
        return Ok(false);
    }
    if out.bytes() != text.as_bytes() {
        return Err(Fail::from("written otherwise"));
    }
    Ok(true)
}

// Whether the lines are texts of this kind, or none of them is.
fn expect_texts(
    rt: &impl Abort,
    alloc: Global,
    (kind, lines): (&str, &str),
    are_texts: bool,
) -> Result<(), Fail> {
    for line in lines.split('\n') {
        assert!(rt; is_text(alloc, kind, line)? == are_texts, "at {line}");
    }
    Ok(())
}

#[test]
fn texts_are_read_and_written_again(rt: HostRuntime) -> Result<(), Fail> {
    for case in texts() {
        expect_texts(&rt, rt.alloc(), case, true)?;
    }
    for case in other_texts() {
        expect_texts(&rt, rt.alloc(), case, false)?;
    }
    Ok(())
}
