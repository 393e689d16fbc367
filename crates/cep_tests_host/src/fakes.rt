// The fakes of the outside, called through their traits, and byte text.
use cep_base::{Console, ConsoleFault, Event, Shelf, ShelfFault, Text};
use cep_fakes::{CalmConsole, MemConsole, MemShelf};
use std::alloc::{AllocError, Global};
use std::process::Abort;
use std::test::Fail;

// Says two bytes, and asks for two, of which one is there.
fn converse<C: Console>(console: &mut C) -> Result<(), ConsoleFault> {
    console.put(b"hi")?;
    console.next()?;
    console.next()?;
    Ok(())
}

// The events of a whole conversation.
fn expect_conversation(rt: &impl Abort, talk: &[Event]) {
    let said = [
        Event::Out(b'h'),
        Event::Out(b'i'),
        Event::In(b'y'),
        Event::End,
    ];
    assert!(rt; talk == said.as_slice());
}

#[test]
fn a_calm_console_keeps_what_is_said_and_typed(rt: HostRuntime) -> Result<(), Fail> {
    let mut console = CalmConsole::new(rt.alloc(), b"y")?;
    converse(&mut console)?;
    expect_conversation(&rt, console.talk());
    Ok(())
}

#[test]
fn a_failing_console_keeps_what_is_said_and_typed(rt: HostRuntime) -> Result<(), Fail> {
    let mut console = MemConsole::new(rt.alloc(), b"y", &[4])?;
    converse(&mut console)?;
    expect_conversation(&rt, console.talk());
    Ok(())
}

// Says a byte, and then whether both more bytes and the first byte that is asked for are refused, and
// the next one is heard.
fn is_interrupted<C: Console>(console: &mut C) -> Result<bool, ConsoleFault> {
    console.put(b"a")?;
    let refused = console.put(b"bcdef").is_err() && console.next().is_err();
    Ok(refused && console.next()? == Some(b'y'))
}

// The events where the second and the third call failed.
fn expect_first_half(rt: &impl Abort, talk: &[Event]) {
    let said = [
        Event::Out(b'a'),
        Event::Out(b'b'),
        Event::Out(b'c'),
        Event::In(b'y'),
    ];
    assert!(rt; talk == said.as_slice());
}

#[test]
fn a_listed_put_writes_the_first_half(rt: HostRuntime) -> Result<(), Fail> {
    let mut console = MemConsole::new(rt.alloc(), b"y", &[2, 3])?;
    assert!(rt; is_interrupted(&mut console)?);
    expect_first_half(&rt, console.talk());
    Ok(())
}

// A shelf of two files, of which one was replaced, and whose second load is to fail.
fn filed(alloc: Global) -> Result<MemShelf, AllocError> {
    let mut shelf = MemShelf::new(alloc);
    shelf.file("rules", b"abc")?;
    shelf.file("world", b"old")?;
    shelf.file("world", b"newer")?;
    shelf.fail(2)?;
    Ok(shelf)
}

// Whether a file of at most so many bytes is these bytes, or is refused for this.
fn loads<S: Shelf>(
    alloc: Global,
    shelf: &mut S,
    (name, most): (&str, usize),
    wanted: Result<&[u8], ShelfFault>,
) -> bool {
    match shelf.load(alloc, name, most) {
        Ok(bytes) => wanted == Ok(bytes.as_slice()),
        Err(fault) => wanted == Err(fault),
    }
}

#[test]
fn a_shelf_gives_what_was_filed_last(rt: HostRuntime) -> Result<(), Fail> {
    let mut shelf = filed(rt.alloc())?;
    for (name, most, wanted) in [
        ("rules", 3, Ok(b"abc".as_slice())),
        ("rules", 3, Err(ShelfFault::Failed)),
        ("rules", 2, Err(ShelfFault::TooLong)),
        ("words", 3, Err(ShelfFault::Failed)),
        ("world", 9, Ok(b"newer".as_slice())),
    ] {
        assert!(rt;
            loads(rt.alloc(), &mut shelf, (name, most), wanted),
            "at {name}, {most}"
        );
    }
    Ok(())
}

// A text that is added in pieces.
fn pieces(alloc: Global) -> Result<Text, AllocError> {
    let mut text = Text::new(alloc);
    text.append(b"from ")?;
    text.number(0)?;
    text.append(b" to ")?;
    text.number(u64::MAX)?;
    Ok(text)
}

#[test]
fn a_text_grows_at_its_end(rt: HostRuntime) -> Result<(), Fail> {
    let text = pieces(rt.alloc())?;
    assert!(rt; text.bytes() == b"from 0 to 18446744073709551615".as_slice());
    Ok(())
}
