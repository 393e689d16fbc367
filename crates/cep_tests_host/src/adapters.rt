// The adapters over the real system, of which no clause can say what it holds.
use cep_base::{Console, Shelf, ShelfFault};
use cep_host::{FileShelf, StdConsole};
use std::fs;
use std::test::Fail;

#[test]
fn the_console_writes_and_reads_the_standard_streams(rt: HostRuntime) -> Result<(), Fail> {
    let mut console = StdConsole::new(rt.alloc(), &rt)?;
    assert!(rt; console.is_read());
    assert!(rt; console.put(b"a line\n").is_ok());
    assert!(rt; console.next() == Ok(None), "the input of a test is empty");
    Ok(())
}

#[test]
fn the_shelf_loads_a_file_that_is_there_and_not_too_long(rt: HostRuntime) -> Result<(), Fail> {
    let alloc = rt.alloc();
    fs::write(&rt, "tale.cep", "once")?;
    let mut shelf = FileShelf::new(&rt);
    assert!(rt; shelf.load(alloc, "tale.cep", 4)?.as_slice() == b"once".as_slice());
    assert!(rt; shelf.load(alloc, "tale.cep", 3).err() == Some(ShelfFault::TooLong));
    assert!(rt; shelf.load(alloc, "no such file", 4).err() == Some(ShelfFault::Failed));
    fs::remove_file(&rt, "tale.cep")?;
    Ok(())
}
