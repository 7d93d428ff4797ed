//! Shelves in memory give what they hold. The files of the host are tried by the program of whole runs.
use lp_text::{MemShelf, NeverFails, Shelf, ShelfFault};
use std::alloc::Global;
use std::test::Fail;

/// What comes of reading a file that has `one` or nothing.
fn reading<S: Shelf>(alloc: Global, shelf: &mut S) -> &'static str {
    match shelf.read(alloc, "a") {
        Ok(bytes) if bytes.is_empty() => "nothing",
        Ok(bytes) if bytes.as_slice() == b"one".as_slice() => "one",
        Ok(_) => "otherwise",
        Err(ShelfFault::Failed) => "failed",
        Err(ShelfFault::TooLong) => "too long",
        Err(ShelfFault::NoMemory) => "no memory",
    }
}

/// Three readings, of which the second is made to fail.
fn of_memory(alloc: Global) -> Result<bool, Fail> {
    let mut shelf = MemShelf::new(alloc, &[2])?;
    let added = shelf.add_file("a", b"one");
    let first = reading(alloc, &mut shelf);
    let second = reading(alloc, &mut shelf);
    let third = reading(alloc, &mut shelf);
    drop(shelf);
    added?;
    Ok(first == "one" && second == "failed" && third == "one")
}

/// A file that is not there, and the same file.
fn of_what_never_fails(alloc: Global) -> Result<bool, Fail> {
    let mut shelf = NeverFails::new(alloc)?;
    let first = reading(alloc, &mut shelf);
    let added = shelf.add_file("a", b"one");
    let second = reading(alloc, &mut shelf);
    drop(shelf);
    added?;
    Ok(first == "nothing" && second == "one")
}

#[test]
fn shelves_give_what_they_hold(rt: HostRuntime) -> Result<(), Fail> {
    assert!(rt; of_memory(rt.alloc())?);
    assert!(rt; of_what_never_fails(rt.alloc())?);
    Ok(())
}
