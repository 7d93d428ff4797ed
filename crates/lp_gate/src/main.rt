//! What no clause reaches is run here: real files, the standard output, and the lines and statuses
//! of whole runs.
#![tactic(auto)]

use lp_text::{FileShelf, Shelf, ShelfFault, Word};
use lp_top::{run, status};
use std::alloc::Global;
use std::io;

/// Commands, and the netlist that each is to write.
const RUNS: [(&str, &str); 14] = [
    (
        "insert --netlist block.v --upf block.upf --out whole.v --report whole.txt and2.lib",
        "whole.v",
    ),
    (
        "insert --netlist long.v --upf block.upf --out long_out.v --report long.txt and2.lib",
        "long_out.v",
    ),
    (
        "insert --netlist block.v --upf block.upf --out form.v and2.lib",
        "form.v",
    ),
    (
        "insert --netlist block.v --upf block.upf --out same.v --report same.v and2.lib",
        "same.v",
    ),
    (
        "insert --netlist missing.v --upf block.upf --out a.v --report a.txt and2.lib",
        "a.v",
    ),
    (
        "insert --netlist block.v --upf missing.upf --out b.v --report b.txt and2.lib",
        "b.v",
    ),
    (
        "insert --netlist unknown.v --upf block.upf --out c.v --report c.txt and2.lib missing.lib",
        "c.v",
    ),
    (
        "insert --netlist unknown.v --upf block.upf --out d.v --report d.txt and2.lib",
        "d.v",
    ),
    (
        "insert --netlist block.v --upf block.upf --out e.v --report e.txt and2.lib and2.lib",
        "e.v",
    ),
    (
        "insert --netlist /dev/zero --upf block.upf --out f.v --report f.txt and2.lib",
        "f.v",
    ),
    (
        "insert --netlist / --upf block.upf --out i.v --report i.txt and2.lib",
        "i.v",
    ),
    (
        "insert --netlist block.v --upf block.upf --out /dev/full --report j.txt and2.lib",
        "/dev/full",
    ),
    (
        "insert --netlist block.v --upf block.upf --out missing/g.v --report g.txt and2.lib",
        "missing/g.v",
    ),
    (
        "insert --netlist block.v --upf block.upf --out h.v --report missing/h.txt and2.lib",
        "h.v",
    ),
];

/// The words of a command, which one blank parts.
fn words_of(alloc: Global, command: &str) -> io::Result<Vec<Word>> {
    let mut words = Vec::new(alloc);
    for word in command.split(' ') {
        words.push(Word::new(String::from_str(alloc, word)?))?;
    }
    Ok(words)
}

/// How a file is against the bytes that are expected of it.
fn compare<S: Shelf>(alloc: Global, shelf: &mut S, name: &str, expected: &[u8]) -> &'static str {
    match shelf.read(alloc, name) {
        Ok(bytes) if bytes.as_slice() == expected => "as expected",
        Ok(_) => "otherwise",
        Err(ShelfFault::Failed) => "not there",
        Err(ShelfFault::TooLong) => "too long",
        Err(ShelfFault::NoMemory) => "no memory",
    }
}

/// More bytes than one write or one read of the system takes, no two neighbours alike.
fn many_bytes(alloc: Global) -> io::Result<Vec<u8>> {
    let mut bytes = Vec::new(alloc);
    for index in 0..70_000u32 {
        bytes.push((index % 251) as u8)?;
    }
    Ok(bytes)
}

/// A netlist behind more blanks than one read of the system takes.
fn behind_blanks(alloc: Global, netlist: &[u8]) -> io::Result<Vec<u8>> {
    let mut text = Vec::new(alloc);
    for _line in 0..1_000u32 {
        text.extend_from_slice(&[b' '; 100])?;
    }
    text.extend_from_slice(netlist)?;
    Ok(text)
}

/// All bytes of a file that lies here.
fn stored<S: Shelf>(alloc: Global, shelf: &mut S, name: &str) -> Vec<u8> {
    match shelf.read(alloc, name) {
        Ok(bytes) => bytes,
        Err(_) => Vec::new(alloc),
    }
}

/// Writes bytes and gives whether it was done, and how the file then is against others.
fn written<S: Shelf>(
    alloc: Global,
    shelf: &mut S,
    bytes: &[u8],
    expected: &[u8],
) -> (bool, &'static str) {
    let done = shelf.write("many", bytes).is_ok();
    (done, compare(alloc, shelf, "many", expected))
}

/// Writes many bytes, and then few over them.
fn try_writes<R: Print, S: Shelf>(rt: &R, alloc: Global, shelf: &mut S) -> io::Result<()> {
    let many = many_bytes(alloc)?;
    let whole = written(alloc, shelf, &many, &many);
    drop(many);
    rt.println(whole.0)?;
    rt.println(whole.1)?;
    let few = written(alloc, shelf, b"few", b"few");
    rt.println(few.0)?;
    rt.println(few.1)
}

/// Writes a netlist behind blanks, and gives whether it was done.
fn write_behind<S: Shelf>(alloc: Global, shelf: &mut S, netlist: &[u8]) -> io::Result<bool> {
    let long = behind_blanks(alloc, netlist)?;
    let done = shelf.write("long.v", &long).is_ok();
    drop(long);
    Ok(done)
}

/// Writes the stored netlist behind blanks.
fn write_long<S: Shelf>(alloc: Global, shelf: &mut S) -> io::Result<bool> {
    let netlist = stored(alloc, shelf, "block.v");
    let done = write_behind(alloc, shelf, &netlist);
    drop(netlist);
    done
}

/// Writes, reads and says.
fn try_files<R: Print, S: Shelf>(rt: &R, alloc: Global, shelf: &mut S) -> io::Result<()> {
    try_writes(rt, alloc, shelf)?;
    rt.println(compare(alloc, shelf, "missing", b""))?;
    rt.println(shelf.say(b"a line\n").is_ok())?;
    rt.println(write_long(alloc, shelf)?)
}

/// The status with which a command ends.
fn ended<S: Shelf>(alloc: Global, shelf: &mut S, command: &str) -> io::Result<u8> {
    let words = words_of(alloc, command)?;
    let outcome = run(alloc, &words, shelf);
    let status = status(&outcome);
    drop(outcome);
    drop(words);
    Ok(status)
}

/// How a file is against another one.
fn compare_files<S: Shelf>(
    alloc: Global,
    shelf: &mut S,
    name: &str,
    expected: &str,
) -> &'static str {
    let bytes = stored(alloc, shelf, expected);
    let result = compare(alloc, shelf, name, &bytes);
    drop(bytes);
    result
}

/// Runs each command, which says its own line, and prints its status and what it wrote.
fn try_runs<R: Print, S: Shelf>(rt: &R, alloc: Global, shelf: &mut S) -> io::Result<()> {
    for (command, out) in &RUNS {
        rt.println(ended(alloc, shelf, command)?)?;
        rt.println(compare_files(alloc, shelf, out, "expected.v"))?;
    }
    rt.println(compare_files(alloc, shelf, "whole.txt", "expected.txt"))?;
    rt.println(compare_files(alloc, shelf, "long.txt", "expected.txt"))
}

fn main(rt: HostRuntime) -> io::Result<()> {
    let mut shelf = FileShelf::new(&rt, &rt);
    try_files(&rt, rt.alloc(), &mut shelf)?;
    try_runs(&rt, rt.alloc(), &mut shelf)
}
