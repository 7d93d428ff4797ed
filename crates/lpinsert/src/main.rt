//! The command `lpinsert`: words in, files out, and a status.
#![tactic(auto)]

ghost use Rattle.std.specs.Process.{exit_status};
ghost use Rattle.lpinsert.specs.Exits.{told, ExitsBy};

use lp_text::{FileShelf, Shelf, Word};
use lp_top::{run, status};
use std::alloc::Global;
use std::process::ExitCode;
use std::{env, io};

/// The status where the runtime refuses the words or the memory for their list.
const REFUSED: u8 = 5;

/// The words of the command, without the program's name.
fn words(rt: &HostRuntime) -> io::Result<Vec<Word>> {
    let mut words = Vec::new(rt.alloc());
    for word in env::args(rt)?.skip(1) {
        words.push(Word::new(word))?;
    }
    Ok(words)
}

/// Runs the command that the words are, once. The exit code is the status of its outcome.
fn execute<S: Shelf>(alloc: Global, words: &[Word], shelf: &mut S) -> ExitCode
    ensures { ExitsBy words.now (exit_status result) (told S.held S.said S.faults shelf.old) (told S.held S.said S.faults shelf.new) }
{
    let outcome = run(alloc, words, shelf);
    ExitCode::from(status(&outcome))
}

fn main(rt: HostRuntime) -> ExitCode {
    match words(&rt) {
        Ok(words) => execute(rt.alloc(), &words, &mut FileShelf::new(&rt, &rt)),
        Err(_) => ExitCode::from(REFUSED),
    }
}
