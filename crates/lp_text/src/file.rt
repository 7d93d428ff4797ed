ghost use Rattle.std.specs.Prelude.{◌≡◌, None};
ghost use Rattle.lp_text.specs.Memory.{no_faults};

use crate::counts::{Counts, count_failed, count_long};
use crate::shelf::{Shelf, ShelfFault};
use crate::stream::{put, put_opened, read_opened};
use std::alloc::Global;
use std::marker::Model;
use std::rt::Files;
use std::{fs, io};

/// The shelf over real files and the standard output.
///
/// No contract can say what a file holds, so it tells its counts alone. Each call opens and hands
/// over to a call on readers and writers, whose contract names the bytes.
#[derive(Drop)]
pub struct FileShelf<F, P> {
    files: F,
    out: P,
    counts: Counts,
}

impl<F, P> Model for FileShelf<F, P> {
    ghost use Rattle.lp_text.specs.Shelf.{Faults};
    ghost use Rattle.lp_text.specs.Memory.{faults_code};

    ghost Value = { Faults };

    ghost coded = { faults_code };

    ghost view = { λ s. record { read = s.counts.read; write = s.counts.write; say = s.counts.say; long = s.counts.long } };
}

impl<F, P> FileShelf<F, P> {
    /// A shelf over the runtime's files and standard output, with no fault yet.
    pub fn new(files: F, out: P) -> FileShelf<F, P>
        ensures { result ≡ no_faults }
    {
        FileShelf {
            files,
            out,
            counts: Counts::new(),
        }
    }
}

impl<F: Files, P: Print> Shelf for FileShelf<F, P> {
    ghost held = { λ _. None };

    ghost said = { λ _. None };

    ghost calls = { λ _. None };

    ghost missed = { λ _. None };

    ghost faults = { λ s. s };

    fn read(&mut self, alloc: Global, name: &str) -> Result<Vec<u8>, ShelfFault> {
        let answer = read_opened(fs::open(&self.files, name), alloc);
        let answer = count_failed(&mut self.counts.read, answer);
        count_long(&mut self.counts.long, answer)
    }

    fn write(&mut self, name: &str, bytes: &[u8]) -> Result<(), ShelfFault> {
        let answer = put_opened(&mut fs::create(&self.files, name), bytes);
        count_failed(&mut self.counts.write, answer)
    }

    fn say(&mut self, bytes: &[u8]) -> Result<(), ShelfFault> {
        let answer = put(&mut io::writer(&self.out), bytes);
        count_failed(&mut self.counts.say, answer)
    }
}
