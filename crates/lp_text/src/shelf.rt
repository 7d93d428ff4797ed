ghost use Rattle.std.specs.Prelude.{◌≡◌, ◌≤◌, ℕ, List, Option, IfOk, vec_len};
ghost use Rattle.std.specs.Option.{option_map};
ghost use Rattle.lp_text.specs.Shelf.{Files, Faults, count_up, ReadFaults, WriteFaults, SayFaults, ReadGives, WriteHolds, SayHolds, Misses};

use std::alloc::Global;
use thiserror::Error;

/// The most bytes that a read gives: 64 MiB.
pub const LIMIT: usize = 67_108_864;

/// Why a call of a shelf gave up.
#[derive(Clone, Copy, Debug, Error)]
pub enum ShelfFault {
    /// The outside refused the call.
    #[error("the call failed")]
    Failed,
    /// The file has more than [`LIMIT`] bytes.
    #[error("the file is above the limit")]
    TooLong,
    /// An allocation was refused.
    #[error("out of memory")]
    NoMemory,
}

/// The outside of a run: files by their names, and a place to say bytes.
///
/// Each count stands still at 2^64 - 1, so a count that is said to rise may stand there.
pub trait Shelf {
    ghost held: { Self → Option Files };

    ghost said: { Self → Option (List ℕ) };

    ghost calls: { Self → Option ℕ };

    ghost missed: { Self → Option (Option (List ℕ)) };

    ghost faults: { Self → Faults };

    /// All bytes of a file, at most [`LIMIT`].
    fn read(&mut self, alloc: Global, name: &str) -> Result<Vec<u8>, ShelfFault>
        ensures limit { IfOk result (λ v. vec_len v ≤ LIMIT) }
        ensures contents { ReadGives (λ v. v.items) (held self.old) name.now result }
        ensures counts { ReadFaults result (faults self.old) (faults self.new) }
        ensures keeps_held { held self.new ≡ held self.old }
        ensures keeps_said { said self.new ≡ said self.old }
        ensures counted { calls self.new ≡ option_map count_up (calls self.old) }
        ensures misses { Misses result name.now (missed self.old) (missed self.new) };

    /// Makes `bytes` the whole of a file. After an error the file is as before or has a prefix.
    fn write(&mut self, name: &str, bytes: &[u8]) -> Result<(), ShelfFault>
        ensures contents { WriteHolds result name.now bytes.now (held self.old) (held self.new) }
        ensures counts { WriteFaults result (faults self.old) (faults self.new) }
        ensures keeps_said { said self.new ≡ said self.old }
        ensures counted { calls self.new ≡ option_map count_up (calls self.old) }
        ensures misses { Misses result name.now (missed self.old) (missed self.new) };

    /// Says `bytes` after what was said. After an error a prefix is said.
    fn say(&mut self, bytes: &[u8]) -> Result<(), ShelfFault>
        ensures contents { SayHolds result bytes.now (said self.old) (said self.new) }
        ensures counts { SayFaults result (faults self.old) (faults self.new) }
        ensures keeps_held { held self.new ≡ held self.old }
        ensures counted { calls self.new ≡ option_map count_up (calls self.old) }
        ensures keeps_missed { missed self.new ≡ missed self.old };
}
