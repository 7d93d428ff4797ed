ghost use Rattle.std.specs.Prelude.{◌≡◌, ◌≤◌};
ghost use Rattle.lp_text.specs.Shelf.{count_up};
ghost use Rattle.lp_text.specs.Streams.{failures, too_longs};

use crate::shelf::ShelfFault;

/// How often a shelf gave each answer. Each count stands still at its type's end.
#[derive(Clone, Copy)]
pub(crate) struct Counts {
    /// Reads that failed.
    pub(crate) read: u64,
    /// Writes that failed.
    pub(crate) write: u64,
    /// Says that failed.
    pub(crate) say: u64,
    /// Reads of files above the limit.
    pub(crate) long: u64,
}

impl Counts {
    pub(crate) fn new() -> Counts
        ensures { result ≡ record { read = 0; write = 0; say = 0; long = 0 } }
    {
        Counts {
            read: 0,
            write: 0,
            say: 0,
            long: 0,
        }
    }
}

/// One more, where the count is not at its end.
pub(crate) fn count_up(count: u64) -> u64
    ensures { result ≡ count_up count }
{
    count.saturating_add(1)
}

/// The answer as it is, with a failure counted.
pub(crate) fn count_failed<T>(
    count: &mut u64,
    answer: Result<T, ShelfFault>,
) -> Result<T, ShelfFault>
    ensures same { result ≡ answer }
    ensures counted { count.new ≡ failures answer count.old }
    ensures up { count.old ≤ count.new }
{
    if let Err(ShelfFault::Failed) = &answer {
        *count = count_up(*count);
    }
    answer
}

/// The answer as it is, with a file that is too long counted.
pub(crate) fn count_long<T>(count: &mut u64, answer: Result<T, ShelfFault>) -> Result<T, ShelfFault>
    ensures same { result ≡ answer }
    ensures counted { count.new ≡ too_longs answer count.old }
    ensures up { count.old ≤ count.new }
{
    if let Err(ShelfFault::TooLong) = &answer {
        *count = count_up(*count);
    }
    answer
}
