ghost use Rattle.std.specs.Prelude.{◌≡◌, IfOk};
ghost use Rattle.lp_places.specs.Places.{has_number};
ghost use Rattle.lp_connections.specs.Rows.{IsSet};

use lp_text::NoMemory;
use std::alloc::Global;
use std::marker::Model;

/// Names by their numbers, sorted for look-up: contracts see the numbers in their own order.
#[derive(Drop)]
pub(crate) struct NumberSet {
    numbers: Vec<u32>,
    sorted: Vec<u32>,
}

impl Model for NumberSet {
    ghost use Rattle.std.specs.Prelude.{List, ℕ};
    ghost use Rattle.lp_connections.specs.Rows.{IsSet};

    ghost Value = { List ℕ };

    ghost view = { λ s. s.numbers.items };

    ghost invariant = { λ s. IsSet s.sorted.items s.numbers.items };
}

/// The numbers, sorted.
fn sorted(alloc: Global, numbers: &[u32]) -> Result<Vec<u32>, NoMemory>
    ensures { IfOk result (λ s. IsSet s.items numbers.now) }
{
    let mut sorted = Vec::from_slice(alloc, numbers)?;
    sorted.sort_unstable();
    Ok(sorted)
}

impl NumberSet {
    /// A set of numbers. Takes n log n time.
    pub fn new(alloc: Global, numbers: Vec<u32>) -> Result<NumberSet, NoMemory>
        ensures { IfOk result (λ s. s ≡ numbers.items) }
    {
        let sorted = sorted(alloc, numbers.as_slice())?;
        Ok(NumberSet { numbers, sorted })
    }

    /// Whether it has a number. Takes time by the logarithm of the numbers.
    pub fn has(&self, number: u32) -> bool
        ensures { result ≡ has_number number self.now }
    {
        self.sorted.as_slice().binary_search(&number).is_ok()
    }
}
