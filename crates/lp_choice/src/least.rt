ghost use Rattle.std.specs.Prelude.{◌≡◌};
ghost use Rattle.lp_choice.specs.Least.{better, least_place};

/// The best cell so far.
#[derive(Clone, Copy)]
pub(crate) struct Best {
    /// Its place in the library.
    pub(crate) place: usize,
    /// Its area.
    pub(crate) area: u64,
}

/// The place of the first of the least areas; a cell that does not fit has none.
pub(crate) fn least(areas: &[Option<u64>]) -> Option<usize>
    ensures { result ≡ least_place areas.now }
{
    let mut best = None;
    for place in (0..areas.len()).rev() {
        best = better(place, areas[place], best);
    }
    best.map(|found: Best| found.place)
}

/// The better of a cell and the best of those behind it.
fn better(place: usize, area: Option<u64>, best: Option<Best>) -> Option<Best>
    ensures { result ≡ better place area best }
{
    match (area, best) {
        (None, _) => best,
        (Some(area), Some(found)) if found.area < area => Some(found),
        (Some(area), _) => Some(Best { place, area }),
    }
}
