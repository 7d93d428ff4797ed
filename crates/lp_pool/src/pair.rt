//! Two records of a pool, lent at once.
ghost use Rattle.std.specs.Prelude.{◌≡◌, ◌≢◌, ◌<◌, length};
ghost use Rattle.std.specs.Borrow.{sem};
ghost use Rattle.lp_pool.specs.PairLends.{AreRecords, AreTwoPlaces, sole, lends_pair};

use crate::key::Key;
use crate::pool::Pool;
use crate::slots::{Base, CHUNK};

/// The records of two keys of the one pool in `row`, to write to. All other places stay.
///
/// The pool is lent as a row of one, `slice::from_mut(&mut pool)`, so that the caller's proof knows what it ends as.
pub fn lend_pair<T>(row: &mut [Pool<T>], a: Key<T>, b: Key<T>) -> (&mut T, &mut T)
    requires one { length row.old ≡ 1 }
    requires live { (a.place < length (sole row.old).items) × (b.place < length (sole row.old).items) }
    requires distinct { a.place ≢ b.place }
    ensures* lends { sem 𝓛 (lends_pair T.row row.entry a.place b.place result) }
    ensures values { AreRecords (sole row.old).items a.place result.0.now b.place result.1.now }
{
    let first = row[0].base_of(a);
    let second = row[0].base_of(b);
    lend_two(row, first, a.place, second, b.place)
}

fn lend_two<T>(
    row: &mut [Pool<T>],
    first: Base<T>,
    a: usize,
    second: Base<T>,
    b: usize,
) -> (&mut T, &mut T)
    requires { AreTwoPlaces row.old a first.ptr b second.ptr }
    ensures* lends { sem 𝓛 (lends_pair T.row row.entry a b result) }
    ensures values { AreRecords (sole row.old).items a result.0.now b result.1.now }
{
    unsafe {
        let x = first.ptr.add(a % CHUNK);
        let y = second.ptr.add(b % CHUNK);
        (&mut *x, &mut *y)
    }
}
