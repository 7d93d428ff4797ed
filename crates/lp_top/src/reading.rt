ghost use Rattle.std.specs.Prelude.{◌≡◌, length, map, IfOk};
ghost use Rattle.lp_top.specs.Reading.{ReadsFiles, CountsFiles, CallsFiles, MissesFiles};

use lp_text::{Bytes, NoMemory, Shelf, ShelfFault};
use sqlite_items::Items;
use std::alloc::{AllocError, Global};

/// The first file that was not read.
#[derive(Clone, Copy)]
pub(crate) struct ReadStop {
    /// Why.
    pub(crate) cause: ShelfFault,
    /// Its place among the files, from 0.
    pub(crate) place: usize,
}

/// Reads the files in order, each by one call, up to the first that is refused.
pub(crate) fn read_files<S: Shelf>(
    alloc: Global,
    shelf: &mut S,
    names: &[&str],
) -> Result<Items<Bytes>, ReadStop>
    ensures gives { ReadsFiles (λ t. t) (S.held shelf.old) (map (λ n. n.now) names.now) result }
    ensures count { IfOk result (λ t. length t ≡ length names.now) }
    ensures counts { CountsFiles result (S.faults shelf.old) (S.faults shelf.new) }
    ensures keeps_held { S.held shelf.new ≡ S.held shelf.old }
    ensures keeps_said { S.said shelf.new ≡ S.said shelf.old }
    ensures counted { CallsFiles result (length names.now) (S.calls shelf.old) (S.calls shelf.new) }
    ensures misses { MissesFiles result (map (λ n. n.now) names.now) (S.missed shelf.old) (S.missed shelf.new) }
{
    let mut texts = Items::new(alloc);
    for name in names {
        let place = texts.len();
        match shelf.read(alloc, name) {
            Ok(text) => {
                if texts.push(Bytes::new(text)).is_err() {
                    return Err(ReadStop {
                        cause: ShelfFault::NoMemory,
                        place,
                    });
                }
            }
            Err(cause) => return Err(ReadStop { cause, place }),
        }
    }
    Ok(texts)
}
