//! A chunk of slots, with the right to free it.
ghost use Rattle.std.specs.Prelude.{◌≡◌, [], IfOk};
ghost use Rattle.lp_pool.specs.Places.{slots_in, chunk};

use crate::slots::{Base, CHUNK, Deed, Records, allocate, deallocate};
use std::alloc::{AllocError, Global};
use std_alloc::room::may_hold;

pub struct Chunk<T> {
    pub(crate) base: Base<T>,
    deed: Deed<T, Global>,
    ghost leased: { (deed.at ≡ base.ptr) × (deed.len ≡ chunk) },
}

impl<T> Chunk<T> {
    /// A new chunk, and its slots.
    pub(crate) fn new(alloc: &Global) -> Result<(Chunk<T>, Records<T>), AllocError>
        ensures { IfOk result (λ r. (r.1.spots ≡ slots_in r.0.base.ptr 0 chunk) × (r.1.items ≡ [])) }
    {
        if !may_hold::<T>(CHUNK) {
            return Err(AllocError);
        }
        let (base, records, deed) = allocate(alloc, CHUNK)?;
        Ok((Chunk { base, deed }, records))
    }

    pub(crate) fn free(self, alloc: &Global, records: Records<T>)
        requires { (records.spots ≡ slots_in self.base.ptr 0 chunk) × (records.items ≡ []) }
    {
        let Chunk { base, deed } = self;
        deallocate(alloc, base, CHUNK, records, deed);
    }
}
