//! Chunks of slots, and who owns them: each slot is empty or holds a record.
ghost use Rattle.std.specs.Prelude.{◌≡◌, ℕ, ◌+◌, ◌<◌, ◌≤◌, List, [], ◌∷◌, ◌++◌, length, get_or, slice_set, slice_index_or, IfOk, ⊤};
ghost use Rattle.std.specs.Borrow.{sem};
ghost use Rattle.std.specs.Vec.Ownership.{FitsInBlock};
ghost use base.Fml.{ftrue};
ghost use denote.RawPtr.{Ptr};
ghost use Rattle.lp_pool.specs.Places.{Spot, IsSpot, slots_at, slots_in, chunk};
ghost use Rattle.lp_pool.specs.Ownership.{records_own, records_lent, deed_owns};

use std::alloc::{AllocError, Allocator};
use std::marker::{Model, PhantomData};
use std::mem::{align_of, size_of};

/// How many slots a chunk has. The word `chunk` of the clauses repeats this number.
pub(crate) const CHUNK: usize = 1024;

/// Where a chunk begins. It owns nothing.
pub struct Base<T> {
    pub(crate) ptr: *mut T,
}

impl<T> Clone for Base<T> {
    ghost is_clone = { λ x y. y ≡ x };

    ghost is_infallible = { λ _. ⊤ };

    fn clone(&self) -> Result<Base<T>, AllocError> {
        Ok(*self)
    }
}

impl<T> Copy for Base<T> {}

/// The owner of slots, the first of which hold the items. It takes no space: the pool holds the chunks' addresses.
pub struct Records<T> {
    mark: PhantomData<*const T>,
    ghost spots: { List Spot },
    ghost items: { List T },
}

impl<T> Model for Records<T> {
    ghost also_owns = { λ r. records_own T.row r.spots r.items };

    ghost also_shares = { λ r _ κ. records_lent T.row r.spots r.items κ };
}

/// The right to give the chunk of `len` slots at `at` back to `alloc`. It takes no space.
pub struct Deed<T, A: Allocator> {
    mark: PhantomData<*const (T, A)>,
    ghost at: { Ptr },
    ghost len: { ℕ },
    ghost alloc: { A },
}

impl<T, A: Allocator> Model for Deed<T, A> {
    ghost also_owns = { λ d. deed_owns T.row (A.dealloc_token d.alloc) d.at d.len };

    ghost also_shares = { λ _ _ _. ftrue };
}

pub(crate) fn allocate<T, A: Allocator>(
    alloc: &A,
    len: usize,
) -> Result<(Base<T>, Records<T>, Deed<T, A>), AllocError>
    requires { FitsInBlock T.row len × (len ≡ chunk) }
    ensures { IfOk result (λ r. (r.1.spots ≡ slots_in r.0.ptr 0 len) × (r.1.items ≡ []) × (r.2.at ≡ r.0.ptr) × (r.2.len ≡ len) × (r.2.alloc ≡ alloc.now)) }
{
    match alloc.allocate(len * size_of::<T>(), align_of::<T>()) {
        Ok(block) => {
            let base = Base {
                ptr: block as *mut T,
            };
            Ok((
                base,
                Records { mark: PhantomData },
                Deed { mark: PhantomData },
            ))
        }
        Err(error) => Err(error),
    }
}

pub(crate) fn deallocate<T, A: Allocator>(
    alloc: &A,
    base: Base<T>,
    len: usize,
    records: Records<T>,
    deed: Deed<T, A>,
)
    requires { (records.spots ≡ slots_at base.ptr len) × (records.items ≡ []) × (deed.at ≡ base.ptr) × (deed.len ≡ len)
        × (deed.alloc ≡ alloc.now) × (len ≡ chunk) }
{
    let Records { mark: _ } = records;
    let Deed { mark: _ } = deed;
    unsafe {
        alloc.deallocate(base.ptr as *mut u8, len * size_of::<T>(), align_of::<T>());
    }
}

impl<T> Records<T> {
    ghost use Rattle.lp_pool.specs.Lends.{lends_record};

    /// No slots.
    pub(crate) fn none() -> Records<T>
        requires { FitsInBlock T.row chunk }
        ensures { (result.spots ≡ []) × (result.items ≡ []) }
    {
        Records { mark: PhantomData }
    }

    /// Takes over empty slots.
    pub(crate) fn join(&mut self, more: Records<T>)
        requires { (more.items ≡ []) × (length self.old.items ≤ length self.old.spots) }
        ensures { (self.new.spots ≡ self.old.spots ++ more.spots) × (self.new.items ≡ self.old.items) }
    {
        let Records { mark: _ } = more;
    }

    /// Gives the `len` slots of the last chunk away, which are empty.
    pub(crate) fn cut(&mut self, base: Base<T>, len: usize) -> Records<T>
        requires { (rest : List Spot) × (self.old.spots ≡ rest ++ slots_in base.ptr 0 len) × (length self.old.items ≤ length rest) }
        ensures kept { (self.old.spots ≡ self.new.spots ++ slots_in base.ptr 0 len) × (self.new.items ≡ self.old.items) }
        ensures given { (result.spots ≡ slots_in base.ptr 0 len) × (result.items ≡ []) }
    {
        Records { mark: PhantomData }
    }

    pub(crate) fn end(self)
        requires { (self.spots ≡ []) × (self.items ≡ []) }
    {
        let Records { mark: _ } = self;
    }

    /// Puts a record into the first empty slot.
    pub(crate) fn write(&mut self, base: Base<T>, place: usize, item: T)
        requires { (place ≡ length self.old.items) × IsSpot self.old.spots place base.ptr }
        ensures { (self.new.spots ≡ self.old.spots) × (self.new.items ≡ self.old.items ++ item ∷ []) }
    {
        unsafe { base.ptr.add(place % CHUNK).write(item) }
    }

    /// Takes the last record out.
    pub(crate) fn read(&mut self, base: Base<T>, place: usize) -> T
        requires { (place + 1 ≡ length self.old.items) × IsSpot self.old.spots place base.ptr }
        ensures value { self.old.items ≡ self.new.items ++ result ∷ [] }
        ensures slots { self.new.spots ≡ self.old.spots }
    {
        unsafe { base.ptr.add(place % CHUNK).read() }
    }

    pub(crate) fn get(&self, base: Base<T>, place: usize) -> &T
        requires { (place < length self.now.items) × IsSpot self.now.spots place base.ptr }
        ensures { result.now ≡ slice_index_or self.now.items place result.now }
    {
        unsafe { &*base.ptr.add(place % CHUNK) }
    }

    pub(crate) fn get_mut(&mut self, base: Base<T>, place: usize) -> &mut T
        requires { (place < length self.old.items) × IsSpot self.old.spots place base.ptr }
        ensures* writes_back { sem 𝓛 (lends_record T.row self.entry place result) }
        ensures value { result.now ≡ slice_index_or self.old.items place result.now }
    {
        unsafe { &mut *base.ptr.add(place % CHUNK) }
    }
}
