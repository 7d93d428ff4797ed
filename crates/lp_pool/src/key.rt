ghost use Rattle.std.specs.Prelude.{◌≡◌, ⊤};

use std::alloc::AllocError;
use std::marker::PhantomData;

/// A place in a pool. It is live in a pool where the place is below the pool's length.
pub struct Key<T> {
    pub(crate) place: usize,
    of: PhantomData<*const T>,
}

impl<T> Clone for Key<T> {
    ghost is_clone = { λ x y. y ≡ x };

    ghost is_infallible = { λ _. ⊤ };

    fn clone(&self) -> Result<Key<T>, AllocError> {
        Ok(*self)
    }
}

impl<T> Copy for Key<T> {}

impl<T> Key<T> {
    /// The key of a place, counted from 0.
    pub fn at(place: usize) -> Key<T>
        ensures { result.place ≡ place }
    {
        Key {
            place,
            of: PhantomData,
        }
    }

    /// The place, from 0.
    pub fn place(self) -> usize
        ensures { result ≡ self.place }
    {
        self.place
    }
}
