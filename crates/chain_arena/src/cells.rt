//! A block of memory behind a raw pointer. No other file touches it.
//!
//! The block has places for a number of values. They are written one after the other, from the first place on; those
//! that are written can be read and changed. What stands for the memory takes no space: the caller keeps the pointer.
ghost use Rattle.std.specs.Prelude.{◌≡◌, ℕ, ◌<◌, List, [], ◌∷◌, ◌++◌, length, slice_get, Some, IfOk, ⊤};
ghost use Rattle.std.specs.Borrow.{sem};
ghost use Rattle.std.specs.Vec.Ownership.{FitsInBlock};
ghost use base.Fml.{ftrue};
ghost use denote.RawPtr.{Ptr};
ghost use Rattle.chain_arena.specs.Ownership.{cells_own, cells_lent, deed_owns};

use std::alloc::{AllocError, Allocator};
use std::marker::{Model, PhantomData};
use std::mem::{align_of, size_of};

/// Where a block begins. It owns nothing.
pub struct Base<T> {
    ptr: *mut T,
}

impl<T> Clone for Base<T> {
    ghost is_clone = { λ x y. y ≡ x };

    ghost is_infallible = { λ _. ⊤ };

    fn clone(&self) -> Result<Base<T>, AllocError> {
        Ok(*self)
    }
}

impl<T> Copy for Base<T> {}

/// The memory of a block: its places, and the values in the first ones.
pub struct Cells<T> {
    mark: PhantomData<*const T>,
    ghost at: { Ptr },
    ghost places: { ℕ },
    ghost values: { List T },
}

impl<T> Model for Cells<T> {
    ghost also_owns = { λ c. cells_own T.row c.at c.places c.values };

    ghost also_shares = { λ c _ κ. cells_lent T.row c.at c.places c.values κ };
}

/// The right to give a block back to its allocator.
pub struct BlockRight<T, A: Allocator> {
    mark: PhantomData<*const (T, A)>,
    ghost at: { Ptr },
    ghost places: { ℕ },
    ghost alloc: { A },
}

impl<T, A: Allocator> Model for BlockRight<T, A> {
    ghost also_owns = { λ d. deed_owns T.row (A.dealloc_token d.alloc) d.at d.places };

    ghost also_shares = { λ _ _ _. ftrue };
}

impl<T> Cells<T> {
    ghost use Rattle.chain_arena.specs.Lends.{LendsValue};
    ghost use Rattle.chain_arena.specs.Places.{HasPlaces, IsDeedOf};

    /// A block with this many places, none of them written.
    pub(crate) fn allocate<A: Allocator>(
        alloc: &A,
        places: usize,
    ) -> Result<(Base<T>, Cells<T>, BlockRight<T, A>), AllocError>
        requires { FitsInBlock T.row places }
        ensures { IfOk result (λ r. HasPlaces r.1 r.0.ptr places [] × IsDeedOf r.2 r.0.ptr places alloc.now) }
    {
        match alloc.allocate(places * size_of::<T>(), align_of::<T>()) {
            Ok(block) => {
                let base = Base {
                    ptr: block as *mut T,
                };
                Ok((
                    base,
                    Cells { mark: PhantomData },
                    BlockRight { mark: PhantomData },
                ))
            }
            Err(refused) => Err(refused),
        }
    }

    /// Frees a block. Its values are forgotten, so they may be of a `Copy` type alone.
    pub(crate) fn deallocate<A: Allocator>(
        self,
        alloc: &A,
        base: Base<T>,
        places: usize,
        deed: BlockRight<T, A>,
    )
        requires { (self.at ≡ base.ptr) × (self.places ≡ places) × IsDeedOf deed base.ptr places alloc.now }
    {
        let Cells { mark: _ } = self;
        let BlockRight { mark: _ } = deed;
        unsafe {
            alloc.deallocate(
                base.ptr as *mut u8,
                places * size_of::<T>(),
                align_of::<T>(),
            );
        }
    }

    /// Writes into the first place that is not written.
    pub(crate) fn write(&mut self, base: Base<T>, index: usize, value: T)
        requires place { (base.ptr ≡ self.old.at) × (index ≡ length self.old.values) × (index < self.old.places) }
        ensures { HasPlaces self.new self.old.at self.old.places (self.old.values ++ value ∷ []) }
    {
        unsafe { base.ptr.add(index).write(value) }
    }

    /// The value in a place that is written.
    pub(crate) fn get(&self, base: Base<T>, index: usize) -> &T
        requires place { (base.ptr ≡ self.now.at) × (index < length self.now.values) }
        ensures { slice_get self.now.values index ≡ Some result.now }
    {
        unsafe { &*base.ptr.add(index) }
    }

    /// The value in a place that is written, to be changed there.
    pub(crate) fn get_mut(&mut self, base: Base<T>, index: usize) -> &mut T
        requires place { (base.ptr ≡ self.old.at) × (index < length self.old.values) }
        ensures* writes_back { sem 𝓛 (LendsValue T.row self.entry index result) }
        ensures value { slice_get self.old.values index ≡ Some result.now }
    {
        unsafe { &mut *base.ptr.add(index) }
    }
}
