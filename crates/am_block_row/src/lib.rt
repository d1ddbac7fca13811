//! A row of places in one piece of raw memory, each of which is empty or has an item. Items may lead to one another by
//! the `Spot`s of their places.
#![tactic(auto)]

ghost use Rattle.std.specs.Prelude.{◌≡◌, ℕ, ◌<◌, List, Option, Some, None, length, replicate, get_or, slice_set, IfOk, ⊤};
ghost use Rattle.std.specs.Borrow.{sem};
ghost use Rattle.std.specs.Vec.Ownership.{FitsInBlock};
ghost use base.Fml.{ftrue};
ghost use denote.RawPtr.{Ptr};
ghost use Rattle.am_block_row.specs.Places.{IsFilled};
ghost use Rattle.am_block_row.specs.Ownership.{place_at, row_owned, row_lent, deed_owned};

use std::alloc::{AllocError, Allocator};
use std::marker::{Model, PhantomData, Send, Sync};
use std::mem::{align_of, size_of};

/// Where a row begins. It owns nothing.
pub struct Base<T> {
    pub ptr: *mut T,
}

impl<T> Clone for Base<T> {
    ghost is_clone = { λ x y. y ≡ x };

    ghost is_infallible = { λ _. ⊤ };

    fn clone(&self) -> Result<Base<T>, AllocError> {
        Ok(*self)
    }
}

impl<T> Copy for Base<T> {}

unsafe impl<T> Send for Base<T> {}

unsafe impl<T> Sync for Base<T> {}

/// Where a place lies. It owns nothing, and names no type, so that an item may hold the spots of others.
///
/// ```
/// let spot = row.pointer(base, 2);
/// row.fill(spot, 2, item);
/// ```
#[derive(Clone, Copy)]
pub struct Spot {
    pub ptr: *mut u8,
}

unsafe impl Send for Spot {}

unsafe impl Sync for Spot {}

/// The owner of the places and of the items in them. It takes no space: who holds it keeps the base and the length.
///
/// ```
/// row.write(base, 0, item);
/// let found = row.get(base, 0);
/// ```
pub struct Row<T> {
    mark: PhantomData<*const T>,
    pub ghost at: { Ptr },
    pub ghost places: { List (Option T) },
}

impl<T> Model for Row<T> {
    ghost also_owns = { λ r. row_owned T.row r.at r.places };

    ghost also_shares = { λ r _ κ. row_lent T.row r.at r.places κ };
}

unsafe impl<T: Send> Send for Row<T> {}

unsafe impl<T: Sync> Sync for Row<T> {}

/// The right to give the memory of `len` places at `at` back to `alloc`, once. It takes no space.
pub struct Deed<T, A: Allocator> {
    mark: PhantomData<*const (T, A)>,
    pub ghost at: { Ptr },
    pub ghost len: { ℕ },
    pub ghost alloc: { A },
}

impl<T, A: Allocator> Model for Deed<T, A> {
    ghost also_owns = { λ d. deed_owned T.row (A.dealloc_token d.alloc) d.at d.len };

    ghost also_shares = { λ _ _ _. ftrue };
}

unsafe impl<T, A: Allocator + Send> Send for Deed<T, A> {}

// A `&` to it holds nothing.
unsafe impl<T, A: Allocator> Sync for Deed<T, A> {}

/// Takes memory for `len` places, all empty. `Err` says that there was none.
pub fn allocate<T, A: Allocator>(
    alloc: &A,
    len: usize,
) -> Result<(Base<T>, Row<T>, Deed<T, A>), AllocError>
    requires { FitsInBlock T.row len }
    ensures row { IfOk result (λ r. (r.1.at ≡ r.0.ptr) × (r.1.places ≡ replicate len None)) }
    ensures deed { IfOk result (λ r. (r.2.at ≡ r.0.ptr) × (r.2.len ≡ len) × (r.2.alloc ≡ alloc.now)) }
{
    match alloc.allocate(len * size_of::<T>(), align_of::<T>()) {
        Ok(block) => {
            let base = Base {
                ptr: block as *mut T,
            };
            Ok((base, Row { mark: PhantomData }, Deed { mark: PhantomData }))
        }
        Err(error) => Err(error),
    }
}

/// Gives the memory of a row back, whose places are all empty.
pub fn deallocate<T, A: Allocator>(
    alloc: &A,
    base: Base<T>,
    len: usize,
    row: Row<T>,
    deed: Deed<T, A>,
)
    requires { (row.at ≡ base.ptr) × (row.places ≡ replicate len None) × (deed.at ≡ base.ptr) × (deed.len ≡ len) × (deed.alloc ≡ alloc.now) }
{
    let Row { mark: _ } = row;
    let Deed { mark: _ } = deed;
    unsafe {
        alloc.deallocate(base.ptr as *mut u8, len * size_of::<T>(), align_of::<T>());
    }
}

impl<T> Row<T> {
    ghost use Rattle.am_block_row.specs.Lends.{LendsItem};

    /// Where place `index` lies.
    pub fn pointer(&self, base: Base<T>, index: usize) -> Spot
        requires { (base.ptr ≡ self.now.at) × (index < length self.now.places) }
        ensures { result.ptr ≡ place_at T.row self.now.at index }
    {
        Spot {
            ptr: unsafe { base.ptr.add(index) } as *mut u8,
        }
    }

    /// Moves an item into place `index`, which lies at the spot and is empty.
    pub fn fill(&mut self, spot: Spot, index: usize, item: T)
        requires { (spot.ptr ≡ place_at T.row self.old.at index) × (index < length self.old.places) × (get_or self.old.places index None ≡ None) }
        ensures { (self.new.at ≡ self.old.at) × (self.new.places ≡ slice_set self.old.places index (Some item)) }
    {
        let place = spot.ptr as *mut T;
        unsafe { place.write(item) }
    }

    /// Moves the item out of place `index`, which lies at the spot.
    pub fn take(&mut self, spot: Spot, index: usize) -> T
        requires { (spot.ptr ≡ place_at T.row self.old.at index) × IsFilled self.old.places index }
        ensures item { get_or self.old.places index None ≡ Some result }
        ensures row { (self.new.at ≡ self.old.at) × (self.new.places ≡ slice_set self.old.places index None) }
    {
        let place = spot.ptr as *mut T;
        unsafe { place.read() }
    }

    /// The item of place `index`, which lies at the spot.
    pub fn follow(&self, spot: Spot, index: usize) -> &T
        requires { (spot.ptr ≡ place_at T.row self.now.at index) × IsFilled self.now.places index }
        ensures { get_or self.now.places index None ≡ Some result.now }
    {
        let place = spot.ptr as *const T;
        unsafe { &*place }
    }

    /// The item of place `index`, which lies at the spot, to be written to.
    pub fn follow_mut(&mut self, spot: Spot, index: usize) -> &mut T
        requires { (spot.ptr ≡ place_at T.row self.old.at index) × IsFilled self.old.places index }
        ensures* writes_back { sem 𝓛 (LendsItem T.row self.entry index result) }
        ensures value { get_or self.old.places index None ≡ Some result.now }
    {
        let place = spot.ptr as *mut T;
        unsafe { &mut *place }
    }

    /// The item of place `index`.
    pub fn get(&self, base: Base<T>, index: usize) -> &T
        requires { (base.ptr ≡ self.now.at) × IsFilled self.now.places index }
        ensures { get_or self.now.places index None ≡ Some result.now }
    {
        self.follow(self.pointer(base, index), index)
    }

    /// The item of place `index`, to be written to.
    pub fn get_mut(&mut self, base: Base<T>, index: usize) -> &mut T
        requires { (base.ptr ≡ self.old.at) × IsFilled self.old.places index }
        ensures* writes_back { sem 𝓛 (LendsItem T.row self.entry index result) }
        ensures value { get_or self.old.places index None ≡ Some result.now }
    {
        let spot = self.pointer(base, index);
        self.follow_mut(spot, index)
    }

    /// Moves an item into place `index`, which is empty.
    pub fn write(&mut self, base: Base<T>, index: usize, item: T)
        requires { (base.ptr ≡ self.old.at) × (index < length self.old.places) × (get_or self.old.places index None ≡ None) }
        ensures { (self.new.at ≡ self.old.at) × (self.new.places ≡ slice_set self.old.places index (Some item)) }
    {
        let spot = self.pointer(base, index);
        self.fill(spot, index, item);
    }

    /// Moves the item out of place `index`.
    pub fn read(&mut self, base: Base<T>, index: usize) -> T
        requires { (base.ptr ≡ self.old.at) × IsFilled self.old.places index }
        ensures item { get_or self.old.places index None ≡ Some result }
        ensures row { (self.new.at ≡ self.old.at) × (self.new.places ≡ slice_set self.old.places index None) }
    {
        let spot = self.pointer(base, index);
        self.take(spot, index)
    }
}
