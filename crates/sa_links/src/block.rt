// A block of values that are reached by raw pointers. The block's `Vec` owns the memory and frees it; a slot
// owns nothing. These four functions alone look inside a slot.
ghost use Rattle.std.specs.Prelude.{◌≡◌, ◌<◌, length, slice_index_or, slice_set, ⊤};
ghost use Rattle.std.specs.Mem.{type_size};
ghost use Rattle.std.specs.Vec.{vec_ptr};
ghost use Rattle.sa_links.specs.Slot.{IsSlot, index_of};

use std::alloc::{AllocError, Allocator};
use std::marker::Send;

/// Where a value of a block lies. It owns nothing.
pub(crate) struct Slot<T> {
    ptr: *mut T,
}

impl<T> Clone for Slot<T> {
    ghost is_clone = { λ x y. y ≡ x };

    ghost is_infallible = { λ _. ⊤ };

    fn clone(&self) -> Result<Slot<T>, AllocError> {
        Ok(*self)
    }
}

impl<T> Copy for Slot<T> {}

// A slot gives no access by itself: `at` and `put` want the block too.
unsafe impl<T> Send for Slot<T> {}

/// The slot where a block begins.
pub(crate) fn begin_of<T, A: Allocator>(block: &mut Vec<T, A>) -> Slot<T>
    ensures slot { result.ptr ≡ vec_ptr block.old }
    ensures block { block.new ≡ block.old }
{
    Slot {
        ptr: block.as_mut_ptr(),
    }
}

/// The slot of the value at `index`, from where the block begins.
pub(crate) fn slot_at<T, A: Allocator>(block: &Vec<T, A>, begin: Slot<T>, index: usize) -> Slot<T>
    requires begin { begin.ptr ≡ vec_ptr block.now }
    requires inside { index < length block.now.items }
    requires sized { 0 < type_size T.row }
    ensures slot { IsSlot T.row (vec_ptr block.now) (length block.now.items) result.ptr }
    ensures index { index_of T.row (vec_ptr block.now) result.ptr ≡ index }
{
    Slot {
        ptr: unsafe { begin.ptr.add(index) },
    }
}

/// The value at a slot of the block.
pub(crate) fn at<T, A: Allocator>(block: &Vec<T, A>, slot: Slot<T>) -> &T
    requires { IsSlot T.row (vec_ptr block.now) (length block.now.items) slot.ptr }
    ensures { let i = index_of T.row (vec_ptr block.now) slot.ptr in
        result.now ≡ slice_index_or block.now.items i result.now }
{
    unsafe { &*slot.ptr }
}

/// Writes a value at a slot of the block. What stood there is forgotten.
pub(crate) fn put<T, A: Allocator>(block: &mut Vec<T, A>, slot: Slot<T>, value: T)
    requires { IsSlot T.row (vec_ptr block.old) (length block.old.items) slot.ptr }
    ensures items { let i = index_of T.row (vec_ptr block.old) slot.ptr in
        block.new.items ≡ slice_set block.old.items i value }
    ensures stays { vec_ptr block.new ≡ vec_ptr block.old }
{
    unsafe {
        slot.ptr.write(value);
    }
}
