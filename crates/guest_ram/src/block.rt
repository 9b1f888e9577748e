//! The unsafe core: a block of bytes from the allocator, lent as a buffer.
//!
//! `take` and `give_back` are the only code of the crate that has to do with raw memory.

ghost use Rattle.std.specs.Prelude.{◌≡◌, ◌<◌, ◌^◌, [], IfOk, vec_capacity};
ghost use Rattle.std.specs.Vec.{vec_ptr};

use std::alloc::{AllocError, Allocator};
use std::marker::{Model, PhantomData};
use std_alloc::vec::{Lodged, lodge};

// The right, and the duty, to give the block of `len` bytes at `ptr` back to `alloc`. It is not
// `Drop`, and only `give_back` takes it.
pub(crate) struct Receipt<A: Allocator> {
    ptr: *mut u8,
    len: usize,
    marker: PhantomData<A>,
    ghost alloc: { A },
}

impl<A: Allocator> Model for Receipt<A> {
    ghost use Rattle.guest_ram.specs.Ownership.{bytes_of};

    ghost also_owns = { λ r. A.dealloc_token r.alloc (bytes_of r.len) r.ptr };
}

// A buffer with room for `len` bytes, and the receipt for its block.
pub(crate) fn take<A: Allocator>(
    alloc: &A,
    len: usize,
) -> Result<(Vec<u8, Lodged>, Receipt<A>), AllocError>
    requires { (0 < len) × (len < 2 ^ 63) }
    ensures { IfOk result (λ r. (r.0.items ≡ []) × (vec_capacity r.0 ≡ len)
        × (r.1.ptr ≡ vec_ptr r.0) × (r.1.len ≡ len) × (r.1.alloc ≡ alloc.now)) }
{
    match alloc.allocate(len, 1) {
        Ok(ptr) => {
            let buffer = unsafe { lodge(ptr, 0, len) };
            let marker = PhantomData;
            Ok((buffer, Receipt { ptr, len, marker }))
        }
        Err(error) => Err(error),
    }
}

// Gives the block of a buffer back to the allocator that it came from.
pub(crate) fn give_back<A: Allocator>(buffer: Vec<u8, Lodged>, receipt: Receipt<A>, alloc: &A)
    requires { (receipt.ptr ≡ vec_ptr buffer) × (receipt.len ≡ vec_capacity buffer)
        × (receipt.alloc ≡ alloc.now) × (0 < vec_capacity buffer) }
{
    let _filled = buffer.dislodge();
    let Receipt {
        ptr,
        len,
        marker: _,
    } = receipt;
    unsafe { alloc.deallocate(ptr, len, 1) }
}
