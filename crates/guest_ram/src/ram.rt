//! The region and its calls.

ghost use Rattle.std.specs.Prelude.{◌≡◌, ◌+◌, ◌<◌, ◌≤◌, ◌^◌, ◌↔◌, ℕ, List, [], length, replicate, IsTrue, IfOk, vec_len, vec_capacity};
ghost use Rattle.std.specs.Vec.{vec_ptr};
ghost use Rattle.std.specs.Borrow.{Array, Lends, sem, u8 as byte};
ghost use Rattle.byteorder.specs.Endian.{little_bytes};
ghost use Rattle.guest_ram.specs.Bytes.{HasPart, IsAligned, IsBounded, IsSize, has_part, is_in_ram, most_bytes, number_at, part_of, with_part};
ghost use Rattle.guest_ram.specs.contracts.ram.GuestRam.{the_row};

use crate::block::{Receipt, give_back, take};
use byteorder::{ByteOrder, LittleEndian};
use std::alloc::{AllocError, Global};
use std::marker::Model;
use std_alloc::vec::Lodged;

/// The allocator has no room for the region.
pub type NoMemory = AllocError;

/// The guest address of the first byte.
pub const BASE: u64 = 0x8000_0000;

/// The greatest length of a region, 256 MiB.
pub const MOST_BYTES: u64 = 0x1000_0000;

/// Whether the `n` bytes from `at` all lie in a region of `ram_len` bytes. For `n` 0: whether `at`
/// lies in the region or one past its end.
pub fn is_in_ram(ram_len: u64, at: u64, n: u64) -> bool
    ensures { result ≡ is_in_ram ram_len at n }
{
    BASE <= at && n <= ram_len && at - BASE <= ram_len - n
}

/// A region of guest memory from [`BASE`] on, of at least 1 byte and at most 256 MiB.
///
/// Contracts see it as the list of its bytes.
pub struct GuestRam {
    bytes: Vec<u8, Lodged>,
    receipt: Receipt<Global>,
    alloc: Global,
}

impl Model for GuestRam {
    ghost use Rattle.std.specs.Prelude.{◌≡◌, List, ℕ, vec_capacity};
    ghost use Rattle.std.specs.Vec.{vec_ptr};
    ghost use Rattle.guest_ram.specs.Bytes.{IsBounded};

    ghost Value = { List ℕ };

    ghost view = { λ ram. ram.bytes.items };

    ghost invariant = { λ ram. IsBounded ram.bytes.items × (ram.receipt.ptr ≡ vec_ptr ram.bytes)
        × (ram.receipt.len ≡ vec_capacity ram.bytes) × (ram.receipt.alloc ≡ ram.alloc) };
}

impl Drop for GuestRam {
    fn drop(self) {
        let GuestRam {
            bytes,
            receipt,
            alloc,
        } = self;
        give_back(bytes, receipt, &alloc);
    }
}

// Fills an empty buffer up with `len` zeros, where it lies.
fn zeroed(mut bytes: Vec<u8, Lodged>, len: usize) -> Vec<u8, Lodged>
    requires { (bytes.items ≡ []) × (len ≤ vec_capacity bytes) }
    ensures items { result.items ≡ replicate len 0 }
    ensures in_place { (vec_ptr result ≡ vec_ptr bytes) × (vec_capacity result ≡ vec_capacity bytes) }
{
    for i in 0..len {
        bytes.push_reserved(0);
    }
    bytes
}

impl GuestRam {
    /// A region of `len` zero bytes.
    pub fn new(alloc: Global, len: u64) -> Result<GuestRam, NoMemory>
        requires some { 0 < len }
        requires most { len ≤ most_bytes }
        ensures { IfOk result (λ ram. ram ≡ replicate len 0) }
    {
        let (bytes, receipt) = take(&alloc, len as usize)?;
        let bytes = zeroed(bytes, len as usize);
        Ok(GuestRam {
            bytes,
            receipt,
            alloc,
        })
    }

    /// The length in bytes.
    pub fn len(&self) -> u64
        ensures length { result ≡ length self.now }
        ensures bounded { IsBounded self.now }
    {
        self.bytes.len() as u64
    }

    /// Whether the `n` bytes from `at` all lie in the region. For `n` 0: whether `at` lies in the
    /// region or one past its end.
    pub fn has(&self, at: u64, n: u64) -> bool
        ensures inside { IsTrue result ↔ HasPart self.now at n }
        ensures test { result ≡ has_part self.now at n }
    {
        // an address below the region is past every length
        at.wrapping_sub(BASE).saturating_add(n) <= self.len()
    }

    /// The little-endian number in the `size` bytes from `at`.
    pub fn read(&self, at: u64, size: u8) -> u64
        requires size { IsSize size }
        requires inside { HasPart self.now at size }
        requires aligned { IsAligned at size }
        ensures number { result ≡ number_at self.now at size }
        ensures fits { result < 256 ^ size }
    {
        let bytes = self.part(at, u64::from(size));
        match size {
            1 => u64::from(bytes[0]),
            2 => u64::from(LittleEndian::read_u16(bytes)),
            4 => u64::from(LittleEndian::read_u32(bytes)),
            _ => LittleEndian::read_u64(bytes),
        }
    }

    /// Stores the low `size` bytes of `v` from `at` on, the lowest first. All other bytes stay.
    pub fn write(&mut self, at: u64, size: u8, v: u64)
        requires size { IsSize size }
        requires inside { HasPart self.old at size }
        requires aligned { IsAligned at size }
        ensures { self.new ≡ with_part self.old at (little_bytes size v) }
    {
        let bytes = self.part_mut(at, u64::from(size));
        match size {
            1 => bytes[0] = (v & 0xff) as u8,
            2 => LittleEndian::write_u16(bytes, (v & 0xffff) as u16),
            4 => LittleEndian::write_u32(bytes, (v & 0xffff_ffff) as u32),
            _ => LittleEndian::write_u64(bytes, v),
        }
    }

    /// Lends the `n` bytes from `at`.
    pub fn part(&self, at: u64, n: u64) -> &[u8]
        requires { HasPart self.now at n }
        ensures bytes { result.now ≡ part_of self.now at n }
        ensures length { length result.now ≡ n }
    {
        let start = (at - BASE) as usize;
        &self.bytes[start..start + n as usize]
    }

    /// Lends the `n` bytes from `at` for writing. All other bytes stay.
    pub fn part_mut(&mut self, at: u64, n: u64) -> &mut [u8]
        requires { HasPart self.old at n }
        ensures* lent { sem 𝓛 (Lends the_row (Array byte 0) self.entry result (with_part self.old at)) }
        ensures bytes { result.now ≡ part_of self.old at n }
        ensures length { length result.now ≡ n }
    {
        let start = (at - BASE) as usize;
        self.bytes.slice_mut(start..start + n as usize)
    }
}
