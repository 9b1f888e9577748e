//! The output buffer.

ghost use Rattle.std.specs.Prelude.{◌≡◌, ◌≤◌, ◌∷◌, ◌++◌, [], length, IfOk};
ghost use Rattle.console.specs.Output.{spare_of};

use std::alloc::{AllocError, Global};
use std::marker::Model;

/// The allocator has no room for the buffer.
pub type NoMemory = AllocError;

/// A buffer of bytes that go out, with a room in bytes that is taken once and never grows.
///
/// Contracts see it as the bytes that it holds and its room, `Output`.
#[derive(Drop)]
pub struct OutBuf {
    buffer: Vec<u8>,
    room: u64,
}

impl Model for OutBuf {
    ghost use Rattle.std.specs.Prelude.{◌≤◌, vec_capacity, vec_len};
    ghost use Rattle.console.specs.Output.{Output};

    ghost Value = { Output };

    ghost view = { λ out. record { bytes = out.buffer.items; room = out.room } };

    ghost invariant = { λ out. (vec_len out.buffer ≤ out.room) × (out.room ≤ vec_capacity out.buffer) };
}

impl OutBuf {
    /// An empty buffer with room for this many bytes.
    ///
    /// # Errors
    ///
    /// `NoMemory` where the allocator has no room for them.
    pub fn new(alloc: Global, room: u64) -> Result<OutBuf, NoMemory>
        ensures { IfOk result (λ out. out ≡ record { bytes = []; room = room }) }
    {
        let buffer = Vec::with_capacity(alloc, room as usize)?;
        Ok(OutBuf { buffer, room })
    }

    /// The bytes that it holds, in the order in which they came.
    pub fn bytes(&self) -> &[u8]
        ensures { result.now ≡ self.now.bytes }
    {
        self.buffer.as_slice()
    }

    /// How many more bytes it can take.
    pub fn spare(&self) -> u64
        ensures spare { result ≡ spare_of self.now }
        ensures within { length self.now.bytes ≤ self.now.room }
    {
        self.room - self.buffer.len() as u64
    }

    /// Appends a byte.
    pub fn push(&mut self, b: u8)
        requires { 1 ≤ spare_of self.old }
        ensures { self.new ≡ record self.old { bytes = self.old.bytes ++ b ∷ [] } }
    {
        self.buffer.push_reserved(b);
    }

    /// Appends the bytes of a slice.
    pub(crate) fn append(&mut self, bytes: &[u8])
        requires { length bytes.now ≤ spare_of self.old }
        ensures { self.new ≡ record self.old { bytes = self.old.bytes ++ bytes.now } }
    {
        match self.buffer.extend_from_slice(bytes) {
            Ok(()) => {}
            Err(_) => unreachable!(),
        }
    }

    /// Leaves no bytes; the room stays.
    pub fn clear(&mut self)
        ensures { self.new ≡ record self.old { bytes = [] } }
    {
        self.buffer.clear();
    }
}
