//! Writes the segments to memory.

ghost use Rattle.std.specs.Prelude.{◌≡◌, ◌+◌, ◌-◌, ◌≤◌, ◌⊎◌, ◌++◌, IsTrue, None, length, take, drop, replicate};
ghost use Rattle.elf_load.specs.Format.{header_of};
ghost use Rattle.elf_load.specs.Loading.{FitsIn, HasHeader, IsLaid, IsZero, is_loaded, loaded_memory, segments_fault};

use crate::checks::PT_LOAD;
use crate::format::{FileHeader, Segment};
use guest_ram::GuestRam;

// Fills a part of memory with the bytes of the file that are for it, and with zeros after them.
fn fill_part(part: &mut [u8], file: &[u8])
    requires { length file.now ≤ length part.old }
    ensures { part.new ≡ file.now ++ replicate (length part.old - length file.now) 0 }
{
    let (front, rest) = part.split_at_mut(file.len());
    front.copy_from_slice(file);
    rest.fill(0);
}

impl Segment {
    // The segment's bytes in the file.
    fn file_bytes<'a>(&self, bytes: &'a [u8]) -> &'a [u8]
        requires { (self.now.filesz ≡ 0) ⊎ (self.now.offset + self.now.filesz ≤ length bytes.now) }
        ensures bytes { result.now ≡ take self.now.filesz (drop self.now.offset bytes.now) }
        ensures length { length result.now ≡ self.now.filesz }
    {
        if self.filesz == 0 {
            return &[];
        }
        let start = self.offset as usize;
        &bytes[start..start + self.filesz as usize]
    }

    // Writes the segment, if it is one to load, to its place in memory.
    fn lay(&self, bytes: &[u8], ram: &mut GuestRam)
        requires { IsTrue (is_loaded self.now) → FitsIn (length bytes.now) (length ram.old) self.now }
        ensures { IsLaid bytes.now self.now ram.old ram.new }
    {
        if self.kind != PT_LOAD || self.memsz == 0 {
            return;
        }
        let file = self.file_bytes(bytes);
        fill_part(ram.part_mut(self.paddr, self.memsz), file);
    }
}

impl FileHeader {
    /// Writes the segments, which have no fault, to a memory of zeros, each in its turn.
    pub(crate) fn lay_segments(&self, bytes: &[u8], ram: &mut GuestRam)
        requires whole { HasHeader bytes.now }
        requires header { self.now ≡ header_of bytes.now }
        requires no_fault { segments_fault bytes.now (length ram.old) ≡ None }
        requires zero { IsZero ram.old }
        ensures { ram.new ≡ loaded_memory bytes.now (length ram.old) }
    {
        for i in 0..self.phnum {
            let segment = self.segment(bytes, i);
            segment.lay(bytes, ram);
        }
    }
}
