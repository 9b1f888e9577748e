//! The page-table walker's sight of guest memory.

ghost use Rattle.std.specs.Prelude.{◌≡◌, ◌+◌, ◌<◌, ◌↔◌, IsSome, IfSome};
ghost use Rattle.guest_ram.specs.Bytes.{HasPart, IsAligned, number_at};

use crate::GuestRam;
use std::marker::Model;

/// The page tables in a region of guest memory, with a count of the entries that were read.
///
/// Contracts see the bytes of the region, and the count.
#[derive(Drop)]
pub struct PageTable<'a> {
    ram: &'a GuestRam,
    reads: u8,
}

impl<'a> Model for PageTable<'a> {
    ghost use Rattle.guest_ram.specs.Table.{Table};

    ghost Value = { Table };

    ghost view = { λ table. record { ram = table.ram.now; reads = table.reads } };
}

impl<'a> PageTable<'a> {
    /// The page tables in this region, of which no entry was read yet.
    pub fn new(ram: &'a GuestRam) -> PageTable<'a>
        ensures { result ≡ record { ram = ram.now; reads = 0 } }
    {
        PageTable { ram, reads: 0 }
    }

    /// How many entries were read.
    pub fn reads(&self) -> u8
        ensures { result ≡ self.now.reads }
    {
        self.reads
    }

    /// Reads the entry of 8 bytes at `at`, which counts also where there is none.
    ///
    /// None exactly where these bytes are not all in the region (Privileged ISA, "Virtual Address
    /// Translation Process").
    pub fn entry(&mut self, at: u64) -> Option<u64>
        requires aligned { IsAligned at 8 }
        requires room { self.old.reads < 255 }
        ensures counted { self.new ≡ record { ram = self.old.ram; reads = self.old.reads + 1 } }
        ensures inside { IsSome result ↔ HasPart self.old.ram at 8 }
        ensures number { IfSome result (λ entry. entry ≡ number_at self.old.ram at 8) }
    {
        self.reads += 1;
        if self.ram.has(at, 8) {
            Some(self.ram.read(at, 8))
        } else {
            None
        }
    }
}
