//! The checks that come before the first write to memory.

ghost use Rattle.std.specs.Prelude.{◌≡◌, IfOk};
ghost use Rattle.elf_load.specs.Format.{header_of, reaches_past};
ghost use Rattle.elf_load.specs.Loading.{HasHeader, field_fault, header_fault, segment_fault, segments_fault, table_fault};
ghost use Rattle.elf_load.specs.Refusal.{RefusedBy};

use crate::fault::{ElfFault, ElfField};
use crate::format::{FileHeader, HEADER_SIZE, SEGMENT_SIZE, Segment};
use guest_ram::is_in_ram;

// What an ELF file begins with.
const MAGIC: [u8; 4] = [0x7f, 0x45, 0x4c, 0x46];

/// The greatest length of a file.
pub const LONGEST_FILE: u64 = 0x400_0000;

// The wanted values of the header's fields: ELFCLASS64, ELFDATA2LSB, ET_EXEC and EM_RISCV.
const CLASS_64: u8 = 2;

const ORDER_LITTLE: u8 = 1;

const KIND_EXECUTABLE: u16 = 2;

const MACHINE_RISCV: u16 = 243;

// The type of a segment that is to be loaded.
pub(crate) const PT_LOAD: u32 = 1;

/// Whether the `n` bytes from `at` reach past `len` bytes.
pub(crate) fn reaches_past(len: u64, at: u64, n: u64) -> bool
    ensures { result ≡ reaches_past len at n }
{
    at > len || n > len - at
}

impl FileHeader {
    /// The header of a file that has no fault as a whole.
    #[tactic(auto, unfolding(crate::specs::Loading::header_fault))]
    pub(crate) fn checked(bytes: &[u8]) -> Result<FileHeader, ElfFault>
        ensures refused { RefusedBy (header_fault bytes.now) result }
        ensures header { IfOk result (λ header. header ≡ header_of bytes.now) }
    {
        let len = bytes.len() as u64;
        if len > LONGEST_FILE {
            return Err(ElfFault::TooLong(len));
        }
        if !bytes.starts_with(&MAGIC) {
            return Err(ElfFault::NotElf);
        }
        if bytes.len() < HEADER_SIZE {
            return Err(ElfFault::Truncated(0));
        }
        let header = FileHeader::read(bytes);
        header.check_fields()?;
        header.check_table(len)?;
        Ok(header)
    }

    // Refuses the first field, in the order of the checks, that has a wrong value.
    #[tactic(auto, unfolding(crate::specs::Loading::field_fault))]
    fn check_fields(&self) -> Result<(), ElfFault>
        ensures { RefusedBy (field_fault self.now) result }
    {
        if self.class != CLASS_64 {
            return Err(ElfFault::WrongKind(ElfField::Class));
        }
        if self.order != ORDER_LITTLE {
            return Err(ElfFault::WrongKind(ElfField::Order));
        }
        if self.kind != KIND_EXECUTABLE {
            return Err(ElfFault::WrongKind(ElfField::Type2));
        }
        if self.machine != MACHINE_RISCV {
            return Err(ElfFault::WrongKind(ElfField::Machine));
        }
        if self.phnum != 0 && u64::from(self.phentsize) != SEGMENT_SIZE {
            return Err(ElfFault::WrongKind(ElfField::Phentsize));
        }
        if self.entry % 2 != 0 {
            return Err(ElfFault::WrongKind(ElfField::Entry));
        }
        Ok(())
    }

    // Refuses a table of program headers that reaches past the end of the file.
    #[tactic(auto, unfolding(crate::specs::Loading::table_fault))]
    fn check_table(&self, len: u64) -> Result<(), ElfFault>
        ensures { RefusedBy (table_fault len self.now) result }
    {
        let size = SEGMENT_SIZE * u64::from(self.phnum);
        if self.phnum != 0 && reaches_past(len, self.phoff, size) {
            return Err(ElfFault::Truncated(self.phoff));
        }
        Ok(())
    }
}

impl Segment {
    /// Refuses the segment of index `i` for its first fault, if it is one to load.
    #[tactic(auto, unfolding(crate::specs::Loading::segment_fault))]
    pub(crate) fn check(&self, i: u16, len: u64, ram_len: u64) -> Result<(), ElfFault>
        ensures { RefusedBy (segment_fault len ram_len i self.now) result }
    {
        if self.kind != PT_LOAD {
            return Ok(());
        }
        if self.memsz < self.filesz {
            return Err(ElfFault::Shrinks(i));
        }
        if self.filesz != 0 && reaches_past(len, self.offset, self.filesz) {
            return Err(ElfFault::Truncated(self.offset));
        }
        if self.memsz != 0 && !is_in_ram(ram_len, self.paddr, self.memsz) {
            return Err(ElfFault::OutsideRam(i));
        }
        Ok(())
    }
}

/// Refuses the first fault of the segments, in the table's order.
#[tactic(auto, unfolding(crate::specs::Loading::segments_fault))]
pub(crate) fn check_segments(
    header: &FileHeader,
    bytes: &[u8],
    ram_len: u64,
) -> Result<(), ElfFault>
    requires whole { HasHeader bytes.now }
    requires header { header.now ≡ header_of bytes.now }
    ensures { RefusedBy (segments_fault bytes.now ram_len) result }
{
    for i in 0..header.phnum {
        let segment = header.segment(bytes, i);
        segment.check(i, bytes.len() as u64, ram_len)?;
    }
    Ok(())
}
