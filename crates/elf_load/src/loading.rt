//! The loader's call.

ghost use Rattle.std.specs.Prelude.{◌≡◌, IfOk, OnErr, OnOk, length};
ghost use Rattle.elf_load.specs.Loading.{HasHeader, IsZero, entry_of, load_fault, loaded_memory};
ghost use Rattle.elf_load.specs.Refusal.{RefusedBy};

use crate::checks::check_segments;
use crate::fault::ElfFault;
use crate::format::FileHeader;
use guest_ram::GuestRam;

/// Lays the segments of the file `bytes` into memory, in the order of their table, and gives the
/// address of the entry.
///
/// Each segment to load (type 1) is written to its physical address, with zeros past its bytes in
/// the file; where segments overlap, the later one stands. All checks come before the first write:
/// a file that is refused leaves memory as it was. The faults are, in the order of the checks:
///
/// 1. [`ElfFault::TooLong`] where the file has more than 67,108,864 bytes.
/// 2. [`ElfFault::NotElf`] where it does not begin with 7f 45 4c 46.
/// 3. [`ElfFault::Truncated`] of 0 where it has fewer than 64 bytes.
/// 4. [`ElfFault::WrongKind`] of the class, the order of bytes, the type, the machine, the size of a
///    program header (where there is one) and the entry.
/// 5. [`ElfFault::Truncated`] of the place of the program headers, where there is one and they reach
///    past the end of the file.
/// 6. For each segment to load: [`ElfFault::Shrinks`], [`ElfFault::Truncated`] of the place of its
///    bytes, where it has any, and [`ElfFault::OutsideRam`], where it has any bytes in memory.
///
/// (System V ABI, 4, ELF Header, and 5, Program Header.)
pub fn load(bytes: &[u8], ram: &mut GuestRam) -> Result<u64, ElfFault>
    requires { IsZero ram.old }
    ensures refused { RefusedBy (load_fault bytes.now (length ram.old)) result }
    ensures entry { IfOk result (λ entry. entry ≡ entry_of bytes.now) }
    ensures memory { OnOk result (ram.new ≡ loaded_memory bytes.now (length ram.old)) }
    ensures unchanged { OnErr result (ram.new ≡ ram.old) }

    // What `symbol` asks of the file.
    ensures header { OnOk result (HasHeader bytes.now) }
{
    let header = FileHeader::checked(bytes)?;
    check_segments(&header, bytes, ram.len())?;
    header.lay_segments(bytes, ram);
    Ok(header.entry)
}
