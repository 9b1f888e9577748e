//! What is wrong with a file.

/// A field of an ELF file whose value is refused.
#[derive(Clone, Copy, PartialEq, Eq, Debug)]
pub enum ElfField {
    /// The class is not that of 64-bit files, 2.
    Class,
    /// The order of bytes is not little-endian, 1.
    Order,
    /// The file's type is not that of executable files, 2.
    Type2,
    /// The machine is not RISC-V, 243.
    Machine,
    /// A program header does not have 56 bytes, and there is one.
    Phentsize,
    /// The entry is odd, so no instruction can stand there.
    Entry,
    /// A section header does not have 64 bytes.
    Shentsize,
    /// The symbol table's section of names has a number that no section has.
    Link,
    /// The symbol `tohost` has a value that is no place for the host's word. No call here gives it.
    Tohost,
}

/// Why a file is refused.
#[derive(Clone, Copy, PartialEq, Eq, Debug)]
pub enum ElfFault {
    /// The file does not begin as an ELF file does.
    NotElf,
    /// A field has a value that is refused.
    WrongKind(ElfField),
    /// What begins at this place of the file, in bytes, reaches past its end.
    Truncated(u64),
    /// The segment of this index in the table of program headers does not lie in guest memory.
    OutsideRam(u16),
    /// The segment of this index has more bytes in the file than in memory.
    Shrinks(u16),
    /// The file has this many bytes, which is more than 67,108,864.
    TooLong(u64),
}
