//! The records of an ELF64 file. The fields have the standard's names, without their prefixes.

ghost use Rattle.std.specs.Prelude.{◌≡◌, ◌+◌, ◌*◌, ◌≤◌, length};
ghost use Rattle.elf_load.specs.Format.{field, header_of, header_size, section_at, section_of, section_size, segment_at, segment_of, segment_size, symbol_at, symbol_of, symbol_size};

use byteorder::{ByteOrder, LittleEndian};

/// The length of the file's header.
pub(crate) const HEADER_SIZE: usize = 64;
/// The length of a program header.
pub(crate) const SEGMENT_SIZE: u64 = 56;
/// The length of a section header.
pub(crate) const SECTION_SIZE: u64 = 64;
/// The length of a symbol.
pub(crate) const SYMBOL_SIZE: u64 = 24;

// The numbers in the 2, 4 and 8 bytes from the place `at` of the file.
#[tactic(auto, unfolding(crate::specs::Format::field))]
fn u16_at(bytes: &[u8], at: u64) -> u16
    requires { at + 2 ≤ length bytes.now }
    ensures { result ≡ field bytes.now at 2 }
{
    LittleEndian::read_u16(&bytes[at as usize..])
}

#[tactic(auto, unfolding(crate::specs::Format::field))]
fn u32_at(bytes: &[u8], at: u64) -> u32
    requires { at + 4 ≤ length bytes.now }
    ensures { result ≡ field bytes.now at 4 }
{
    LittleEndian::read_u32(&bytes[at as usize..])
}

#[tactic(auto, unfolding(crate::specs::Format::field))]
fn u64_at(bytes: &[u8], at: u64) -> u64
    requires { at + 8 ≤ length bytes.now }
    ensures { result ≡ field bytes.now at 8 }
{
    LittleEndian::read_u64(&bytes[at as usize..])
}

// The byte at the place `at` of the file.
#[tactic(auto, unfolding(crate::specs::Format::field))]
fn u8_at(bytes: &[u8], at: u64) -> u8
    requires { at + 1 ≤ length bytes.now }
    ensures { result ≡ field bytes.now at 1 }
{
    bytes[at as usize]
}

/// The header at the start of a file (System V ABI, 4, ELF Header).
#[derive(Clone, Copy)]
pub(crate) struct FileHeader {
    // e_ident[EI_CLASS] and e_ident[EI_DATA]
    pub(crate) class: u8,
    pub(crate) order: u8,
    // e_type
    pub(crate) kind: u16,
    pub(crate) machine: u16,
    pub(crate) entry: u64,
    // place, size of an entry and number of entries of the program headers
    pub(crate) phoff: u64,
    pub(crate) phentsize: u16,
    pub(crate) phnum: u16,
    // the same of the section headers
    pub(crate) shoff: u64,
    pub(crate) shentsize: u16,
    pub(crate) shnum: u16,
}

/// A program header: which bytes of the file stand where in memory (5, Program Header).
#[derive(Clone, Copy)]
pub(crate) struct Segment {
    // p_type
    pub(crate) kind: u32,
    pub(crate) offset: u64,
    pub(crate) paddr: u64,
    pub(crate) filesz: u64,
    pub(crate) memsz: u64,
}

/// A section header: which bytes of the file belong together (4, Sections).
#[derive(Clone, Copy)]
pub(crate) struct Section {
    // sh_type
    pub(crate) kind: u32,
    pub(crate) offset: u64,
    pub(crate) size: u64,
    pub(crate) link: u32,
}

/// An entry of the symbol table (4, Symbol Table).
#[derive(Clone, Copy)]
pub(crate) struct Symbol {
    // the place of its name in the section of names
    pub(crate) name: u32,
    pub(crate) shndx: u16,
    pub(crate) value: u64,
}

impl FileHeader {
    /// The header at the start of the file.
    pub(crate) fn read(bytes: &[u8]) -> FileHeader
        requires { header_size ≤ length bytes.now }
        ensures { result ≡ header_of bytes.now }
    {
        FileHeader {
            class: u8_at(bytes, 4),
            order: u8_at(bytes, 5),
            kind: u16_at(bytes, 16),
            machine: u16_at(bytes, 18),
            entry: u64_at(bytes, 24),
            phoff: u64_at(bytes, 32),
            phentsize: u16_at(bytes, 54),
            phnum: u16_at(bytes, 56),
            shoff: u64_at(bytes, 40),
            shentsize: u16_at(bytes, 58),
            shnum: u16_at(bytes, 60),
        }
    }

    /// The program header of index `i`.
    #[tactic(auto, unfolding(crate::specs::Format::segment_of))]
    pub(crate) fn segment(&self, bytes: &[u8], i: u16) -> Segment
        requires header { self.now ≡ header_of bytes.now }
        requires inside { self.now.phoff + segment_size * (i + 1) ≤ length bytes.now }
        ensures { result ≡ segment_of bytes.now i }
    {
        Segment::read(bytes, self.phoff + SEGMENT_SIZE * u64::from(i))
    }

    /// The section header of index `i`.
    #[tactic(auto, unfolding(crate::specs::Format::section_of))]
    pub(crate) fn section(&self, bytes: &[u8], i: u16) -> Section
        requires header { self.now ≡ header_of bytes.now }
        requires inside { self.now.shoff + section_size * (i + 1) ≤ length bytes.now }
        ensures { result ≡ section_of bytes.now i }
    {
        Section::read(bytes, self.shoff + SECTION_SIZE * u64::from(i))
    }
}

impl Segment {
    /// The program header at the place `at`.
    pub(crate) fn read(bytes: &[u8], at: u64) -> Segment
        requires { at + segment_size ≤ length bytes.now }
        ensures { result ≡ segment_at bytes.now at }
    {
        Segment {
            kind: u32_at(bytes, at),
            offset: u64_at(bytes, at + 8),
            paddr: u64_at(bytes, at + 24),
            filesz: u64_at(bytes, at + 32),
            memsz: u64_at(bytes, at + 40),
        }
    }
}

impl Section {
    /// The section header at the place `at`.
    pub(crate) fn read(bytes: &[u8], at: u64) -> Section
        requires { at + section_size ≤ length bytes.now }
        ensures { result ≡ section_at bytes.now at }
    {
        Section {
            kind: u32_at(bytes, at + 4),
            offset: u64_at(bytes, at + 24),
            size: u64_at(bytes, at + 32),
            link: u32_at(bytes, at + 40),
        }
    }

    /// The symbol of index `i`, where this section is a symbol table.
    #[tactic(auto, unfolding(crate::specs::Format::symbol_of))]
    pub(crate) fn symbol(&self, bytes: &[u8], i: u64) -> Symbol
        requires { self.now.offset + symbol_size * (i + 1) ≤ length bytes.now }
        ensures { result ≡ symbol_of bytes.now self.now i }
    {
        Symbol::read(bytes, self.offset + SYMBOL_SIZE * i)
    }
}

impl Symbol {
    /// The symbol at the place `at`.
    pub(crate) fn read(bytes: &[u8], at: u64) -> Symbol
        requires { at + symbol_size ≤ length bytes.now }
        ensures { result ≡ symbol_at bytes.now at }
    {
        Symbol {
            name: u32_at(bytes, at),
            shndx: u16_at(bytes, at + 6),
            value: u64_at(bytes, at + 8),
        }
    }
}
