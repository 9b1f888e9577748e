//! The call that finds a symbol.

ghost use Rattle.std.specs.Prelude.{◌≡◌, ◌+◌, ◌*◌, ◌≤◌, length};
ghost use Rattle.elf_load.specs.Format.{header_of, section_bytes, section_size};
ghost use Rattle.elf_load.specs.Loading.{HasHeader};
ghost use Rattle.elf_load.specs.Symbols.{begins_with_name, checked_value_in, named_value, symbol_table, symbol_value, value_by_table, value_in};

use crate::checks::reaches_past;
use crate::fault::{ElfFault, ElfField};
use crate::format::{FileHeader, SECTION_SIZE, SYMBOL_SIZE, Section, Symbol};

// The type of the section that is the symbol table.
const SHT_SYMTAB: u32 = 2;

// Whether the bytes begin with this name and the zero byte that ends it.
fn begins_with_name(bytes: &[u8], name: &[u8]) -> bool
    ensures { result ≡ begins_with_name bytes.now name.now }
{
    if name.len() >= bytes.len() {
        return false;
    }
    let (front, rest) = bytes.split_at(name.len());
    let is_same = front == name;
    let is_ended = rest[0] == 0;
    let has_zero = name.contains(&0);
    is_same & (is_ended & !has_zero)
}

impl Section {
    // The section's bytes, which lie in the file.
    fn bytes<'a>(&self, bytes: &'a [u8]) -> &'a [u8]
        requires { self.now.offset + self.now.size ≤ length bytes.now }
        ensures { result.now ≡ section_bytes bytes.now self.now }
    {
        let start = self.offset as usize;
        &bytes[start..start + self.size as usize]
    }
}

impl Symbol {
    // The value of the symbol, if it is a defined one of that name.
    #[tactic(auto, unfolding(crate::specs::Symbols::named_value))]
    fn named_value(&self, names: &[u8], name: &[u8]) -> Option<u64>
        ensures { result ≡ named_value names.now name.now self.now }
    {
        let at = self.name as usize;
        if self.shndx == 0 {
            return None;
        }
        if at > names.len() {
            return None;
        }
        if begins_with_name(&names[at..], name) {
            Some(self.value)
        } else {
            None
        }
    }
}

// The value of the first defined symbol of that name.
#[tactic(auto, unfolding(crate::specs::Symbols::value_in))]
fn value_in(bytes: &[u8], name: &[u8], table: &Section, names: &Section) -> Option<u64>
    requires table { table.now.offset + table.now.size ≤ length bytes.now }
    requires names { names.now.offset + names.now.size ≤ length bytes.now }
    ensures { result ≡ value_in bytes.now name.now table.now names.now }
{
    let names = names.bytes(bytes);
    for k in 0..table.size / SYMBOL_SIZE {
        let symbol = table.symbol(bytes, k);
        let value = symbol.named_value(names, name);
        if value.is_some() {
            return value;
        }
    }
    None
}

// The same, for two sections that may reach past the end of the file.
#[tactic(auto, unfolding(crate::specs::Symbols::checked_value_in))]
fn checked_value_in(
    bytes: &[u8],
    name: &[u8],
    table: &Section,
    names: &Section,
) -> Result<Option<u64>, ElfFault>
    ensures { result ≡ checked_value_in bytes.now name.now table.now names.now }
{
    let len = bytes.len() as u64;
    if reaches_past(len, table.offset, table.size) {
        return Err(ElfFault::Truncated(table.offset));
    }
    if reaches_past(len, names.offset, names.size) {
        return Err(ElfFault::Truncated(names.offset));
    }
    Ok(value_in(bytes, name, table, names))
}

// The first symbol table among the sections, whose headers all lie in the file.
#[tactic(auto, unfolding(crate::specs::Symbols::symbol_table))]
fn symbol_table(header: &FileHeader, bytes: &[u8]) -> Option<Section>
    requires header { header.now ≡ header_of bytes.now }
    requires inside { header.now.shoff + section_size * header.now.shnum ≤ length bytes.now }
    ensures { result ≡ symbol_table bytes.now }
{
    for i in 0..header.shnum {
        let section = header.section(bytes, i);
        if section.kind == SHT_SYMTAB {
            return Some(section);
        }
    }
    None
}

// The value by the first symbol table, whose link may be no number of a section.
#[tactic(auto, unfolding(crate::specs::Symbols::value_by_table))]
fn value_by_table(header: &FileHeader, bytes: &[u8], name: &[u8]) -> Result<Option<u64>, ElfFault>
    requires header { header.now ≡ header_of bytes.now }
    requires inside { header.now.shoff + section_size * header.now.shnum ≤ length bytes.now }
    ensures { result ≡ value_by_table bytes.now name.now (symbol_table bytes.now) }
{
    let Some(table) = symbol_table(header, bytes) else {
        return Ok(None);
    };
    if table.link >= u32::from(header.shnum) {
        return Err(ElfFault::WrongKind(ElfField::Link));
    }
    let names = header.section(bytes, table.link as u16);
    checked_value_in(bytes, name, &table, &names)
}

/// The value of the first defined symbol of that name in the file's symbol table.
///
/// A symbol is defined where its section's number is not 0. Its name is the bytes of the linked
/// section from the name's place to the next zero byte; one that does not end within the section
/// equals no name. The answer is None where the file has no sections, no symbol table (type 2) or no
/// such symbol. The faults are, in the order of the checks:
///
/// 1. [`ElfFault::WrongKind`] of the size of a section header, where it is not 64.
/// 2. [`ElfFault::Truncated`] of the place of the section headers, where they reach past the end of
///    the file.
/// 3. [`ElfFault::WrongKind`] of the link, where the first symbol table's is no section's number.
/// 4. [`ElfFault::Truncated`] of the place of the symbol table, then of the linked section, where it
///    reaches past the end of the file.
///
/// (System V ABI, 4, Sections, String Table and Symbol Table.)
#[tactic(auto, unfolding(crate::specs::Symbols::symbol_value))]
pub fn symbol(bytes: &[u8], name: &[u8]) -> Result<Option<u64>, ElfFault>
    requires { HasHeader bytes.now }
    ensures { result ≡ symbol_value bytes.now name.now }
{
    let header = FileHeader::read(bytes);
    if header.shoff == 0 || header.shnum == 0 {
        return Ok(None);
    }
    if u64::from(header.shentsize) != SECTION_SIZE {
        return Err(ElfFault::WrongKind(ElfField::Shentsize));
    }
    let size = SECTION_SIZE * u64::from(header.shnum);
    if reaches_past(bytes.len() as u64, header.shoff, size) {
        return Err(ElfFault::Truncated(header.shoff));
    }
    value_by_table(&header, bytes, name)
}
