//! What the files of a test hold: texts, and programs as ELF files and as flat images.

use std::alloc::{AllocError, Global};
use std::process::Abort;

// What a file holds.
#[derive(Clone, Copy)]
pub(crate) enum Content {
    // There is no such file.
    Absent,
    // A text, and texts that follow one another.
    Text(&'static str),
    Texts(&'static [&'static str]),
    Bytes(&'static [u8]),
    // A flat image of these words, and zeros after them up to this size.
    Image(&'static [u32], usize),
    // An ELF file whose one segment is these words.
    Program(&'static [u32]),
    // The ELF file below with one field changed.
    Elf(Put),
}

// A file's name, and what it holds.
pub(crate) type File = (&'static str, Content);

// The bytes of a file: none where there is no such file.
pub(crate) fn bytes_of(
    rt: &impl Abort,
    alloc: Global,
    content: Content,
) -> Result<Option<Vec<u8>>, AllocError> {
    let bytes = match content {
        Content::Absent => return Ok(None),
        Content::Text(text) => Vec::from_slice(alloc, text.as_bytes())?,
        Content::Texts(texts) => joined(alloc, texts)?,
        Content::Bytes(bytes) => Vec::from_slice(alloc, bytes)?,
        Content::Image(words, size) => image_of(alloc, words, size)?,
        Content::Program(words) => program_of(alloc, &image_of(alloc, words, 0)?)?,
        Content::Elf(change) => Vec::from_slice(alloc, &elf(rt, change))?,
    };
    Ok(Some(bytes))
}

// Texts that follow one another.
fn joined(alloc: Global, texts: &[&str]) -> Result<Vec<u8>, AllocError> {
    let mut bytes = Vec::new(alloc);
    for text in texts {
        bytes.extend_from_slice(text.as_bytes())?;
    }
    Ok(bytes)
}

// The bytes of instruction words, as they stand in memory, and zeros up to this size.
fn image_of(alloc: Global, words: &[u32], size: usize) -> Result<Vec<u8>, AllocError> {
    let mut image = Vec::new(alloc);
    for word in words {
        image.extend_from_slice(&word.to_le_bytes())?;
    }
    if image.len() < size {
        image.resize(size, 0)?;
    }
    Ok(image)
}

// What stands before the sizes of the one segment: the header of an ELF file without symbols, and the
// segment at 0x80000000 from byte 120 of the file on (System V ABI, 4 and 5).
static HEADERS: [u64; 12] = [
    0x0001_0102_464c_457f,
    0,
    0x0000_0001_00f3_0002,
    0x8000_0000,
    64,
    0,
    0x0038_0040_0000_0000,
    0x0000_0000_0000_0001,
    0x0000_0007_0000_0001,
    120,
    0x8000_0000,
    0x8000_0000,
];

// An ELF file whose one segment is this image at 0x80000000, where it is entered.
pub(crate) fn program_of(alloc: Global, image: &[u8]) -> Result<Vec<u8>, AllocError> {
    let size = image.len() as u64;
    let mut file = Vec::new(alloc);
    for &number in &HEADERS {
        file.extend_from_slice(&number.to_le_bytes())?;
    }
    for number in [size, size, 4] {
        file.extend_from_slice(&number.to_le_bytes())?;
    }
    file.extend_from_slice(image)?;
    Ok(file)
}

// The place of a field in the file, its size and its value.
pub(crate) type Put = (usize, usize, u64);

// No field is changed.
pub(crate) const NO_CHANGE: Put = (0, 0, 0);

const ELF_SIZE: usize = 384;

// A program of four words at 0x80000000, with the symbol `tohost` at 0x80001000: the header, a program
// header at 64, the words at 120, the names at 136, two symbols at 144 and three sections at 192.
static ELF: [Put; 30] = [
    (0, 4, 0x464c_457f),
    (4, 1, 2),
    (5, 1, 1),
    (16, 2, 2),
    (18, 2, 243),
    (24, 8, 0x8000_0000),
    (32, 8, 64),
    (40, 8, 192),
    (54, 2, 56),
    (56, 2, 1),
    (58, 2, 64),
    (60, 2, 3),
    // the segment
    (64, 4, 1),
    (72, 8, 120),
    (88, 8, 0x8000_0000),
    (96, 8, 16),
    (104, 8, 16),
    (120, 8, 0x0000_1317_0010_0293),
    (128, 8, 0x0000_006f_fe53_3e23),
    // the names, and the symbol
    (137, 6, 0x7473_6f68_6f74),
    (168, 4, 1),
    (174, 2, 1),
    (176, 8, 0x8000_1000),
    // section 1: the names
    (260, 4, 3),
    (280, 8, 136),
    (288, 8, 8),
    // section 2: the symbols
    (324, 4, 2),
    (344, 8, 144),
    (352, 8, 48),
    (360, 4, 1),
];

// Writes the low bytes of a value to its place in the file, the lowest first.
fn put(rt: &impl Abort, file: &mut [u8], field: Put) {
    let (at, size, value) = field;
    assert!(rt; at <= file.len() && size <= 8);
    assert!(rt; size <= file.len() - at);
    file[at..at + size].copy_from_slice(&value.to_le_bytes()[..size]);
}

// The ELF file with one field changed.
fn elf(rt: &impl Abort, change: Put) -> [u8; ELF_SIZE] {
    let mut file = [0; ELF_SIZE];
    for &field in &ELF {
        put(rt, &mut file, field);
    }
    put(rt, &mut file, change);
    file
}
