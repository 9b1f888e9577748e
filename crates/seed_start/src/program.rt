//! The bytes of a seed's program.

ghost use Rattle.std.specs.Prelude.{◌≡◌, ◌+◌, ◌++◌, IfOk, OnOk, length};
ghost use Rattle.byteorder.specs.Endian.{little_bytes};
ghost use Rattle.seed_start.specs.Seed.{image_of, next_state, opening, program_of};

use crate::start::NoMemory;
use crate::words::{addi, back, console_address, drawn_word, hart_number, program_address};
use byteorder::{ByteOrder, LittleEndian};
use std::alloc::Global;

/// How many instructions are drawn.
const DRAWN: u32 = 200;

/// The number of the generator after a number.
fn next_state(s: u64) -> u64
    ensures { result ≡ next_state s }
{
    s.wrapping_mul(6_364_136_223_846_793_005)
        .wrapping_add(1_442_695_040_888_963_407)
}

/// Adds the four bytes of a word.
fn push_word(out: &mut Vec<u8>, word: u32) -> Result<(), NoMemory>
    ensures bytes { OnOk result (out.new.items ≡ out.old.items ++ little_bytes 4 word) }
    ensures length { OnOk result (length out.new.items ≡ length out.old.items + 4) }
{
    let mut bytes = [0u8; 4];
    LittleEndian::write_u32(&mut bytes, word);
    out.extend_from_slice(&bytes)
}

/// The bytes of the instructions before those that are drawn.
#[tactic(auto, unfolding(crate::specs::Seed::image_of))]
fn opened(alloc: Global) -> Result<Vec<u8>, NoMemory>
    ensures bytes { IfOk result (λ v. v.items ≡ image_of opening) }
    ensures length { IfOk result (λ v. length v.items ≡ 16) }
{
    let mut out = Vec::new(alloc);
    push_word(&mut out, program_address())?;
    push_word(&mut out, addi(29, 28, 1024))?;
    push_word(&mut out, console_address())?;
    push_word(&mut out, hart_number())?;
    Ok(out)
}

/// The bytes of the program.
pub(crate) fn image(alloc: Global, seed: u64) -> Result<Vec<u8>, NoMemory>
    ensures bytes { IfOk result (λ v. v.items ≡ image_of (program_of seed)) }
    ensures length { IfOk result (λ v. length v.items ≡ 820) }
{
    let mut out = opened(alloc)?;
    let mut s = seed;
    for _ in 0..DRAWN {
        push_word(&mut out, drawn_word(s))?;
        s = next_state(s);
    }
    push_word(&mut out, back())?;
    Ok(out)
}
