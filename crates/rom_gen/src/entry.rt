//! The code with which each hart begins.

ghost use Rattle.std.specs.Prelude.{◌≡◌, ◌<◌, ◌≤◌, ◌++◌, IfOk, OnOk, length};
ghost use Rattle.rom_gen.specs.Executed.{Dispatches};
ghost use Rattle.rom_gen.specs.Items.{code};
ghost use Rattle.rom_gen.specs.Rom.{dispatch_bytes, dispatch_insns};

use crate::rom::NoMemory;
use crate::writer::{push_value, push_word};
use std::alloc::Global;

/// The first bytes of a boot ROM, which send each hart to the address that is listed at its number:
/// six words and the table of the addresses. There are 1 to 8 of these. x1 has the address then, and the
/// pc has it without bit 0.
///
/// # Errors
///
/// `NoMemory` where the allocator has no room for the bytes.
pub fn dispatch(alloc: Global, starts: &[u64]) -> Result<Vec<u8>, NoMemory>
    requires some { 0 < length starts.now }
    requires most { length starts.now ≤ 8 }
    ensures bytes { IfOk result (λ v. v.items ≡ dispatch_bytes starts.now) }
    ensures executed { IfOk result (λ v. Dispatches starts.now v.items) }
{
    let mut out = Vec::new(alloc);
    push_code(&mut out)?;
    for &start in starts {
        push_value(&mut out, start)?;
    }
    Ok(out)
}

/// The words: x1 gets the ROM's first address, x2 the hart's number times 8, x1 their sum and then the
/// entry that stands 24 bytes further on.
fn push_code(out: &mut Vec<u8>) -> Result<(), NoMemory>
    ensures { OnOk result (out.new.items ≡ out.old.items ++ code dispatch_insns) }
{
    push_word(out, 0x0000_0097)?;
    push_word(out, 0xf140_2173)?;
    push_word(out, 0x0031_1113)?;
    push_word(out, 0x0020_80b3)?;
    push_word(out, 0x0180_b083)?;
    push_word(out, 0x0000_8067)
}
