//! The fields of a 16-bit compressed instruction word.

ghost use Rattle.std.specs.Prelude.{◌≡◌};
ghost use Rattle.rv_decode.specs.Compressed.{addi16sp_immediate, addi4spn_immediate, branch_immediate, far_rd, far_rs2, jump_immediate, ldsp_immediate, load_double_immediate, load_word_immediate, lwsp_immediate, near_rd, near_rs1, near_rs2, sdsp_immediate, shift_amount, short_immediate, swsp_immediate, upper_immediate};

/// Any register, in the place of rd and rs1.
pub(crate) fn far_rd(c: u32) -> u8
    ensures { result ≡ far_rd c }
{
    ((c >> 7) & 0x1f) as u8
}

/// Any register, in the place of rs2.
pub(crate) fn far_rs2(c: u32) -> u8
    ensures { result ≡ far_rs2 c }
{
    ((c >> 2) & 0x1f) as u8
}

/// One of x8 to x15, in the place of rs1.
pub(crate) fn near_rs1(c: u32) -> u8
    ensures { result ≡ near_rs1 c }
{
    8 + ((c >> 7) & 0x7) as u8
}

/// One of x8 to x15, in the place of rs2.
pub(crate) fn near_rs2(c: u32) -> u8
    ensures { result ≡ near_rs2 c }
{
    8 + ((c >> 2) & 0x7) as u8
}

/// One of x8 to x15, where a form writes it.
pub(crate) fn near_rd(c: u32) -> u8
    ensures { result ≡ near_rd c }
{
    8 + ((c >> 2) & 0x7) as u8
}

/// The amount of a shift.
pub(crate) fn shift_amount(c: u32) -> u8
    ensures { result ≡ shift_amount c }
{
    ((((c >> 12) & 1) << 5) + ((c >> 2) & 0x1f)) as u8
}

/// The offset of an address on the stack.
pub(crate) fn addi4spn_immediate(c: u32) -> i64
    ensures { result ≡ addi4spn_immediate c }
{
    i64::from(
        (((c >> 11) & 0x3) << 4)
            + (((c >> 7) & 0xf) << 6)
            + (((c >> 6) & 0x1) << 2)
            + (((c >> 5) & 0x1) << 3),
    )
}

/// The offset of a 4-byte load or store.
pub(crate) fn load_word_immediate(c: u32) -> i64
    ensures { result ≡ load_word_immediate c }
{
    i64::from((((c >> 10) & 0x7) << 3) + (((c >> 6) & 0x1) << 2) + (((c >> 5) & 0x1) << 6))
}

/// The offset of an 8-byte load or store.
pub(crate) fn load_double_immediate(c: u32) -> i64
    ensures { result ≡ load_double_immediate c }
{
    i64::from((((c >> 10) & 0x7) << 3) + (((c >> 5) & 0x3) << 6))
}

/// A signed immediate of six bits.
pub(crate) fn short_immediate(c: u32) -> i64
    ensures { result ≡ short_immediate c }
{
    let bits = i64::from((((c >> 12) & 0x1) << 5) + ((c >> 2) & 0x1f));
    if bits < 0x20 { bits } else { bits - 0x40 }
}

/// The step of the stack pointer, a multiple of 16.
pub(crate) fn addi16sp_immediate(c: u32) -> i64
    ensures { result ≡ addi16sp_immediate c }
{
    let bits = i64::from(
        (((c >> 12) & 0x1) << 9)
            + (((c >> 6) & 0x1) << 4)
            + (((c >> 5) & 0x1) << 6)
            + (((c >> 3) & 0x3) << 7)
            + (((c >> 2) & 0x1) << 5),
    );
    if bits < 0x200 { bits } else { bits - 0x400 }
}

/// An upper immediate, a multiple of 4096.
pub(crate) fn upper_immediate(c: u32) -> i64
    ensures { result ≡ upper_immediate c }
{
    let bits = i64::from((((c >> 12) & 0x1) << 17) + (((c >> 2) & 0x1f) << 12));
    if bits < 0x20000 { bits } else { bits - 0x40000 }
}

/// The offset of a jump, which is even.
pub(crate) fn jump_immediate(c: u32) -> i64
    ensures { result ≡ jump_immediate c }
{
    let bits = i64::from(
        (((c >> 12) & 0x1) << 11)
            + (((c >> 11) & 0x1) << 4)
            + (((c >> 9) & 0x3) << 8)
            + (((c >> 8) & 0x1) << 10)
            + (((c >> 7) & 0x1) << 6)
            + (((c >> 6) & 0x1) << 7)
            + (((c >> 3) & 0x7) << 1)
            + (((c >> 2) & 0x1) << 5),
    );
    if bits < 0x800 { bits } else { bits - 0x1000 }
}

/// The offset of a branch, which is even.
pub(crate) fn branch_immediate(c: u32) -> i64
    ensures { result ≡ branch_immediate c }
{
    let bits = i64::from(
        (((c >> 12) & 0x1) << 8)
            + (((c >> 10) & 0x3) << 3)
            + (((c >> 5) & 0x3) << 6)
            + (((c >> 3) & 0x3) << 1)
            + (((c >> 2) & 0x1) << 5),
    );
    if bits < 0x100 { bits } else { bits - 0x200 }
}

/// The offset of a 4-byte load from the stack.
pub(crate) fn lwsp_immediate(c: u32) -> i64
    ensures { result ≡ lwsp_immediate c }
{
    i64::from((((c >> 12) & 0x1) << 5) + (((c >> 4) & 0x7) << 2) + (((c >> 2) & 0x3) << 6))
}

/// The offset of an 8-byte load from the stack.
pub(crate) fn ldsp_immediate(c: u32) -> i64
    ensures { result ≡ ldsp_immediate c }
{
    i64::from((((c >> 12) & 0x1) << 5) + (((c >> 5) & 0x3) << 3) + (((c >> 2) & 0x7) << 6))
}

/// The offset of a 4-byte store to the stack.
pub(crate) fn swsp_immediate(c: u32) -> i64
    ensures { result ≡ swsp_immediate c }
{
    i64::from((((c >> 9) & 0xf) << 2) + (((c >> 7) & 0x3) << 6))
}

/// The offset of an 8-byte store to the stack.
pub(crate) fn sdsp_immediate(c: u32) -> i64
    ensures { result ≡ sdsp_immediate c }
{
    i64::from((((c >> 10) & 0x7) << 3) + (((c >> 7) & 0x7) << 6))
}
