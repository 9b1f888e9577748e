//! Instructions that compute, load, store and jump, in machine mode.

use crate::tests::steps::Did::{Passed, Stored, Wrote};
use crate::tests::steps::{
    DATA, Did, Fixed, PLAIN, Row, Tried, WORD_AT, Word, event_of, holds, run, run_counted, same,
    try_row, try_rows, try_word,
};
use guest_ram::BASE;
use hart_step::Priv::M;
use hart_step::{Hart, Priv};
use rv_alu::Mode;
use std::alloc::{AllocError, Global};
use std::process::Abort;

/// x10 and x11 before the words of the tables, and others for the second value of each register form.
const OPERANDS: (u64, u64) = (0xf123_4567_89ab_cdef, 0x123_4567_89ab_c925);

const OTHERS: (u64, u64) = (0x7123_4567_09ab_cdef, 0xffff_ff11_99ab_cd2b);

/// Tries a word of four bytes that writes x12 and goes on.
fn computes(
    rt: &impl Abort,
    alloc: Global,
    word: u32,
    operands: (u64, u64),
    value: u64,
) -> Result<(), AllocError> {
    let row = (
        word,
        operands.0,
        operands.1,
        Did::Wrote(12, value),
        WORD_AT + 4,
    );
    try_row(rt, alloc, row)
}

#[test]
fn computations_and_loads_write_their_value(rt: HostRuntime) -> Result<(), AllocError> {
    for &(word, first, second) in &REGISTER_FORMS {
        computes(&rt, rt.alloc(), word, OPERANDS, first)?;
        computes(&rt, rt.alloc(), word, OTHERS, second)?;
    }
    for &(word, value) in &IMMEDIATE_FORMS {
        computes(&rt, rt.alloc(), word, OPERANDS, value)?;
    }
    for &(word, value) in &LOADS {
        computes(&rt, rt.alloc(), word, (DATA, 0), value)?;
    }
    Ok(())
}

/// Tries a store to DATA and on: what it shows, and the data after it.
fn stores(
    rt: &impl Abort,
    alloc: Global,
    word: u32,
    did: Did,
    data: (u64, u64),
) -> Result<(), AllocError> {
    let mut fixed = Fixed::new(0);
    let shown = try_word(rt, alloc, &mut fixed, word, DATA + 8, OPERANDS.1)?;
    let want = Tried {
        event: event_of((0, Priv::M, WORD_AT, word, did)),
        next: WORD_AT + 4,
        low: data.0,
        high: data.1,
    };
    same(rt, &shown, &want, "what is left by", u64::from(word));
    Ok(())
}

#[test]
fn stores_show_and_write_their_bytes_alone(rt: HostRuntime) -> Result<(), AllocError> {
    for &(word, (at, size, value), low, high) in &STORES {
        stores(
            &rt,
            rt.alloc(),
            word,
            Did::Stored(at, size, value),
            (low, high),
        )?;
    }
    Ok(())
}

#[test]
fn branches_jumps_and_compressed_forms(rt: HostRuntime) -> Result<(), AllocError> {
    for &(word, a, b, next) in &BRANCHES {
        try_row(&rt, rt.alloc(), (word, a, b, Did::Passed, next))?;
    }
    try_rows(&rt, rt.alloc(), &JUMPS)?;
    try_rows(&rt, rt.alloc(), &COMPRESSED_FORMS)
}

/// Compares a register of a hart.
fn register(rt: &impl Abort, hart: &Hart, number: u8, want: u64) {
    assert!(rt; number < 32);
    same(rt, &hart.x(number), &want, "register", u64::from(number));
}

#[test]
fn steps_follow_each_other_and_reach_the_console(rt: HostRuntime) -> Result<(), AllocError> {
    run_counted(&rt, rt.alloc(), PLAIN, &CONSOLE, (7, 7))?;
    let core = run(&rt, rt.alloc(), PLAIN, &CONSOLE)?;
    assert!(rt; 0 < core.harts());
    let hart = core.hart(0);
    same(&rt, &hart.pc(), &0x8000_0008, "pc after", 7);
    register(&rt, hart, 0, 0);
    register(&rt, hart, 6, 0x1000_0000);
    same(&rt, &hart.mode(), &Mode::M, "mode after", 7);
    holds(&rt, core.ram(), BASE, 0x1000_0337_0040_00ff);
    Ok(())
}

static REGISTER_FORMS: [(u32, u64, u64); 28] = [
    (0x00b5_0633, 0xf246_8acf_1357_9714, 0x7123_4478_a357_9b1a), // add x12,x10,x11
    (0x40b5_0633, 0xf000_0000_0000_04ca, 0x7123_4655_7000_00c4), // sub x12,x10,x11
    (0x00b5_1633, 0x3579_bde0_0000_0000, 0x5e6f_7800_0000_0000), // sll x12,x10,x11
    (0x00b5_2633, 1, 0), // slt x12,x10,x11
    (0x00b5_3633, 0, 1), // sltu x12,x10,x11
    (0x00b5_4633, 0xf000_0000_0000_04ca, 0x8edc_ba76_9000_00c4), // xor x12,x10,x11
    (0x00b5_5633, 0x789_1a2b, 0xe_2468), // srl x12,x10,x11
    (0x40b5_5633, 0xffff_ffff_ff89_1a2b, 0xe_2468), // sra x12,x10,x11
    (0x00b5_6633, 0xf123_4567_89ab_cdef, 0xffff_ff77_99ab_cdef), // or x12,x10,x11
    (0x00b5_7633, 0x123_4567_89ab_c925, 0x7123_4501_09ab_cd2b), // and x12,x10,x11
    (0x00b5_063b, 0x1357_9714, 0xffff_ffff_a357_9b1a), // addw x12,x10,x11
    (0x40b5_063b, 0x4ca, 0x7000_00c4), // subw x12,x10,x11
    (0x00b5_163b, 0x3579_bde0, 0x5e6f_7800), // sllw x12,x10,x11
    (0x00b5_563b, 0x44d_5e6f, 0x1_3579), // srlw x12,x10,x11
    (0x40b5_563b, 0xffff_ffff_fc4d_5e6f, 0x1_3579), // sraw x12,x10,x11
    (0x02b5_0633, 0x19bb_802f_402a_6a8b, 0x28b6_0cc2_9968_fa25), // mul x12,x10,x11
    (0x02b5_1633, 0xffef_1710_6399_3a15, 0xffff_ff96_a3fc_3684), // mulh x12,x10,x11
    (0x02b5_2633, 0xffef_1710_6399_3a15, 0x7123_44fd_ada8_0473), // mulhsu x12,x10,x11
    (0x02b5_3633, 0x112_5c77_ed45_033a, 0x7123_44fd_ada8_0473), // mulhu x12,x10,x11
    (0x02b5_4633, 0xffff_ffff_ffff_fff3, 0xffff_ffff_ff86_8277), // div x12,x10,x11
    (0x02b5_5633, 0xd3, 0), // divu x12,x10,x11
    (0x02b5_6633, 0xffed_cba9_8765_04d0, 0xf_231d_98f2), // rem x12,x10,x11
    (0x02b5_7633, 0x111_1111_1115_0470, 0x7123_4567_09ab_cdef), // remu x12,x10,x11
    (0x02b5_063b, 0x402a_6a8b, 0xffff_ffff_9968_fa25), // mulw x12,x10,x11
    (0x02b5_463b, 0, 0), // divw x12,x10,x11
    (0x02b5_563b, 1, 0), // divuw x12,x10,x11
    (0x02b5_663b, 0xffff_ffff_89ab_cdef, 0x9ab_cdef), // remw x12,x10,x11
    (0x02b5_763b, 0x4ca, 0x9ab_cdef), // remuw x12,x10,x11
];

static IMMEDIATE_FORMS: [(u32, u64); 13] = [
    (0xaa55_8613, 0x123_4567_89ab_c3ca), // addi x12,x11,-1371
    (0xaa55_a613, 0), // slti x12,x11,-1371
    (0xaa55_b613, 1), // sltiu x12,x11,-1371
    (0xaa55_c613, 0xfedc_ba98_7654_3380), // xori x12,x11,-1371
    (0xaa55_e613, 0xffff_ffff_ffff_fba5), // ori x12,x11,-1371
    (0xaa55_f613, 0x123_4567_89ab_c825), // andi x12,x11,-1371
    (0xaa55_861b, 0xffff_ffff_89ab_c3ca), // addiw x12,x11,-1371
    (0x02d5_1613, 0x79bd_e000_0000_0000), // slli x12,x10,45
    (0x02d5_5613, 0x7_891a), // srli x12,x10,45
    (0x42d5_5613, 0xffff_ffff_ffff_891a), // srai x12,x10,45
    (0x00d5_161b, 0x79bd_e000), // slliw x12,x10,13
    (0x00d5_561b, 0x4_4d5e), // srliw x12,x10,13
    (0x40d5_561b, 0xffff_ffff_fffc_4d5e), // sraiw x12,x10,13
];

static LOADS: [(u32, u64); 11] = [
    (0x0005_0603, 0xffff_ffff_ffff_ff88), // lb x12,0(x10)
    (0x0015_0603, 0x77), // lb x12,1(x10)
    (0x0005_1603, 0x7788), // lh x12,0(x10)
    (0x0065_1603, 0xffff_ffff_ffff_9122), // lh x12,6(x10)
    (0x0005_2603, 0xffff_ffff_f566_7788), // lw x12,0(x10)
    (0x0085_2603, 0x201_807f), // lw x12,8(x10)
    (0x0005_3603, 0x9122_3344_f566_7788), // ld x12,0(x10)
    (0x0085_3603, 0x1685_0403_0201_807f), // ld x12,8(x10)
    (0x0005_4603, 0x88), // lbu x12,0(x10)
    (0x0065_5603, 0x9122), // lhu x12,6(x10)
    (0x0005_6603, 0xf566_7788), // lwu x12,0(x10)
];

static STORES: [(u32, (u64, u8, u64), u64, u64); 6] = [
    (
        0xfeb5_0c23,
        (0x8000_0110, 1, 0x25),
        0x9122_3344_f566_7725,
        0x1685_0403_0201_807f,
    ), // sb x11,-8(x10)
    (
        0xfeb5_0fa3,
        (0x8000_0117, 1, 0x25),
        0x2522_3344_f566_7788,
        0x1685_0403_0201_807f,
    ), // sb x11,-1(x10)
    (
        0xfeb5_1f23,
        (0x8000_0116, 2, 0xc925),
        0xc925_3344_f566_7788,
        0x1685_0403_0201_807f,
    ), // sh x11,-2(x10)
    (
        0xfeb5_2e23,
        (0x8000_0114, 4, 0x89ab_c925),
        0x89ab_c925_f566_7788,
        0x1685_0403_0201_807f,
    ), // sw x11,-4(x10)
    (
        0xfeb5_3c23,
        (0x8000_0110, 8, 0x123_4567_89ab_c925),
        0x123_4567_89ab_c925,
        0x1685_0403_0201_807f,
    ), // sd x11,-8(x10)
    (
        0x00b5_3023,
        (0x8000_0118, 8, 0x123_4567_89ab_c925),
        0x9122_3344_f566_7788,
        0x123_4567_89ab_c925,
    ), // sd x11,0(x10)
];

static BRANCHES: [(u32, u64, u64, u64); 16] = [
    (0xfeb5_08e3, 5, 5, 0x8000_0000), // beq x10,x11,.-16
    (0xfeb5_08e3, 5, 0xffff_ffff_ffff_ffff, 0x8000_0014), // beq x10,x11,.-16
    (0x80b5_1063, 5, 0xffff_ffff_ffff_ffff, 0x7fff_f010), // bne x10,x11,.-4096
    (0x80b5_1063, 5, 5, 0x8000_0014), // bne x10,x11,.-4096
    (0x7eb5_4fe3, 0xffff_ffff_ffff_ffff, 5, 0x8000_100e), // blt x10,x11,.+4094
    (0x7eb5_4fe3, 5, 0xffff_ffff_ffff_ffff, 0x8000_0014), // blt x10,x11,.+4094
    (0x00b5_5463, 5, 0xffff_ffff_ffff_ffff, 0x8000_0018), // bge x10,x11,.+8
    (0x00b5_5463, 0xffff_ffff_ffff_ffff, 5, 0x8000_0014), // bge x10,x11,.+8
    (0x10b5_6063, 5, 0xffff_ffff_ffff_ffff, 0x8000_0110), // bltu x10,x11,.+256
    (0x10b5_6063, 0xffff_ffff_ffff_ffff, 5, 0x8000_0014), // bltu x10,x11,.+256
    (0x80b5_70e3, 0xffff_ffff_ffff_ffff, 5, 0x7fff_f810), // bgeu x10,x11,.-2048
    (0x80b5_70e3, 5, 0xffff_ffff_ffff_ffff, 0x8000_0014), // bgeu x10,x11,.-2048
    (0x7eb5_4fe3, 7, 7, 0x8000_0014), // blt x10,x11,.+4094
    (0x00b5_5463, 7, 7, 0x8000_0018), // bge x10,x11,.+8
    (0x10b5_6063, 7, 7, 0x8000_0014), // bltu x10,x11,.+256
    (0x80b5_70e3, 7, 7, 0x7fff_f810), // bgeu x10,x11,.-2048
];

static JUMPS: [Word; 23] = [
    (
        0x8000_1637,
        0,
        0,
        Wrote(12, 0xffff_ffff_8000_1000),
        0x8000_0014,
    ), // lui x12,0x80001
    (0x7fff_f637, 0, 0, Wrote(12, 0x7fff_f000), 0x8000_0014), // lui x12,0x7ffff
    (0x8000_0617, 0, 0, Wrote(12, 0x10), 0x8000_0014), // auipc x12,0x80000
    (0x0000_1617, 0, 0, Wrote(12, 0x8000_1010), 0x8000_0014), // auipc x12,1
    (0x0010_00ef, 0, 0, Wrote(1, 0x8000_0014), 0x8000_0810), // jal x1,.+2048
    (0xff1f_f06f, 0, 0, Passed, 0x8000_0000), // jal x0,.-16
    (
        0x0035_00e7,
        0x8000_0102,
        0,
        Wrote(1, 0x8000_0014),
        0x8000_0104,
    ), // jalr x1,3(x10)
    (
        0xfff5_00e7,
        0x8000_0102,
        0,
        Wrote(1, 0x8000_0014),
        0x8000_0100,
    ), // jalr x1,-1(x10)
    (0x0005_0067, 0x8000_0101, 0, Passed, 0x8000_0100), // jalr x0,0(x10)
    (
        0x0105_0567,
        0x8000_0100,
        0,
        Wrote(10, 0x8000_0014),
        0x8000_0110,
    ), // jalr x10,16(x10)
    (
        0xffe5_00e7,
        0,
        0,
        Wrote(1, 0x8000_0014),
        0xffff_ffff_ffff_fffe,
    ), // jalr x1,-2(x10)
    (0x0310_000f, 0, 0, Passed, 0x8000_0014), // fence rw,w
    (0x0000_100f, 0, 0, Passed, 0x8000_0014), // fence.i
    (0x00b5_0033, 3, 4, Passed, 0x8000_0014), // add x0,x10,x11
    (0x0015_0013, 3, 4, Passed, 0x8000_0014), // addi x0,x10,1
    (0x02b5_0033, 3, 4, Passed, 0x8000_0014), // mul x0,x10,x11
    (0x0005_3003, 0x8000_0110, 0, Passed, 0x8000_0014), // ld x0,0(x10)
    (0x0000_5037, 0, 0, Passed, 0x8000_0014), // lui x0,5
    (0x00b5_0533, 3, 4, Wrote(10, 7), 0x8000_0014), // add x10,x10,x11
    (
        0x40b5_05b3,
        3,
        4,
        Wrote(11, 0xffff_ffff_ffff_ffff),
        0x8000_0014,
    ), // sub x11,x10,x11
    (0x02a5_c533, 3, 0xc, Wrote(10, 4), 0x8000_0014), // div x10,x11,x10
    (
        0x0045_2503,
        0x8000_0110,
        0,
        Wrote(10, 0xffff_ffff_9122_3344),
        0x8000_0014,
    ), // lw x10,4(x10)
    (0xffff_8f93, 0, 0, Wrote(31, 0x7fff_ffff), 0x8000_0014), // addi x31,x31,-1
];

static COMPRESSED_FORMS: [Word; 35] = [
    (0x1ff0, 0, 0, Wrote(12, 0x8000_050c), 0x8000_0012), // c.addi4spn x12,x2,1020
    (
        0x4510,
        0x8000_0108,
        0,
        Wrote(12, 0xffff_ffff_f566_7788),
        0x8000_0012,
    ), // c.lw x12,8(x10)
    (
        0x6910,
        0x8000_0108,
        0,
        Wrote(12, 0x1685_0403_0201_807f),
        0x8000_0012,
    ), // c.ld x12,16(x10)
    (
        0xc54c,
        0x8000_0108,
        0x123_4567_89ab_c925,
        Stored(0x8000_0114, 4, 0x89ab_c925),
        0x8000_0012,
    ), // c.sw x11,12(x10)
    (
        0xe90c,
        0x8000_0108,
        0x123_4567_89ab_c925,
        Stored(0x8000_0118, 8, 0x123_4567_89ab_c925),
        0x8000_0012,
    ), // c.sd x11,16(x10)
    (0x0001, 0, 0, Passed, 0x8000_0012), // c.nop
    (0x1501, 3, 0, Wrote(10, 0xffff_ffff_ffff_ffe3), 0x8000_0012), // c.addi x10,-32
    (
        0x257d,
        0x7fff_ffff,
        0,
        Wrote(10, 0xffff_ffff_8000_001e),
        0x8000_0012,
    ), // c.addiw x10,31
    (0x567d, 0, 0, Wrote(12, 0xffff_ffff_ffff_ffff), 0x8000_0012), // c.li x12,-1
    (0x7101, 0, 0, Wrote(2, 0x7fff_ff10), 0x8000_0012), // c.addi16sp x2,-512
    (0x7605, 0, 0, Wrote(12, 0xffff_ffff_fffe_1000), 0x8000_0012), // c.lui x12,0xfffe1
    (0x917d, 0xf123_4567_89ab_cdef, 0, Wrote(10, 1), 0x8000_0012), // c.srli x10,63
    (
        0x957d,
        0xf123_4567_89ab_cdef,
        0,
        Wrote(10, 0xffff_ffff_ffff_ffff),
        0x8000_0012,
    ), // c.srai x10,63
    (
        0x9941,
        0xf123_4567_89ab_cdef,
        0,
        Wrote(10, 0xf123_4567_89ab_cde0),
        0x8000_0012,
    ), // c.andi x10,-16
    (0x8d0d, 3, 4, Wrote(10, 0xffff_ffff_ffff_ffff), 0x8000_0012), // c.sub x10,x11
    (0x8d2d, 6, 3, Wrote(10, 5), 0x8000_0012), // c.xor x10,x11
    (0x8d4d, 6, 3, Wrote(10, 7), 0x8000_0012), // c.or x10,x11
    (0x8d6d, 6, 3, Wrote(10, 2), 0x8000_0012), // c.and x10,x11
    (0x9d0d, 0x8000_0000, 1, Wrote(10, 0x7fff_ffff), 0x8000_0012), // c.subw x10,x11
    (
        0x9d2d,
        0x7fff_ffff,
        1,
        Wrote(10, 0xffff_ffff_8000_0000),
        0x8000_0012,
    ), // c.addw x10,x11
    (0xb001, 0, 0, Passed, 0x7fff_f810), // c.j .-2048
    (0xaffd, 0, 0, Passed, 0x8000_080e), // c.j .+2046
    (0xd101, 0, 0, Passed, 0x7fff_ff10), // c.beqz x10,.-256
    (0xd101, 1, 0, Passed, 0x8000_0012), // c.beqz x10,.-256
    (0xed7d, 1, 0, Passed, 0x8000_010e), // c.bnez x10,.+254
    (0xed7d, 0, 0, Passed, 0x8000_0012), // c.bnez x10,.+254
    (0x157e, 3, 0, Wrote(10, 0x8000_0000_0000_0000), 0x8000_0012), // c.slli x10,63
    (0x4612, 0, 0, Wrote(12, 0xffff_ffff_9122_3344), 0x8000_0012), // c.lwsp x12,4(x2)
    (0x6622, 0, 0, Wrote(12, 0x1685_0403_0201_807f), 0x8000_0012), // c.ldsp x12,8(x2)
    (0x8502, 0x8000_0103, 0, Passed, 0x8000_0102), // c.jr x10
    (0x862e, 0, 0x4d, Wrote(12, 0x4d), 0x8000_0012), // c.mv x12,x11
    (0x9502, 0x8000_0102, 0, Wrote(1, 0x8000_0012), 0x8000_0102), // c.jalr x10
    (0x952e, 3, 4, Wrote(10, 7), 0x8000_0012), // c.add x10,x11
    (
        0xc22e,
        0,
        0x123_4567_89ab_c925,
        Stored(0x8000_0114, 4, 0x89ab_c925),
        0x8000_0012,
    ), // c.swsp x11,4(x2)
    (
        0xe42e,
        0,
        0x123_4567_89ab_c925,
        Stored(0x8000_0118, 8, 0x123_4567_89ab_c925),
        0x8000_0012,
    ), // c.sdsp x11,8(x2)
];

/// A loop that stores to the console, and into its own first word.
static CONSOLE: [Row; 7] = [
    (0, M, 0x8000_0000, 0x0040_00ef, Wrote(1, 0x8000_0004)), // jal x1,4
    (0, M, 0x8000_0004, 0x1000_0337, Wrote(6, 0x1000_0000)), // lui x6,0x10000
    (
        0,
        M,
        0x8000_0008,
        0xfff0_0293,
        Wrote(5, 0xffff_ffff_ffff_ffff),
    ), // addi x5,x0,-1
    (0, M, 0x8000_000c, 0x0053_0023, Stored(0x1000_0000, 1, 0xff)), // sb x5,0(x6)
    (0, M, 0x8000_0010, 0xfe50_8e23, Stored(0x8000_0000, 1, 0xff)), // sb x5,-4(x1)
    (0, M, 0x8000_0014, 0xff1f_f06f, Passed), // jal x0,-16
    (0, M, 0x8000_0004, 0x1000_0337, Wrote(6, 0x1000_0000)), // lui x6,0x10000
];
