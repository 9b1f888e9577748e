//! Rows of the manual and values at the edges of 32 and 64 bits, reckoned by hand and by a script with
//! unbounded integers.

use super::*;

// An operation, its operands, and its value.
static REGISTERS: [(BinOp, u64, u64, u64); 44] = [
    (BinOp::Add, 0xffffffffffffffff, 1, 0),
    (BinOp::Add, 0x7fffffffffffffff, 1, 0x8000000000000000),
    (BinOp::Add, 0x8000000000000000, 0x8000000000000000, 0),
    (BinOp::Sub, 0, 1, 0xffffffffffffffff),
    (BinOp::Sub, 0x8000000000000000, 1, 0x7fffffffffffffff),
    (BinOp::Sub, 1, 0xffffffffffffffff, 2),
    (BinOp::Sll, 1, 0x3f, 0x8000000000000000),
    (BinOp::Sll, 1, 0x40, 1),
    (BinOp::Sll, 3, 0x3f, 0x8000000000000000),
    (
        BinOp::Sll,
        0xffffffffffffffff,
        0xffffffffffffffff,
        0x8000000000000000,
    ),
    (BinOp::Slt, 0xffffffffffffffff, 0, 1),
    (BinOp::Slt, 0, 0xffffffffffffffff, 0),
    (BinOp::Slt, 0x8000000000000000, 0x7fffffffffffffff, 1),
    (BinOp::Slt, 7, 7, 0),
    (BinOp::Sltu, 0xffffffffffffffff, 0, 0),
    (BinOp::Sltu, 0, 0xffffffffffffffff, 1),
    (BinOp::Sltu, 0x7fffffffffffffff, 0x8000000000000000, 1),
    (BinOp::Xor, 0xffffffffffffffff, 0xf0f0, 0xffffffffffff0f0f),
    (BinOp::Or, 0xf0, 0xf, 0xff),
    (BinOp::And, 0xffffffffffffffff, 0x1234, 0x1234),
    (BinOp::Srl, 0x8000000000000000, 0x3f, 1),
    (BinOp::Srl, 0x8000000000000000, 0x40, 0x8000000000000000),
    (BinOp::Srl, 0xffffffffffffffff, 0x20, 0xffffffff),
    (BinOp::Sra, 0x8000000000000000, 0x3f, 0xffffffffffffffff),
    (BinOp::Sra, 0x8000000000000000, 0x40, 0x8000000000000000),
    (BinOp::Sra, 0x7fffffffffffffff, 0x3e, 1),
    (BinOp::Sra, 0xffffffffffffffff, 0x1f, 0xffffffffffffffff),
    (BinOp::Addw, 0x7fffffff, 1, 0xffffffff80000000),
    (BinOp::Addw, 0xffffffff, 1, 0),
    (BinOp::Addw, 0x100000001, 0x500000001, 2),
    (BinOp::Subw, 0, 1, 0xffffffffffffffff),
    (BinOp::Subw, 0x80000000, 1, 0x7fffffff),
    (BinOp::Sllw, 1, 0x1f, 0xffffffff80000000),
    (BinOp::Sllw, 1, 0x20, 1),
    (BinOp::Sllw, 1, 0x3f, 0xffffffff80000000),
    (BinOp::Sllw, 0xffffffff, 4, 0xfffffffffffffff0),
    (BinOp::Srlw, 0x80000000, 0x1f, 1),
    (BinOp::Srlw, 0x80000000, 0x20, 0xffffffff80000000),
    (BinOp::Srlw, 0xf80000000, 4, 0x8000000),
    (BinOp::Srlw, 0xffffffffffffffff, 0, 0xffffffffffffffff),
    (BinOp::Sraw, 0x80000000, 0x1f, 0xffffffffffffffff),
    (BinOp::Sraw, 0x80000000, 0x20, 0xffffffff80000000),
    (BinOp::Sraw, 0x7fffffff, 0x1e, 1),
    (BinOp::Sraw, 0x180000000, 4, 0xfffffffff8000000),
];

#[test]
fn register_operations_at_the_edges(rt: HostRuntime) {
    for (op, a, b, want) in REGISTERS {
        assert_eq!(rt; alu(op, a, b), want, "a {a} b {b}");
    }
}

// A multiplication or division, its operands, and its value.
static PRODUCTS: [(MulOp, u64, u64, u64); 52] = [
    (
        MulOp::Div,
        0x8000000000000000,
        0xffffffffffffffff,
        0x8000000000000000,
    ),
    (MulOp::Rem, 0x8000000000000000, 0xffffffffffffffff, 0),
    (MulOp::Div, 7, 0, 0xffffffffffffffff),
    (MulOp::Rem, 7, 0, 7),
    (MulOp::Divw, 0x80000000, 0xffffffff, 0xffffffff80000000),
    (MulOp::Remw, 0x80000000, 0xffffffff, 0),
    (MulOp::Divuw, 5, 0, 0xffffffffffffffff),
    (MulOp::Remuw, 0x80000005, 0, 0xffffffff80000005),
    (
        MulOp::Mulhu,
        0xffffffffffffffff,
        0xffffffffffffffff,
        0xfffffffffffffffe,
    ),
    (
        MulOp::Mulhsu,
        0xffffffffffffffff,
        0xffffffffffffffff,
        0xffffffffffffffff,
    ),
    (MulOp::Mulh, 0xffffffffffffffff, 0xffffffffffffffff, 0),
    (MulOp::Mul, 0xffffffffffffffff, 0xffffffffffffffff, 1),
    (MulOp::Mul, 0x8000000000000000, 2, 0),
    (MulOp::Mul, 0xffffffff, 0xffffffff, 0xfffffffe00000001),
    (
        MulOp::Mulh,
        0x8000000000000000,
        0x8000000000000000,
        0x4000000000000000,
    ),
    (
        MulOp::Mulh,
        0x8000000000000000,
        0x7fffffffffffffff,
        0xc000000000000000,
    ),
    (MulOp::Mulh, 0x8000000000000000, 1, 0xffffffffffffffff),
    (
        MulOp::Mulhsu,
        0x8000000000000000,
        0xffffffffffffffff,
        0x8000000000000000,
    ),
    (MulOp::Mulhsu, 1, 0xffffffffffffffff, 0),
    (MulOp::Mulhsu, 0xffffffffffffffff, 1, 0xffffffffffffffff),
    (
        MulOp::Mulhsu,
        0x7fffffffffffffff,
        0x8000000000000000,
        0x3fffffffffffffff,
    ),
    (MulOp::Mulhu, 0x8000000000000000, 2, 1),
    (MulOp::Mulhu, 0xffffffffffffffff, 1, 0),
    (MulOp::Div, 0xfffffffffffffff9, 2, 0xfffffffffffffffd),
    (MulOp::Rem, 0xfffffffffffffff9, 2, 0xffffffffffffffff),
    (MulOp::Div, 7, 0xfffffffffffffffe, 0xfffffffffffffffd),
    (MulOp::Rem, 7, 0xfffffffffffffffe, 1),
    (MulOp::Div, 0xfffffffffffffff9, 0xfffffffffffffffe, 3),
    (
        MulOp::Rem,
        0xfffffffffffffff9,
        0xfffffffffffffffe,
        0xffffffffffffffff,
    ),
    (MulOp::Div, 0x8000000000000000, 1, 0x8000000000000000),
    (
        MulOp::Div,
        0x7fffffffffffffff,
        0xffffffffffffffff,
        0x8000000000000001,
    ),
    (MulOp::Div, 0, 0, 0xffffffffffffffff),
    (MulOp::Divu, 0xffffffffffffffff, 2, 0x7fffffffffffffff),
    (MulOp::Divu, 0xffffffffffffffff, 0, 0xffffffffffffffff),
    (MulOp::Divu, 0x8000000000000000, 0xffffffffffffffff, 0),
    (MulOp::Remu, 0xffffffffffffffff, 0x10, 0xf),
    (MulOp::Remu, 0xffffffffffffffff, 0, 0xffffffffffffffff),
    (MulOp::Remu, 7, 0x8000000000000000, 7),
    (MulOp::Mulw, 0x80000000, 2, 0),
    (MulOp::Mulw, 0xffffffff, 0xffffffff, 1),
    (MulOp::Mulw, 0x10000, 0x8000, 0xffffffff80000000),
    (MulOp::Divw, 0x80000000, 0, 0xffffffffffffffff),
    (MulOp::Divw, 0xfffffff9, 2, 0xfffffffffffffffd),
    (MulOp::Divw, 7, 0xfffffffe, 0xfffffffffffffffd),
    (MulOp::Divw, 5, 0x100000000, 0xffffffffffffffff),
    (MulOp::Remw, 0xfffffff9, 2, 0xffffffffffffffff),
    (MulOp::Remw, 0x80000000, 0, 0xffffffff80000000),
    (MulOp::Remw, 7, 0xfffffffe, 1),
    (MulOp::Divuw, 0xffffffff, 1, 0xffffffffffffffff),
    (MulOp::Divuw, 0xffffffff, 2, 0x7fffffff),
    (MulOp::Remuw, 0xffffffff, 0x80000000, 0x7fffffff),
    (MulOp::Remuw, 0xffffffff, 0, 0xffffffffffffffff),
];

#[test]
fn multiplications_and_divisions_of_the_manual(rt: HostRuntime) {
    for (op, a, b, want) in PRODUCTS {
        assert_eq!(rt; mul_div(op, a, b), want, "a {a} b {b}");
    }
}

// An atomic operation, its size, what memory and the register hold, and what is stored.
static ATOMICS: [(AmoOp, u8, u64, u64, u64); 29] = [
    (AmoOp::Swap, 8, 1, 0xffffffffffffffff, 0xffffffffffffffff),
    (AmoOp::Swap, 4, 1, 0xffffffffffffffff, 0xffffffff),
    (AmoOp::Add, 8, 0xffffffffffffffff, 2, 1),
    (AmoOp::Add, 4, 0xffffffff, 2, 1),
    (AmoOp::Add, 4, 0xffffffffffffffff, 1, 0),
    (AmoOp::Xor, 8, 0xffffffffffffffff, 0xff, 0xffffffffffffff00),
    (AmoOp::Xor, 4, 0xffffffffffffffff, 0xff, 0xffffff00),
    (
        AmoOp::And,
        8,
        0xffffffffffffffff,
        0x8000000000000000,
        0x8000000000000000,
    ),
    (
        AmoOp::And,
        4,
        0xffffffffffffffff,
        0xffffffffffffffff,
        0xffffffff,
    ),
    (AmoOp::Or, 8, 1, 0x8000000000000000, 0x8000000000000001),
    (AmoOp::Or, 4, 1, 0x8000000000000000, 1),
    (AmoOp::Min, 8, 0xffffffffffffffff, 0, 0xffffffffffffffff),
    (AmoOp::Min, 8, 0, 0xffffffffffffffff, 0xffffffffffffffff),
    (
        AmoOp::Min,
        8,
        0x8000000000000000,
        0x7fffffffffffffff,
        0x8000000000000000,
    ),
    (AmoOp::Min, 4, 0x80000000, 1, 0x80000000),
    (AmoOp::Min, 4, 0x100000005, 0xf00000003, 3),
    (AmoOp::Min, 4, 5, 0xffffffff, 0xffffffff),
    (AmoOp::Max, 8, 0xffffffffffffffff, 0, 0),
    (
        AmoOp::Max,
        8,
        0x8000000000000000,
        0x7fffffffffffffff,
        0x7fffffffffffffff,
    ),
    (AmoOp::Max, 4, 0xffffffff, 0, 0),
    (AmoOp::Max, 4, 0x7fffffff, 0x80000000, 0x7fffffff),
    (AmoOp::Minu, 8, 0xffffffffffffffff, 0, 0),
    (
        AmoOp::Minu,
        8,
        0x7fffffffffffffff,
        0x8000000000000000,
        0x7fffffffffffffff,
    ),
    (AmoOp::Minu, 4, 0xffffffff, 1, 1),
    (AmoOp::Minu, 4, 0x100000005, 7, 5),
    (AmoOp::Maxu, 8, 0xffffffffffffffff, 0, 0xffffffffffffffff),
    (
        AmoOp::Maxu,
        8,
        0x7fffffffffffffff,
        0x8000000000000000,
        0x8000000000000000,
    ),
    (AmoOp::Maxu, 4, 0x80000000, 0x7fffffff, 0x80000000),
    (AmoOp::Maxu, 4, 0xffffffffffffffff, 0xffffffff, 0xffffffff),
];

#[test]
fn atomic_operations_on_the_low_bytes(rt: HostRuntime) {
    for (op, size, old, b, want) in ATOMICS {
        assert!(rt; size == 4 || size == 8);
        assert_eq!(rt;
            amo_value(op, size, old, b),
            want,
            "size {size} old {old} b {b}"
        );
    }
}

#[test]
fn branches_on_equal_and_ordered_words(rt: HostRuntime) {
    for (op, a, b, want) in [
        (CondOp::Eq, 5, 5, true),
        (CondOp::Eq, 0xffffffffffffffff, 0, false),
        (CondOp::Eq, 0, 0xffffffffffffffff, false),
        (CondOp::Eq, 0x8000000000000000, 0x7fffffffffffffff, false),
        (CondOp::Ne, 5, 5, false),
        (CondOp::Ne, 0xffffffffffffffff, 0, true),
        (CondOp::Ne, 0, 0xffffffffffffffff, true),
        (CondOp::Ne, 0x8000000000000000, 0x7fffffffffffffff, true),
        (CondOp::Lt, 5, 5, false),
        (CondOp::Lt, 0xffffffffffffffff, 0, true),
        (CondOp::Lt, 0, 0xffffffffffffffff, false),
        (CondOp::Lt, 0x8000000000000000, 0x7fffffffffffffff, true),
        (CondOp::Ge, 5, 5, true),
        (CondOp::Ge, 0xffffffffffffffff, 0, false),
        (CondOp::Ge, 0, 0xffffffffffffffff, true),
        (CondOp::Ge, 0x8000000000000000, 0x7fffffffffffffff, false),
        (CondOp::Ltu, 5, 5, false),
        (CondOp::Ltu, 0xffffffffffffffff, 0, false),
        (CondOp::Ltu, 0, 0xffffffffffffffff, true),
        (CondOp::Ltu, 0x8000000000000000, 0x7fffffffffffffff, false),
        (CondOp::Geu, 5, 5, true),
        (CondOp::Geu, 0xffffffffffffffff, 0, true),
        (CondOp::Geu, 0, 0xffffffffffffffff, false),
        (CondOp::Geu, 0x8000000000000000, 0x7fffffffffffffff, true),
    ] {
        assert_eq!(rt; branch(op, a, b), want, "a {a} b {b}");
    }
}

#[test]
fn fields_and_signs_of_fields(rt: HostRuntime) {
    for (w, lo, n, want) in [
        (0xffffffffffffffff, 0, 64, 0xffffffffffffffff),
        (0xffffffffffffffff, 64, 0, 0),
        (0xffffffffffffffff, 63, 1, 1),
        (0xabcd, 4, 8, 0xbc),
        (0xabcd, 0, 0, 0),
        (0x8000000000000000, 63, 1, 1),
        (0x123456789abcdef0, 32, 32, 0x12345678),
    ] {
        assert!(rt; lo <= 64 && n <= 64 - lo);
        assert_eq!(rt; bits(w, lo, n), want, "word {w} from {lo} for {n}");
    }
    for (v, n, want) in [
        (0x80, 8, 0xffffffffffffff80),
        (0x7f, 8, 0x7f),
        (0x17f, 8, 0x7f),
        (1, 1, 0xffffffffffffffff),
        (2, 1, 0),
        (0x800, 12, 0xfffffffffffff800),
        (0x7ff, 12, 0x7ff),
        (0x80000000, 32, 0xffffffff80000000),
        (0x7fffffff, 32, 0x7fffffff),
        (0x580000000, 32, 0xffffffff80000000),
        (0x8000000000000000, 64, 0x8000000000000000),
        (0x7fffffffffffffff, 64, 0x7fffffffffffffff),
    ] {
        assert!(rt; 1 <= n && n <= 64);
        assert_eq!(rt; sext(v, n), want, "value {v} of {n} bits");
    }
}

#[test]
fn single_bits_and_low_bytes(rt: HostRuntime) {
    for (w, n, want) in [
        (5, 0, true),
        (5, 1, false),
        (5, 2, true),
        (0x8000000000000000, 63, true),
        (0x7fffffffffffffff, 63, false),
    ] {
        assert!(rt; n < 64);
        assert_eq!(rt; has_bit(w, n), want, "bit {n} of {w}");
    }
    for (size, want) in [
        (0, 0),
        (1, 0x88),
        (2, 0x7788),
        (4, 0x55667788),
        (7, 0x22334455667788),
        (8, 0x1122334455667788),
        (255, 0x1122334455667788u64),
    ] {
        assert_eq!(rt; low_bytes(size, 0x1122334455667788), want, "{size} bytes");
    }
}

#[test]
fn modes_have_their_numbers(rt: HostRuntime) {
    assert_eq!(rt; (Mode::U as u8, Mode::S as u8, Mode::M as u8), (0, 1, 3));
    for (number, want) in [
        (0, Mode::U),
        (1, Mode::S),
        (2, Mode::U),
        (3, Mode::M),
        (7, Mode::U),
    ] {
        assert_eq!(rt; mode_of(number), want, "mode {number}");
    }
}
