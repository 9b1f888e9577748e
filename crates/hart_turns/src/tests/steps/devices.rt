//! A load and a store of each size at each device register.

use crate::tests::steps::Did::{Loaded, Raised, Stored};
use crate::tests::steps::{Did, try_row};
use std::alloc::{AllocError, Global};
use std::process::Abort;

/// What a load of x12 and a store of x11 do: a register answers its own size alone.
fn answers(at: u64, is_listed: bool, size: u8, answer: u64, value: u64) -> (Did, Did, u64) {
    if is_listed {
        return (
            Loaded(12, answer, answer),
            Stored(at, size, value),
            0x8000_0014,
        );
    }
    if at & u64::from(size.wrapping_sub(1)) == 0 {
        return (Raised(5, at), Raised(7, at), 0);
    }
    (Raised(4, at), Raised(6, at), 0)
}

/// Tries each size at one register.
fn try_register(rt: &impl Abort, alloc: Global, at: u64, listed: u8) -> Result<(), AllocError> {
    for &(size, load, store, answer, value) in &SIZES {
        let (loads, stores, next) = answers(at, size == listed, size, answer, value);
        try_row(rt, alloc, (load, at, 0, loads, next))?;
        try_row(rt, alloc, (store, at, 0xf123_4567_89ab_cdef, stores, next))?;
    }
    Ok(())
}

#[test]
fn each_device_register_answers_its_own_size_alone(rt: HostRuntime) -> Result<(), AllocError> {
    for &(at, listed) in &DEVICE_REGISTERS {
        try_register(&rt, rt.alloc(), at, listed)?;
    }
    Ok(())
}

/// The device registers of a board of one hart, by address and size.
static DEVICE_REGISTERS: [(u64, u8); 17] = [
    (0x200_0000, 4),
    (0x200_4000, 8),
    (0x200_bff8, 8),
    (0xc00_0004, 4),
    (0xc00_0008, 4),
    (0xc00_1000, 4),
    (0xc00_2000, 4),
    (0xc00_2080, 4),
    (0xc20_0000, 4),
    (0xc20_0004, 4),
    (0xc20_1000, 4),
    (0xc20_1004, 4),
    (0x1000_0000, 1),
    (0x1000_0004, 4),
    (0x1000_0008, 4),
    (0x1000_0010, 8),
    (0x1000_0018, 4),
];

/// The sizes of an access, each with the words that load x12 from 0(x10) and store x11 there, and with the low
/// bytes of what devices answer and of what is stored.
static SIZES: [(u8, u32, u32, u64, u64); 4] = [
    (1, 0x0005_4603, 0x00b5_0023, 0xa8, 0xef), // lbu, sb
    (2, 0x0005_5603, 0x00b5_1023, 0xb7a8, 0xcdef), // lhu, sh
    (4, 0x0005_6603, 0x00b5_2023, 0xd5c6_b7a8, 0x89ab_cdef), // lwu, sw
    (
        8,
        0x0005_3603,
        0x00b5_3023,
        0x9182_7364_d5c6_b7a8,
        0xf123_4567_89ab_cdef,
    ), // ld, sd
];
