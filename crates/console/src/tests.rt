//! Registers by tables, the queue, and what goes out.

use crate::{Console, OutBuf, Refused, listed};
use guest_ram::{BASE, GuestRam};
use std::process::Abort;
use std::test::Fail;

// A store, before which the buffer is seen to have its room.
fn put(
    rt: &impl Abort,
    console: &mut Console,
    place: (u64, u8),
    value: u64,
    ram: &GuestRam,
    out: &mut OutBuf,
) -> Result<(), Refused> {
    assert!(rt; out.spare() >= 256);
    console.store(place.0, place.1, value, ram, out)
}

#[test]
fn each_register_has_its_reset_value_and_keeps_its_bits(rt: HostRuntime) -> Result<(), Fail> {
    let ram = GuestRam::new(rt.alloc(), 16)?;
    let mut out = OutBuf::new(rt.alloc(), 512)?;
    // place, value at reset, value after all ones were written, and what went out then
    for (off, size, reset, ones, gone) in [
        (0u64, 1u8, 0u64, 0u64, 1usize),
        (4, 4, 2, 2, 0),
        (8, 4, 0, 7, 0),
        (0x10, 8, 0, u64::MAX, 0),
        (0x18, 4, 0, 0, 0),
    ] {
        let mut console = Console::reset();
        out.clear();
        assert!(rt; listed(off, size));
        assert_eq!(rt; console.load(off, size), Ok(reset), "reset of {off}");
        assert_eq!(rt;
            put(&rt, &mut console, (off, size), u64::MAX, &ram, &mut out),
            Ok(())
        );
        assert_eq!(rt; console.load(off, size), Ok(ones), "ones at {off}");
        assert_eq!(rt; out.bytes().len(), gone, "out at {off}");
    }
    Ok(())
}

#[test]
fn other_offsets_and_sizes_are_refused(rt: HostRuntime) -> Result<(), Fail> {
    let ram = GuestRam::new(rt.alloc(), 16)?;
    let mut out = OutBuf::new(rt.alloc(), 512)?;
    let mut console = Console::reset();
    for (off, size) in [
        (0u64, 2u8),
        (0, 4),
        (0, 8),
        (1, 1),
        (4, 1),
        (4, 8),
        (8, 8),
        (8, 2),
        (0xc, 4),
        (0x10, 4),
        (0x14, 4),
        (0x18, 8),
        (0x18, 1),
        (0x1c, 4),
        (0x20, 8),
        (u64::MAX, 1),
    ] {
        assert!(rt; !listed(off, size));
        assert_eq!(rt;
            console.load(off, size),
            Err(Refused),
            "load of {size} at {off}"
        );
        assert_eq!(rt;
            put(&rt, &mut console, (off, size), 1, &ram, &mut out),
            Err(Refused),
            "store of {size} at {off}"
        );
    }
    assert!(rt; out.bytes().is_empty());
    Ok(())
}

#[test]
fn sixteen_bytes_wait_and_are_read_in_their_order(rt: HostRuntime) -> Result<(), Fail> {
    let ram = GuestRam::new(rt.alloc(), 16)?;
    let mut out = OutBuf::new(rt.alloc(), 512)?;
    let mut console = Console::reset();
    put(&rt, &mut console, (8, 4), 1, &ram, &mut out)?;
    assert_eq!(rt; console.levels(), 0);
    for b in 65..81u8 {
        assert!(rt; console.push_input(b));
    }
    assert!(rt; !console.push_input(90));
    assert_eq!(rt; (console.waiting(), console.levels()), (16, 2));
    assert!(rt; console.waiting() == 16);
    assert_eq!(rt; console.load(4, 4), Ok(0x1003));
    for want in 65..81u64 {
        assert_eq!(rt; console.load(0, 1), Ok(want));
    }
    assert_eq!(rt; console.load(0, 1), Ok(0));
    assert_eq!(rt; console.load(4, 4), Ok(2));
    put(&rt, &mut console, (8, 4), 3, &ram, &mut out)?;
    assert_eq!(rt; console.levels(), 4);
    assert!(rt; console.push_input(7));
    assert_eq!(rt; console.levels(), 6);
    assert!(rt; console.waiting() > 0);
    assert_eq!(rt; console.byte(0), 7);
    Ok(())
}

#[test]
fn under_loop_bytes_come_back_until_the_queue_is_full(rt: HostRuntime) -> Result<(), Fail> {
    let ram = GuestRam::new(rt.alloc(), 16)?;
    let mut out = OutBuf::new(rt.alloc(), 512)?;
    let mut console = Console::reset();
    put(&rt, &mut console, (0, 1), 0x141, &ram, &mut out)?;
    put(&rt, &mut console, (8, 4), 4, &ram, &mut out)?;
    put(&rt, &mut console, (0x10, 8), BASE, &ram, &mut out)?;
    put(&rt, &mut console, (0x18, 4), 8, &ram, &mut out)?;
    for b in 1..18u64 {
        put(&rt, &mut console, (0, 1), b, &ram, &mut out)?;
    }
    assert_eq!(rt;
        (console.waiting(), console.ctrl(), console.txaddr()),
        (16, 4, BASE)
    );
    assert_eq!(rt; console.load(0, 1), Ok(1));
    assert_eq!(rt; out.bytes(), [0x41u8].as_slice());
    Ok(())
}

#[test]
fn sends_give_all_bytes_or_none(rt: HostRuntime) -> Result<(), Fail> {
    let mut ram = GuestRam::new(rt.alloc(), 0x1100)?;
    assert!(rt; ram.has(0x8000_0ff0, 8) && ram.has(0x8000_10f8, 8));
    ram.write(0x8000_0ff0, 8, 0x0807_0605_0403_0201);
    assert!(rt; ram.has(0x8000_10f8, 8));
    ram.write(0x8000_10f8, 8, 0xf8f7_f6f5_f4f3_f2f1);
    let mut out = OutBuf::new(rt.alloc(), 512)?;
    let mut console = Console::reset();
    // txaddr, txlen, how many bytes go out, and the first and the last of them
    for (at, n, count, first, last) in [
        (0x8000_0ff0u64, 32u64, 32usize, 1u8, 0u8),
        (0x8000_0ff1, 7, 7, 2, 8),
        (0x8000_0ff0, 0, 0, 0, 0),
        (0x8000_1000, 256, 256, 0, 0xf8),
        (0x8000_0fff, 257, 0, 0, 0),
        (0x8000_10f8, 8, 8, 0xf1, 0xf8),
        (0x8000_10f8, 9, 0, 0, 0),
        (0x8000_10ff, 1, 1, 0xf8, 0xf8),
        (0x8000_1100, 1, 0, 0, 0),
        (0x8000_1100, 0, 0, 0, 0),
        (0x7fff_ffff, 1, 0, 0, 0),
        (u64::MAX, 1, 0, 0, 0),
        (0x8000_0ff0, 0x1_0000_0002, 2, 1, 2),
    ] {
        out.clear();
        put(&rt, &mut console, (0x10, 8), at, &ram, &mut out)?;
        put(&rt, &mut console, (0x18, 4), n, &ram, &mut out)?;
        assert_eq!(rt; out.bytes().len(), count, "{n} bytes from {at}");
        assert_eq!(rt;
            out.bytes().first().copied().unwrap_or(0),
            first,
            "first from {at}"
        );
        assert_eq!(rt;
            out.bytes().last().copied().unwrap_or(0),
            last,
            "last from {at}"
        );
    }
    Ok(())
}

#[test]
fn a_buffer_has_its_room(rt: HostRuntime) -> Result<(), Fail> {
    let mut out = OutBuf::new(rt.alloc(), 3)?;
    assert!(rt; out.spare() == 3);
    out.push(5);
    assert!(rt; out.spare() == 2);
    out.push(6);
    assert_eq!(rt; out.bytes(), [5u8, 6].as_slice());
    assert_eq!(rt; out.spare(), 1);
    out.clear();
    assert_eq!(rt; out.spare(), 3);
    assert!(rt; out.bytes().is_empty());
    Ok(())
}
