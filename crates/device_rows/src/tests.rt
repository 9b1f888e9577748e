//! Rows by a table.

use crate::row_at;

#[test]
fn rows_have_their_registers_and_no_more(rt: HostRuntime) {
    // start, stride, count, offset, number
    for (start, stride, count, off, want) in [
        (0u64, 4u64, 1u8, 0u64, Some(0u8)),
        (0, 4, 1, 4, None),
        (0, 4, 8, 28, Some(7)),
        (0, 4, 8, 29, None),
        (0, 4, 8, 32, None),
        (0, 4, 0, 0, None),
        (0x4000, 8, 2, 0x3ff8, None),
        (0x4000, 8, 2, 0x3fff, None),
        (0x4000, 8, 2, 0x4000, Some(0)),
        (0x4000, 8, 2, 0x4004, None),
        (0x4000, 8, 2, 0x4008, Some(1)),
        (0x4000, 8, 2, 0x4010, None),
        (0x20_0004, 0x1000, 16, 0x20_f004, Some(15)),
        (0x20_0004, 0x1000, 16, 0x20_f000, None),
        (1, 1, 255, 255, Some(254)),
        (1, 1, 255, 0, None),
        (0, 0xffff, 255, u64::MAX, None),
    ] {
        assert!(rt; 0 < stride && stride < 0x1_0000 && start < 0x1_0000_0000);
        assert_eq!(rt;
            row_at(start, stride, count, off),
            want,
            "{off} of {count} from {start}"
        );
    }
}
