//! What the tests compare with or begin with, as tools/boot_rom.py prints it.

/// The code of a ROM that lays numbers: those of the devices' rows, and those of each hart.
pub(crate) static LAYS: [u32; 110] = [
    0x0000_0097, // auipc x1,0
    0xf140_2173, // csrrs x2,mhartid,x0
    0x0091_1193, // slli x3,x2,9
    0x0011_81b3, // add x3,x3,x1
    0x0601_1463, // bne x2,x0,104
    0x0000_1237, // lui x4,1
    0x0012_0233, // add x4,x4,x1
    0x2042_6283, // lwu x5,0x204(x4)
    0x0402_8c63, // beq x5,x0,88
    0x2002_6303, // lwu x6,0x200(x4)
    0x2082_3383, // ld x7,0x208(x4)
    0x0102_0213, // addi x4,x4,16
    0xfff2_8293, // addi x5,x5,-1
    0x0202_8263, // beq x5,x0,36
    0xfff2_8293, // addi x5,x5,-1
    0x0202_8263, // beq x5,x0,36
    0xfff2_8293, // addi x5,x5,-1
    0x0202_8263, // beq x5,x0,36
    0xfff2_8293, // addi x5,x5,-1
    0x0202_8263, // beq x5,x0,36
    0x0003_2003, // lw x0,0(x6)
    0xfc9f_f06f, // jal x0,-56
    0x0073_2023, // sw x7,0(x6)
    0xfc1f_f06f, // jal x0,-64
    0x0073_3023, // sd x7,0(x6)
    0xfb9f_f06f, // jal x0,-72
    0x0073_0023, // sb x7,0(x6)
    0xfb1f_f06f, // jal x0,-80
    0x0003_4003, // lbu x0,0(x6)
    0xfa9f_f06f, // jal x0,-88
    0x2001_b103, // ld x2,0x200(x3)
    0x3001_1073, // csrrw x0,mstatus,x2
    0x2081_b103, // ld x2,0x208(x3)
    0x3021_1073, // csrrw x0,medeleg,x2
    0x2101_b103, // ld x2,0x210(x3)
    0x3031_1073, // csrrw x0,mideleg,x2
    0x2181_b103, // ld x2,0x218(x3)
    0x3041_1073, // csrrw x0,mie,x2
    0x2201_b103, // ld x2,0x220(x3)
    0x3051_1073, // csrrw x0,mtvec,x2
    0x2281_b103, // ld x2,0x228(x3)
    0x3061_1073, // csrrw x0,mcounteren,x2
    0x2301_b103, // ld x2,0x230(x3)
    0x30a1_1073, // csrrw x0,0x30a,x2
    0x2381_b103, // ld x2,0x238(x3)
    0x3401_1073, // csrrw x0,mscratch,x2
    0x2401_b103, // ld x2,0x240(x3)
    0x3411_1073, // csrrw x0,mepc,x2
    0x2481_b103, // ld x2,0x248(x3)
    0x3421_1073, // csrrw x0,mcause,x2
    0x2501_b103, // ld x2,0x250(x3)
    0x3431_1073, // csrrw x0,mtval,x2
    0x2581_b103, // ld x2,0x258(x3)
    0x3441_1073, // csrrw x0,mip,x2
    0x2601_b103, // ld x2,0x260(x3)
    0x1051_1073, // csrrw x0,stvec,x2
    0x2681_b103, // ld x2,0x268(x3)
    0x1061_1073, // csrrw x0,scounteren,x2
    0x2701_b103, // ld x2,0x270(x3)
    0x10a1_1073, // csrrw x0,0x10a,x2
    0x2781_b103, // ld x2,0x278(x3)
    0x1401_1073, // csrrw x0,sscratch,x2
    0x2801_b103, // ld x2,0x280(x3)
    0x1411_1073, // csrrw x0,sepc,x2
    0x2881_b103, // ld x2,0x288(x3)
    0x1421_1073, // csrrw x0,scause,x2
    0x2901_b103, // ld x2,0x290(x3)
    0x1431_1073, // csrrw x0,stval,x2
    0x2981_b103, // ld x2,0x298(x3)
    0x1801_1073, // csrrw x0,satp,x2
    0x2a01_b103, // ld x2,0x2a0(x3)
    0xb001_1073, // csrrw x0,mcycle,x2
    0x2a81_b103, // ld x2,0x2a8(x3)
    0xb021_1073, // csrrw x0,minstret,x2
    0x2b01_b103, // ld x2,0x2b0(x3)
    0x7b01_1073, // csrrw x0,dcsr,x2
    0x2b81_b103, // ld x2,0x2b8(x3)
    0x7b11_1073, // csrrw x0,dpc,x2
    0x2c01_b083, // ld x1,0x2c0(x3)
    0x2c81_b103, // ld x2,0x2c8(x3)
    0x2d81_b203, // ld x4,0x2d8(x3)
    0x2e01_b283, // ld x5,0x2e0(x3)
    0x2e81_b303, // ld x6,0x2e8(x3)
    0x2f01_b383, // ld x7,0x2f0(x3)
    0x2f81_b403, // ld x8,0x2f8(x3)
    0x3001_b483, // ld x9,0x300(x3)
    0x3081_b503, // ld x10,0x308(x3)
    0x3101_b583, // ld x11,0x310(x3)
    0x3181_b603, // ld x12,0x318(x3)
    0x3201_b683, // ld x13,0x320(x3)
    0x3281_b703, // ld x14,0x328(x3)
    0x3301_b783, // ld x15,0x330(x3)
    0x3381_b803, // ld x16,0x338(x3)
    0x3401_b883, // ld x17,0x340(x3)
    0x3481_b903, // ld x18,0x348(x3)
    0x3501_b983, // ld x19,0x350(x3)
    0x3581_ba03, // ld x20,0x358(x3)
    0x3601_ba83, // ld x21,0x360(x3)
    0x3681_bb03, // ld x22,0x368(x3)
    0x3701_bb83, // ld x23,0x370(x3)
    0x3781_bc03, // ld x24,0x378(x3)
    0x3801_bc83, // ld x25,0x380(x3)
    0x3881_bd03, // ld x26,0x388(x3)
    0x3901_bd83, // ld x27,0x390(x3)
    0x3981_be03, // ld x28,0x398(x3)
    0x3a01_be83, // ld x29,0x3a0(x3)
    0x3a81_bf03, // ld x30,0x3a8(x3)
    0x3b01_bf83, // ld x31,0x3b0(x3)
    0x2d01_b183, // ld x3,0x2d0(x3)
    0x7b20_0073, // dret
];

/// Harts at reset, with both sources served, a full queue, and loop alone set. Laid in 994 steps. The
/// ROM has 2664 bytes, checksum 0xf049_88cc_fdb1_e261; its boot makes 659 steps.
pub(crate) static IN_LOOP: [(u32, u64); 16] = [
    (0x2b0, 3),
    (0x2b8, 0x8000_0000),
    (0x4b0, 3),
    (0x4b8, 0x8000_0000),
    (0x6b0, 3),
    (0x6b8, 0x8000_0000),
    (0x8b0, 3),
    (0x8b8, 0x8000_0000),
    (0xab0, 3),
    (0xab8, 0x8000_0000),
    (0xcb0, 3),
    (0xcb8, 0x8000_0000),
    (0xeb0, 3),
    (0xeb8, 0x8000_0000),
    (0x10b0, 3),
    (0x10b8, 0x8000_0000),
];

/// The devices of that machine.
pub(crate) static IN_LOOP_ROWS: [(u64, u64); 26] = [
    (0x1_0c00_0004, 1),
    (0x1_0c00_0008, 1),
    (0x1_0c00_2000, 6),
    (0x1_1000_0008, 7),
    (0x3_1000_0000, 65),
    (0x5_0c20_0004, 0),
    (0x5_0c20_0004, 0),
    (0x3_1000_0000, 65),
    (0x3_1000_0000, 65),
    (0x3_1000_0000, 65),
    (0x3_1000_0000, 65),
    (0x3_1000_0000, 65),
    (0x3_1000_0000, 65),
    (0x3_1000_0000, 65),
    (0x3_1000_0000, 65),
    (0x3_1000_0000, 65),
    (0x3_1000_0000, 65),
    (0x3_1000_0000, 65),
    (0x3_1000_0000, 65),
    (0x3_1000_0000, 65),
    (0x3_1000_0000, 65),
    (0x3_1000_0000, 65),
    (0x1_0c00_0004, 0),
    (0x1_0c00_0008, 0),
    (0x1_0c00_2000, 0),
    (0x1_1000_0008, 4),
];

/// A hart in supervisor mode with MPRV set. Laid in 89 steps. The ROM has 656 bytes, checksum
/// 0x81bc_cdbf_0072_b6c7; its boot makes 137 steps.
pub(crate) static BORDERS: [(u32, u64); 55] = [
    (0x200, 0x2_1888),
    (0x208, 31),
    (0x210, 32),
    (0x218, 0x7ff),
    (0x220, 0x800),
    (0x228, 0xffff_ffff_ffff_ffff),
    (0x230, 0xffff_ffff_ffff_f801),
    (0x238, 31),
    (0x240, 0xffff_ffff_ffff_f7ff),
    (0x248, 0x7ff),
    (0x250, 0xffff_ffff_ffff_ffff),
    (0x258, 0x1000),
    (0x260, 0x17ff),
    (0x268, 0x1800),
    (0x270, 0x7fff_f7ff),
    (0x278, 0xffff_ffff_ffff_f7ff),
    (0x280, 0x7fff_ffff),
    (0x288, 0x7fff_ffff),
    (0x290, 0xffff_ffff_8000_0000),
    (0x298, 0x7ff),
    (0x2a0, 0x7fff_f800),
    (0x2a8, 0x8000_0000_0000_0000),
    (0x2b0, 1),
    (0x2b8, 0xffff_ffff_7fff_f7ff),
    (0x2c0, 1),
    (0x2c8, 31),
    (0x2d0, 32),
    (0x2d8, 0x7ff),
    (0x2e0, 0x800),
    (0x2e8, 0xffff_ffff_ffff_ffff),
    (0x2f0, 0xffff_ffff_ffff_f801),
    (0x2f8, 0xffff_ffff_ffff_f800),
    (0x300, 0xffff_ffff_ffff_f7ff),
    (0x308, 0xffff_ffff_ffff_f000),
    (0x310, 0xfff),
    (0x318, 0x1000),
    (0x320, 0x17ff),
    (0x328, 0x1800),
    (0x330, 0x7fff_f7ff),
    (0x338, 0x7fff_f800),
    (0x340, 0x7fff_ffff),
    (0x348, 0x8000_0000),
    (0x350, 0x8000_0800),
    (0x358, 0xffff_ffff_8000_0000),
    (0x360, 0xffff_ffff_8000_07ff),
    (0x368, 0xffff_ffff_8000_0800),
    (0x370, 0xffff_ffff_7fff_ffff),
    (0x378, 0xffff_ffff_7fff_f7ff),
    (0x380, 0xffff_ffff),
    (0x388, 0x1_0000_0000),
    (0x390, 0x7fff_ffff_ffff_ffff),
    (0x398, 0x8000_0000_0000_0000),
    (0x3a0, 0x800_0000_0800),
    (0x3a8, 0xffff_ffff_ffff_f000),
    (0x3b0, 0x1234_5678),
];

/// A hart in user mode, with MPRV and SUM set, MPP for user mode, and satp on. Laid in 89 steps. The
/// ROM has 688 bytes, checksum 0x2d2e_d154_6226_c011; its boot makes 137 steps.
pub(crate) static SHIFTED: [(u32, u64); 54] = [
    (0x200, 0x6_0000),
    (0x208, 0x17ff),
    (0x210, 0x1800),
    (0x218, 0x7fff_f7ff),
    (0x220, 0x7fff_f800),
    (0x228, 0x7fff_ffff),
    (0x230, 0x8000_0000),
    (0x238, 32),
    (0x240, 0xffff_ffff_8000_0000),
    (0x248, 0x800),
    (0x250, 0xffff_ffff_ffff_f800),
    (0x258, 0xffff_ffff_7fff_ffff),
    (0x260, 0xffff_ffff_7fff_f7ff),
    (0x268, 0xffff_ffff),
    (0x270, 0x1_0000_0000),
    (0x278, 0x1234_5800),
    (0x280, 0x8000_0000_0000_0000),
    (0x288, 0x8000_0000),
    (0x290, 0xffff_ffff_7fff_ffff),
    (0x298, 0x8000_0000_0008_0008),
    (0x2a0, 0x7fff_f7ff),
    (0x2a8, 0x1_0000_0000),
    (0x2b8, 0x7ff),
    (0x2c0, 0x1000),
    (0x2c8, 0x17ff),
    (0x2d0, 0x1800),
    (0x2d8, 0x7fff_f7ff),
    (0x2e0, 0x7fff_f800),
    (0x2e8, 0x7fff_ffff),
    (0x2f0, 0x8000_0000),
    (0x2f8, 0x8000_0800),
    (0x300, 0xffff_ffff_8000_0000),
    (0x308, 0xffff_ffff_8000_07ff),
    (0x310, 0xffff_ffff_8000_0800),
    (0x318, 0xffff_ffff_7fff_ffff),
    (0x320, 0xffff_ffff_7fff_f7ff),
    (0x328, 0xffff_ffff),
    (0x330, 0x1_0000_0000),
    (0x338, 0x7fff_ffff_ffff_ffff),
    (0x340, 0x8000_0000_0000_0000),
    (0x348, 0x800_0000_0800),
    (0x350, 0xffff_ffff_ffff_f000),
    (0x358, 0x1234_5678),
    (0x360, 1),
    (0x368, 31),
    (0x370, 32),
    (0x378, 0x7ff),
    (0x380, 0x800),
    (0x388, 0xffff_ffff_ffff_ffff),
    (0x390, 0xffff_ffff_ffff_f801),
    (0x398, 0xffff_ffff_ffff_f800),
    (0x3a0, 0xffff_ffff_ffff_f7ff),
    (0x3a8, 0xffff_ffff_ffff_f000),
    (0x3b0, 0xfff),
];

/// Eight harts and devices, every register of which is written with all bits set. Laid in 1492 steps.
/// The ROM has 3352 bytes, checksum 0x5757_7769_b645_5dd7; its boot makes 847 steps.
pub(crate) static LARGEST_ROWS: [(u64, u64); 78] = [
    (0x1_0c00_0004, 1),
    (0x1_0c00_0008, 1),
    (0x1_0c00_2000, 6),
    (0x1_1000_0008, 7),
    (0x3_1000_0000, 65),
    (0x5_0c20_0004, 0),
    (0x5_0c20_0004, 0),
    (0x1_1000_0008, 7),
    (0x4_1000_0000, 0),
    (0x3_1000_0000, 0xff),
    (0x3_1000_0000, 0xff),
    (0x3_1000_0000, 0xff),
    (0x3_1000_0000, 0xff),
    (0x3_1000_0000, 0xff),
    (0x3_1000_0000, 0xff),
    (0x3_1000_0000, 0xff),
    (0x3_1000_0000, 0xff),
    (0x3_1000_0000, 0xff),
    (0x3_1000_0000, 0xff),
    (0x3_1000_0000, 0xff),
    (0x3_1000_0000, 0xff),
    (0x3_1000_0000, 0xff),
    (0x3_1000_0000, 0xff),
    (0x3_1000_0000, 0xff),
    (0x3_1000_0000, 0xff),
    (0x1_0c00_0004, 0xffff_ffff_ffff_ffff),
    (0x1_0c00_0008, 0xffff_ffff_ffff_ffff),
    (0x1_0c00_2000, 0xffff_ffff_ffff_ffff),
    (0x1_0c20_0000, 0xffff_ffff_ffff_ffff),
    (0x1_0c00_2080, 0xffff_ffff_ffff_ffff),
    (0x1_0c20_1000, 0xffff_ffff_ffff_ffff),
    (0x1_0c00_2100, 0xffff_ffff_ffff_ffff),
    (0x1_0c20_2000, 0xffff_ffff_ffff_ffff),
    (0x1_0c00_2180, 0xffff_ffff_ffff_ffff),
    (0x1_0c20_3000, 0xffff_ffff_ffff_ffff),
    (0x1_0c00_2200, 0xffff_ffff_ffff_ffff),
    (0x1_0c20_4000, 0xffff_ffff_ffff_ffff),
    (0x1_0c00_2280, 0xffff_ffff_ffff_ffff),
    (0x1_0c20_5000, 0xffff_ffff_ffff_ffff),
    (0x1_0c00_2300, 0xffff_ffff_ffff_ffff),
    (0x1_0c20_6000, 0xffff_ffff_ffff_ffff),
    (0x1_0c00_2380, 0xffff_ffff_ffff_ffff),
    (0x1_0c20_7000, 0xffff_ffff_ffff_ffff),
    (0x1_0c00_2400, 0xffff_ffff_ffff_ffff),
    (0x1_0c20_8000, 0xffff_ffff_ffff_ffff),
    (0x1_0c00_2480, 0xffff_ffff_ffff_ffff),
    (0x1_0c20_9000, 0xffff_ffff_ffff_ffff),
    (0x1_0c00_2500, 0xffff_ffff_ffff_ffff),
    (0x1_0c20_a000, 0xffff_ffff_ffff_ffff),
    (0x1_0c00_2580, 0xffff_ffff_ffff_ffff),
    (0x1_0c20_b000, 0xffff_ffff_ffff_ffff),
    (0x1_0c00_2600, 0xffff_ffff_ffff_ffff),
    (0x1_0c20_c000, 0xffff_ffff_ffff_ffff),
    (0x1_0c00_2680, 0xffff_ffff_ffff_ffff),
    (0x1_0c20_d000, 0xffff_ffff_ffff_ffff),
    (0x1_0c00_2700, 0xffff_ffff_ffff_ffff),
    (0x1_0c20_e000, 0xffff_ffff_ffff_ffff),
    (0x1_0c00_2780, 0xffff_ffff_ffff_ffff),
    (0x1_0c20_f000, 0xffff_ffff_ffff_ffff),
    (0x1_1000_0008, 0xffff_ffff_ffff_ffff),
    (0x2_1000_0010, 0xffff_ffff_ffff_ffff),
    (0x1_0200_0000, 0xffff_ffff_ffff_ffff),
    (0x2_0200_4000, 0xffff_ffff_ffff_ffff),
    (0x1_0200_0004, 0xffff_ffff_ffff_ffff),
    (0x2_0200_4008, 0xffff_ffff_ffff_ffff),
    (0x1_0200_0008, 0xffff_ffff_ffff_ffff),
    (0x2_0200_4010, 0xffff_ffff_ffff_ffff),
    (0x1_0200_000c, 0xffff_ffff_ffff_ffff),
    (0x2_0200_4018, 0xffff_ffff_ffff_ffff),
    (0x1_0200_0010, 0xffff_ffff_ffff_ffff),
    (0x2_0200_4020, 0xffff_ffff_ffff_ffff),
    (0x1_0200_0014, 0xffff_ffff_ffff_ffff),
    (0x2_0200_4028, 0xffff_ffff_ffff_ffff),
    (0x1_0200_0018, 0xffff_ffff_ffff_ffff),
    (0x2_0200_4030, 0xffff_ffff_ffff_ffff),
    (0x1_0200_001c, 0xffff_ffff_ffff_ffff),
    (0x2_0200_4038, 0xffff_ffff_ffff_ffff),
    (0x2_0200_bff8, 0xffff_ffff_ffff_ffff),
];

/// Two harts and devices that differ, in all sizes of numbers. Laid in 531 steps. The ROM has 1544
/// bytes, checksum 0xba2f_6a42_4f86_cb4b; its boot makes 264 steps.
pub(crate) static TWO: [(u32, u64); 4] = [
    (0x298, 0x8fff_ffff_ffff_ffff),
    (0x2b0, 7),
    (0x498, 0x8fff_ffff_ffff_fffe),
    (0x4b0, 4),
];

/// The devices of that machine.
pub(crate) static TWO_ROWS: [(u64, u64); 33] = [
    (0x1_0c00_0008, 1),
    (0x1_0c00_2000, 4),
    (0x1_1000_0008, 2),
    (0x5_0c20_0004, 0),
    (0x1_1000_0008, 7),
    (0x4_1000_0000, 0),
    (0x3_1000_0000, 0),
    (0x3_1000_0000, 25),
    (0x3_1000_0000, 50),
    (0x3_1000_0000, 75),
    (0x3_1000_0000, 0x64),
    (0x3_1000_0000, 0x7d),
    (0x3_1000_0000, 0x96),
    (0x3_1000_0000, 0xaf),
    (0x3_1000_0000, 0xc8),
    (0x3_1000_0000, 0xe1),
    (0x1_0c00_0004, 3),
    (0x1_0c00_0008, 5),
    (0x1_0c00_2000, 0),
    (0x1_0c20_0000, 0),
    (0x1_0c00_2080, 2),
    (0x1_0c20_1000, 1),
    (0x1_0c00_2100, 4),
    (0x1_0c20_2000, 2),
    (0x1_0c00_2180, 6),
    (0x1_0c20_3000, 3),
    (0x1_1000_0008, 5),
    (0x2_1000_0010, 0x7fff_ffff),
    (0x1_0200_0000, 0),
    (0x2_0200_4000, 1),
    (0x1_0200_0004, 1),
    (0x2_0200_4008, 0x7ff),
    (0x2_0200_bff8, 0x8000_0000),
];

/// Eight harts and devices that differ. Laid in 1377 steps. The ROM has 5104 bytes, checksum
/// 0x8593_6cfe_1b37_c641; its boot makes 924 steps.
pub(crate) static EIGHT: [(u32, u64); 16] = [
    (0x298, 0x8fff_ffff_ffff_ffff),
    (0x2b0, 7),
    (0x498, 0x8fff_ffff_ffff_fffe),
    (0x4b0, 4),
    (0x698, 0x8fff_ffff_ffff_fffd),
    (0x6b0, 5),
    (0x898, 0x8fff_ffff_ffff_fffc),
    (0x8b0, 6),
    (0xa98, 0x8fff_ffff_ffff_fffb),
    (0xab0, 7),
    (0xc98, 0x8fff_ffff_ffff_fffa),
    (0xcb0, 4),
    (0xe98, 0x8fff_ffff_ffff_fff9),
    (0xeb0, 5),
    (0x1098, 0x8fff_ffff_ffff_fff8),
    (0x10b0, 6),
];

/// The devices of that machine.
pub(crate) static EIGHT_ROWS: [(u64, u64); 69] = [
    (0x1_0c00_0008, 1),
    (0x1_0c00_2000, 4),
    (0x1_1000_0008, 2),
    (0x5_0c20_0004, 0),
    (0x1_1000_0008, 7),
    (0x4_1000_0000, 0),
    (0x3_1000_0000, 0),
    (0x3_1000_0000, 25),
    (0x3_1000_0000, 50),
    (0x3_1000_0000, 75),
    (0x3_1000_0000, 0x64),
    (0x3_1000_0000, 0x7d),
    (0x3_1000_0000, 0x96),
    (0x3_1000_0000, 0xaf),
    (0x3_1000_0000, 0xc8),
    (0x3_1000_0000, 0xe1),
    (0x1_0c00_0004, 3),
    (0x1_0c00_0008, 5),
    (0x1_0c00_2000, 0),
    (0x1_0c20_0000, 0),
    (0x1_0c00_2080, 2),
    (0x1_0c20_1000, 1),
    (0x1_0c00_2100, 4),
    (0x1_0c20_2000, 2),
    (0x1_0c00_2180, 6),
    (0x1_0c20_3000, 3),
    (0x1_0c00_2200, 0),
    (0x1_0c20_4000, 4),
    (0x1_0c00_2280, 2),
    (0x1_0c20_5000, 5),
    (0x1_0c00_2300, 4),
    (0x1_0c20_6000, 6),
    (0x1_0c00_2380, 6),
    (0x1_0c20_7000, 7),
    (0x1_0c00_2400, 0),
    (0x1_0c20_8000, 0),
    (0x1_0c00_2480, 2),
    (0x1_0c20_9000, 1),
    (0x1_0c00_2500, 4),
    (0x1_0c20_a000, 2),
    (0x1_0c00_2580, 6),
    (0x1_0c20_b000, 3),
    (0x1_0c00_2600, 0),
    (0x1_0c20_c000, 4),
    (0x1_0c00_2680, 2),
    (0x1_0c20_d000, 5),
    (0x1_0c00_2700, 4),
    (0x1_0c20_e000, 6),
    (0x1_0c00_2780, 6),
    (0x1_0c20_f000, 7),
    (0x1_1000_0008, 5),
    (0x2_1000_0010, 0x7fff_ffff),
    (0x1_0200_0000, 0),
    (0x2_0200_4000, 1),
    (0x1_0200_0004, 1),
    (0x2_0200_4008, 0x7ff),
    (0x1_0200_0008, 0),
    (0x2_0200_4010, 0xffff_ffff_ffff_f801),
    (0x1_0200_000c, 1),
    (0x2_0200_4018, 0xffff_ffff_ffff_f000),
    (0x1_0200_0010, 0),
    (0x2_0200_4020, 0x17ff),
    (0x1_0200_0014, 1),
    (0x2_0200_4028, 0x7fff_f800),
    (0x1_0200_0018, 0),
    (0x2_0200_4030, 0x8000_0800),
    (0x1_0200_001c, 1),
    (0x2_0200_4038, 0xffff_ffff_8000_0800),
    (0x2_0200_bff8, 0x8000_0000),
];
