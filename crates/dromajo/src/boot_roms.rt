//! Boot ROMs that saves are to write, as `tools/boot_rom.py words` prints them: it makes them of the machine and of the
//! layout alone, and shares nothing with the crates.

/// The boot ROM of a hart after ten turns of the program that turns `satp` on.
pub(crate) const AFTER_PROGRAM: [u32; 116] = [
    0x0000_0097, // auipc x1,0
    0xf140_2173, // csrrs x2,mhartid,x0
    0x0031_1113, // slli x2,x2,3
    0x0020_80b3, // add x1,x1,x2
    0x0180_b083, // ld x1,24(x1)
    0x0000_8067, // jalr x0,0(x1)
    0x0001_0020, // table
    0x0000_0000, // table
    0x1000_0137, // lui x2,0x10000
    0x0c00_01b7, // lui x3,0xc000
    0x0c00_2237, // lui x4,0xc002
    0x0c20_02b7, // lui x5,0xc200
    0x0010_0313, // addi x6,x0,1
    0x0061_a223, // sw x6,4(x3)
    0x0061_a423, // sw x6,8(x3)
    0x0002_2023, // sw x0,0(x4)
    0x0070_0313, // addi x6,x0,7
    0x0061_2423, // sw x6,8(x2)
    0x0001_0023, // sb x0,0(x2)
    0x0042_a303, // lw x6,4(x5)
    0x0042_a303, // lw x6,4(x5)
    0x0001_4303, // lbu x6,0(x2)
    0x0001_a223, // sw x0,4(x3)
    0x0001_a423, // sw x0,8(x3)
    0x0002_2023, // sw x0,0(x4)
    0x0c20_02b7, // lui x5,0xc200
    0x0002_a023, // sw x0,0(x5)
    0x0802_2023, // sw x0,128(x4)
    0x0c20_12b7, // lui x5,0xc201
    0x0002_a023, // sw x0,0(x5)
    0x0001_2423, // sw x0,8(x2)
    0x0001_3823, // sd x0,16(x2)
    0x0200_02b7, // lui x5,0x2000
    0x0002_a023, // sw x0,0(x5)
    0x0200_43b7, // lui x7,0x2004
    0xfff0_0313, // addi x6,x0,-1
    0x0063_b023, // sd x6,0(x7)
    0x0200_c2b7, // lui x5,0x200c
    0x00a0_0313, // addi x6,x0,10
    0xfe62_bc23, // sd x6,-8(x5)
    0x0001_00b7, // lui x1,0x10
    0x0b00_809b, // addiw x1,x1,176
    0x0000_8067, // jalr x0,0(x1)
    0x0000_0013, // addi x0,x0,0
    0x1000_b103, // ld x2,256(x1)
    0x3001_1073, // csrrw x0,mstatus,x2
    0x3020_5073, // csrrwi x0,medeleg,0
    0x3030_5073, // csrrwi x0,mideleg,0
    0x3040_5073, // csrrwi x0,mie,0
    0x3050_5073, // csrrwi x0,mtvec,0
    0x3060_5073, // csrrwi x0,mcounteren,0
    0x30a0_5073, // csrrwi x0,0x30a,0
    0x3400_5073, // csrrwi x0,mscratch,0
    0x3410_5073, // csrrwi x0,mepc,0
    0x3420_5073, // csrrwi x0,mcause,0
    0x3430_5073, // csrrwi x0,mtval,0
    0x3440_5073, // csrrwi x0,mip,0
    0x1050_5073, // csrrwi x0,stvec,0
    0x1060_5073, // csrrwi x0,scounteren,0
    0x10a0_5073, // csrrwi x0,0x10a,0
    0x1400_5073, // csrrwi x0,sscratch,0
    0x1410_5073, // csrrwi x0,sepc,0
    0x1420_5073, // csrrwi x0,scause,0
    0x1430_5073, // csrrwi x0,stval,0
    0x1080_b103, // ld x2,264(x1)
    0x1801_1073, // csrrw x0,satp,x2
    0xb005_5073, // csrrwi x0,mcycle,10
    0xb025_5073, // csrrwi x0,minstret,10
    0x4000_0137, // lui x2,0x40000
    0x6c31_011b, // addiw x2,x2,1731
    0x7b01_1073, // csrrw x0,dcsr,x2
    0x1100_b103, // ld x2,272(x1)
    0x7b11_1073, // csrrw x0,dpc,x2
    0x0000_0113, // addi x2,x0,0
    0x0000_0193, // addi x3,x0,0
    0x0000_0213, // addi x4,x0,0
    0x1180_b283, // ld x5,280(x1)
    0x0008_0337, // lui x6,0x80
    0x0083_031b, // addiw x6,x6,8
    0x0002_03b7, // lui x7,0x20
    0x0003_839b, // addiw x7,x7,0
    0x0000_0413, // addi x8,x0,0
    0x0000_0493, // addi x9,x0,0
    0x0000_0513, // addi x10,x0,0
    0x0000_0593, // addi x11,x0,0
    0x0000_0613, // addi x12,x0,0
    0x0000_0693, // addi x13,x0,0
    0x0000_0713, // addi x14,x0,0
    0x0000_0793, // addi x15,x0,0
    0x0000_0813, // addi x16,x0,0
    0x0000_0893, // addi x17,x0,0
    0x0000_0913, // addi x18,x0,0
    0x0000_0993, // addi x19,x0,0
    0x0000_0a13, // addi x20,x0,0
    0x0000_0a93, // addi x21,x0,0
    0x0000_0b13, // addi x22,x0,0
    0x0000_0b93, // addi x23,x0,0
    0x0000_0c13, // addi x24,x0,0
    0x0000_0c93, // addi x25,x0,0
    0x0000_0d13, // addi x26,x0,0
    0x0000_0d93, // addi x27,x0,0
    0x0000_0e13, // addi x28,x0,0
    0x0000_0e93, // addi x29,x0,0
    0x0000_0f13, // addi x30,x0,0
    0x0000_0f93, // addi x31,x0,0
    0x0000_0093, // addi x1,x0,0
    0x7b20_0073, // dret
    0x0000_0013, // addi x0,x0,0
    0x0002_0000, // pool
    0x0000_000a, // pool
    0x0008_0008, // pool
    0x8000_0000, // pool
    0x8000_0020, // pool
    0x0000_0000, // pool
    0x0008_0008, // pool
    0x8000_0000, // pool
];
