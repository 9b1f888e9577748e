//! The instructions of RV64IMAC with the privileged and debug instructions of its profile: one variant a
//! name, decoded from 32-bit words and from 16-bit compressed words. Nothing here allocates.
#![tactic(auto)]

ghost use Rattle.rv_decode.specs.Compressed.{OneForm};
ghost use Rattle.rv_decode.specs.Encode.{EncodedIsDecoded};
ghost use Rattle.rv_decode.specs.Words.{OneRow};

mod compressed;
mod compressed_field;
mod field;
#[cfg(test)]
mod tests;
mod word;

pub use compressed::expand;
pub use word::decode;

/// An instruction, by its name and fields. `rd`, `rs1` and `rs2` are register numbers below 32, `imm` is
/// the immediate with its sign, `shamt` a shift amount, `csr` the number of a control and status
/// register and `uimm` an unsigned immediate of five bits. The aq and rl bits of the atomic
/// instructions, and all fields of `fence` and `fence.i`, are ignored (Unprivileged ISA, "RV32/64G
/// Instruction Set Listings").
#[derive(Clone, Copy)]
pub enum Insn {
    Lui { rd: u8, imm: i64 },
    Auipc { rd: u8, imm: i64 },
    Jal { rd: u8, imm: i64 },
    Jalr { rd: u8, rs1: u8, imm: i64 },
    Beq { rs1: u8, rs2: u8, imm: i64 },
    Bne { rs1: u8, rs2: u8, imm: i64 },
    Blt { rs1: u8, rs2: u8, imm: i64 },
    Bge { rs1: u8, rs2: u8, imm: i64 },
    Bltu { rs1: u8, rs2: u8, imm: i64 },
    Bgeu { rs1: u8, rs2: u8, imm: i64 },
    Lb { rd: u8, rs1: u8, imm: i64 },
    Lh { rd: u8, rs1: u8, imm: i64 },
    Lw { rd: u8, rs1: u8, imm: i64 },
    Ld { rd: u8, rs1: u8, imm: i64 },
    Lbu { rd: u8, rs1: u8, imm: i64 },
    Lhu { rd: u8, rs1: u8, imm: i64 },
    Lwu { rd: u8, rs1: u8, imm: i64 },
    Sb { rs1: u8, rs2: u8, imm: i64 },
    Sh { rs1: u8, rs2: u8, imm: i64 },
    Sw { rs1: u8, rs2: u8, imm: i64 },
    Sd { rs1: u8, rs2: u8, imm: i64 },
    Addi { rd: u8, rs1: u8, imm: i64 },
    Slti { rd: u8, rs1: u8, imm: i64 },
    Sltiu { rd: u8, rs1: u8, imm: i64 },
    Xori { rd: u8, rs1: u8, imm: i64 },
    Ori { rd: u8, rs1: u8, imm: i64 },
    Andi { rd: u8, rs1: u8, imm: i64 },
    Addiw { rd: u8, rs1: u8, imm: i64 },
    Slli { rd: u8, rs1: u8, shamt: u8 },
    Srli { rd: u8, rs1: u8, shamt: u8 },
    Srai { rd: u8, rs1: u8, shamt: u8 },
    Slliw { rd: u8, rs1: u8, shamt: u8 },
    Srliw { rd: u8, rs1: u8, shamt: u8 },
    Sraiw { rd: u8, rs1: u8, shamt: u8 },
    Add { rd: u8, rs1: u8, rs2: u8 },
    Sub { rd: u8, rs1: u8, rs2: u8 },
    Sll { rd: u8, rs1: u8, rs2: u8 },
    Slt { rd: u8, rs1: u8, rs2: u8 },
    Sltu { rd: u8, rs1: u8, rs2: u8 },
    Xor { rd: u8, rs1: u8, rs2: u8 },
    Srl { rd: u8, rs1: u8, rs2: u8 },
    Sra { rd: u8, rs1: u8, rs2: u8 },
    Or { rd: u8, rs1: u8, rs2: u8 },
    And { rd: u8, rs1: u8, rs2: u8 },
    Addw { rd: u8, rs1: u8, rs2: u8 },
    Subw { rd: u8, rs1: u8, rs2: u8 },
    Sllw { rd: u8, rs1: u8, rs2: u8 },
    Srlw { rd: u8, rs1: u8, rs2: u8 },
    Sraw { rd: u8, rs1: u8, rs2: u8 },
    Mul { rd: u8, rs1: u8, rs2: u8 },
    Mulh { rd: u8, rs1: u8, rs2: u8 },
    Mulhsu { rd: u8, rs1: u8, rs2: u8 },
    Mulhu { rd: u8, rs1: u8, rs2: u8 },
    Div { rd: u8, rs1: u8, rs2: u8 },
    Divu { rd: u8, rs1: u8, rs2: u8 },
    Rem { rd: u8, rs1: u8, rs2: u8 },
    Remu { rd: u8, rs1: u8, rs2: u8 },
    Mulw { rd: u8, rs1: u8, rs2: u8 },
    Divw { rd: u8, rs1: u8, rs2: u8 },
    Divuw { rd: u8, rs1: u8, rs2: u8 },
    Remw { rd: u8, rs1: u8, rs2: u8 },
    Remuw { rd: u8, rs1: u8, rs2: u8 },
    Fence,
    FenceI,
    Csrrw { rd: u8, rs1: u8, csr: u16 },
    Csrrs { rd: u8, rs1: u8, csr: u16 },
    Csrrc { rd: u8, rs1: u8, csr: u16 },
    Csrrwi { rd: u8, uimm: u8, csr: u16 },
    Csrrsi { rd: u8, uimm: u8, csr: u16 },
    Csrrci { rd: u8, uimm: u8, csr: u16 },
    Ecall,
    Ebreak,
    Sret,
    Mret,
    Wfi,
    Dret,
    SfenceVma { rs1: u8, rs2: u8 },
    LrW { rd: u8, rs1: u8 },
    LrD { rd: u8, rs1: u8 },
    ScW { rd: u8, rs1: u8, rs2: u8 },
    AmoswapW { rd: u8, rs1: u8, rs2: u8 },
    AmoaddW { rd: u8, rs1: u8, rs2: u8 },
    AmoxorW { rd: u8, rs1: u8, rs2: u8 },
    AmoandW { rd: u8, rs1: u8, rs2: u8 },
    AmoorW { rd: u8, rs1: u8, rs2: u8 },
    AmominW { rd: u8, rs1: u8, rs2: u8 },
    AmomaxW { rd: u8, rs1: u8, rs2: u8 },
    AmominuW { rd: u8, rs1: u8, rs2: u8 },
    AmomaxuW { rd: u8, rs1: u8, rs2: u8 },
    ScD { rd: u8, rs1: u8, rs2: u8 },
    AmoswapD { rd: u8, rs1: u8, rs2: u8 },
    AmoaddD { rd: u8, rs1: u8, rs2: u8 },
    AmoxorD { rd: u8, rs1: u8, rs2: u8 },
    AmoandD { rd: u8, rs1: u8, rs2: u8 },
    AmoorD { rd: u8, rs1: u8, rs2: u8 },
    AmominD { rd: u8, rs1: u8, rs2: u8 },
    AmomaxD { rd: u8, rs1: u8, rs2: u8 },
    AmominuD { rd: u8, rs1: u8, rs2: u8 },
    AmomaxuD { rd: u8, rs1: u8, rs2: u8 },
}

/// A law of the table: at most one row matches any word.
pub fn one_row()
    ensures { OneRow }
{}

/// A law of the compressed forms: at most one of them matches any word.
pub fn one_form()
    ensures { OneForm }
{}

/// A law of the table: decoding the word that encoding gives for an instruction with its fields in
/// range gives the instruction back.
pub fn encoded_is_decoded()
    ensures { EncodedIsDecoded }
{}
