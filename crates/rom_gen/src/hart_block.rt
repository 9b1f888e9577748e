//! The block that puts a hart back.

ghost use Rattle.std.specs.Prelude.{◌≡◌, ◌+◌, ◌*◌, ◌%◌, ◌<◌, ◌≤◌, All, IfOk, IsFalse, IsTrue, None, OnOk, length};
ghost use Rattle.rv_alu.specs.Modes.{level};
ghost use Rattle.csr_file.specs.Bits.{dcsr_fixed};
ghost use Rattle.csr_file.specs.Legal.{keeps_value, kept_numbers};
ghost use Rattle.csr_file.specs.Numbers.{is_debug_number};
ghost use Rattle.hart_step.specs.Fit.{IsWellFormed};
ghost use Rattle.rom_gen.specs.Executed.{RestoresHart};
ghost use Rattle.rom_gen.specs.HartWants.{number_wants, numbered};
ghost use Rattle.rom_gen.specs.Items.{all_insns};
ghost use Rattle.rom_gen.specs.Rom.{hart_bytes, hart_items, hart_size, hart_values};
ghost use Rattle.rom_gen.specs.Wants.{Control, want_items, want_values};
ghost use Rattle.rom_gen.specs.Writing.{Adds, Wrote, offset_of};

use crate::rom::NoMemory;
use crate::words::{csr, csr_small, dret};
use crate::writer::Writer;
use csr_file::CsrFile;
use csr_file::masks::DCSR_FIXED;
use csr_file::numbers::{
    DCSR, DPC, MCAUSE, MCOUNTEREN, MCYCLE, MEDELEG, MENVCFG, MEPC, MIDELEG, MIE, MINSTRET, MIP,
    MSCRATCH, MSTATUS, MTVAL, MTVEC, SATP, SCAUSE, SCOUNTEREN, SENVCFG, SEPC, SSCRATCH, STVAL,
    STVEC,
};
use hart_step::Hart;
use rv_alu::Mode;
use std::alloc::Global;

/// The block of the boot ROM that puts a hart back: the control and status registers, x2 to x31, and
/// x1, which has the block's address `at` until then. The code is relative to x1, so the same bytes
/// serve at every address.
///
/// The hart is out of debug mode, and well formed, as is each that a core lends (`Core::see_fit`).
///
/// # Errors
///
/// `NoMemory` where the allocator has no room for the bytes.
pub fn hart_stub(alloc: Global, hart: &Hart, at: u64) -> Result<Vec<u8>, NoMemory>
    requires form { IsWellFormed hart.now }
    requires outside { hart.now.csrs.debug ≡ None }
    ensures bytes { IfOk result (λ v. v.items ≡ hart_bytes hart.now) }
    ensures size { IfOk result (λ v. length v.items ≡ hart_size hart.now) }
    ensures aligned { IfOk result (λ v. length v.items % 8 ≡ 0) }
    ensures short { IfOk result (λ v. length v.items ≤ 1112) }
    ensures executed { IfOk result (λ v. RestoresHart hart.now at v.items) }
{
    hart_block(alloc, hart)
}

/// The bytes of that block.
pub(crate) fn hart_block(alloc: Global, hart: &Hart) -> Result<Vec<u8>, NoMemory>
    ensures { IfOk result (λ v. v.items ≡ hart_bytes hart.now) }
{
    let mut draft = Writer::new(alloc, 0);
    draft.hart(hart)?;
    let mut writer = Writer::new(alloc, draft.pool_place());
    writer.hart(hart)?;
    writer.end(dret())
}

impl Writer {
    /// Puts a value into a control and status register, through x2 where it is above 31.
    fn control(&mut self, number: u16, v: u64) -> Result<(), NoMemory>
        requires number { number < 4096 }
        requires room { offset_of self.old < 2048 }
        ensures code { OnOk result (Adds self.old self.new (all_insns (want_items (offset_of self.old) (Control number v))) (want_values (Control number v))) }
        ensures room { OnOk result (offset_of self.new ≤ offset_of self.old + 8) }
    {
        if v <= 31 {
            self.push(csr_small(u32::from(number), v as u32))
        } else {
            self.put(2, v)?;
            self.push(csr(u32::from(number), 2))
        }
    }

    /// Puts control and status registers back, given their numbers.
    fn controls(&mut self, numbers: &[u16], csrs: &CsrFile) -> Result<(), NoMemory>
        requires fit { All (λ n. n < 4096) numbers.now }
        requires kept { All (λ n. IsTrue (keeps_value n)) numbers.now }
        requires not_debug { All (λ n. IsFalse (is_debug_number n)) numbers.now }
        requires room { offset_of self.old + 8 * length numbers.now ≤ 2048 }
        ensures code { OnOk result (Wrote self.old self.new (number_wants csrs.now numbers.now)) }
        ensures room { OnOk result (offset_of self.new ≤ offset_of self.old + 8 * length numbers.now) }
    {
        for &number in numbers {
            self.control(number, csrs.kept(number))?;
        }
        Ok(())
    }

    /// Puts x2 to x31 back.
    fn registers(&mut self, hart: &Hart) -> Result<(), NoMemory>
        requires room { offset_of self.old + 240 ≤ 2048 }
        ensures code { OnOk result (Wrote self.old self.new (numbered 30 2 hart.now.x)) }
        ensures room { OnOk result (offset_of self.new ≤ offset_of self.old + 240) }
    {
        for i in 0..30_u8 {
            self.put(u32::from(i) + 2, hart.x(i + 2))?;
        }
        Ok(())
    }

    /// Puts a hart back.
    fn hart(&mut self, hart: &Hart) -> Result<(), NoMemory>
        requires room { offset_of self.old + 440 ≤ 2048 }
        ensures { OnOk result (Adds self.old self.new (all_insns (hart_items hart.now (offset_of self.old))) (hart_values hart.now)) }
    {
        let numbers = numbers();
        self.controls(&numbers, hart.csrs())?;
        self.control(DCSR, debug_control(hart.mode()))?;
        self.control(DPC, hart.pc())?;
        self.registers(hart)?;
        self.put(1, hart.x(1))
    }
}

/// The numbers of the registers that every hart keeps, in the order in which they are put back.
#[tactic(auto, unfolding(csr_file::specs::Legal::kept_numbers, csr_file::specs::Legal::is_kept_number, csr_file::specs::Legal::keeps_value))]
fn numbers() -> [u16; 22]
    ensures numbers { result ≡ kept_numbers }
    ensures fit { All (λ n. n < 4096) result }
    ensures kept { All (λ n. IsTrue (keeps_value n)) result }
    ensures not_debug { All (λ n. IsFalse (is_debug_number n)) result }
{
    [
        MSTATUS, MEDELEG, MIDELEG, MIE, MTVEC, MCOUNTEREN, MENVCFG, MSCRATCH, MEPC, MCAUSE, MTVAL,
        MIP, STVEC, SCOUNTEREN, SENVCFG, SSCRATCH, SEPC, SCAUSE, STVAL, SATP, MCYCLE, MINSTRET,
    ]
}

/// What dcsr has where dret returns to a mode.
fn debug_control(mode: Mode) -> u64
    ensures { result ≡ dcsr_fixed + level mode }
{
    match mode {
        Mode::U => DCSR_FIXED,
        Mode::S => DCSR_FIXED + 1,
        Mode::M => DCSR_FIXED + 3,
    }
}
