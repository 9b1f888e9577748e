//! Machines for the tests, and the comparison of two of them.

ghost use Rattle.std.specs.Prelude.{◌≡◌, ◌*◌, ◌<◌, ◌≤◌, IsTrue};
ghost use Rattle.board_bus.specs.Board.{hart_count};
ghost use Rattle.sim_config.specs.Ranges.{IsShape};

use crate::NoMemory;
use board_bus::Board;
use csr_file::CsrFile;
use csr_file::numbers::{
    MCAUSE, MCOUNTEREN, MCYCLE, MEDELEG, MENVCFG, MEPC, MIDELEG, MIE, MINSTRET, MIP, MSCRATCH,
    MSTATUS, MTVAL, MTVEC, SATP, SCAUSE, SCOUNTEREN, SENVCFG, SEPC, SSCRATCH, STVAL, STVEC,
};
use guest_ram::{BASE, GuestRam};
use hart_step::{Event, Hart};
use hart_turns::{Machine, TurnEnd};
use plic::Plic;
use sim_config::Shape;
use std::alloc::Global;
use std::fmt::Debug;
use std::process::Abort;

/// Compares what is there with what should be; words and a number say where.
pub(crate) fn same<T: PartialEq + Debug>(
    rt: &impl Abort,
    got: &T,
    want: &T,
    what: &str,
    number: u64,
) {
    assert_eq!(rt; *got, *want, "{what} {number}");
}

/// Something holds; words and a number say what.
pub(crate) fn holds(rt: &impl Abort, is: bool, what: &str, number: u64) {
    same(rt, &is, &true, what, number);
}

// ---- machines

pub(crate) const SMALL: u64 = 0x1_0000;

fn is_shape(shape: Shape) -> bool
    ensures { IsTrue result → IsShape shape }
{
    let harts = 1 <= shape.harts && shape.harts <= 8;
    let slice = 1 <= shape.slice && shape.slice <= 1024;
    harts && slice && shape.ram == SMALL && shape.tohost == 0
}

fn put_word(ram: &mut GuestRam, at: u64, word: u32) {
    if at % 4 == 0 && ram.has(at, 4) {
        ram.write(at, 4, u64::from(word));
    }
}

/// A machine at reset with 64 KiB of memory, with these words from its first byte on.
pub(crate) fn machine_of(
    rt: &impl Abort,
    alloc: Global,
    harts: u8,
    slice: u16,
    words: &[u32],
) -> Result<Machine, NoMemory> {
    let shape = Shape {
        harts,
        ram: SMALL,
        slice,
        tohost: 0,
    };
    assert!(rt; is_shape(shape));
    let mut ram = GuestRam::new(alloc, SMALL)?;
    let mut at = BASE;
    for &word in words {
        put_word(&mut ram, at, word);
        at = at.wrapping_add(4);
    }
    assert!(rt; ram.len() == shape.ram);
    Machine::reset(alloc, shape, ram, BASE)
}

/// Makes a turn that goes on, with this input.
pub(crate) fn go(rt: &impl Abort, machine: &mut Machine, input: Option<u8>) {
    assert!(rt; machine.taken() < 1000);
    let end = machine.turn(input);
    same(rt, &end, &TurnEnd::Goes, "end of a turn", 0);
}

/// Compares events.
pub(crate) fn same_events(rt: &impl Abort, got: &[Event], want: &[Event]) {
    same(rt, &got, &want, "events", 0);
}

/// The bytes of a machine's memory.
fn memory<'a>(rt: &impl Abort, machine: &'a Machine) -> &'a [u8] {
    let ram = machine.core().ram();
    assert!(rt; ram.len() == SMALL && ram.has(BASE, SMALL));
    ram.part(BASE, SMALL)
}

/// A copy of a machine's memory.
fn copied(rt: &impl Abort, alloc: Global, machine: &Machine) -> Result<GuestRam, NoMemory> {
    let mut ram = GuestRam::new(alloc, SMALL)?;
    assert!(rt; ram.has(BASE, SMALL));
    let bytes = memory(rt, machine);
    let part = ram.part_mut(BASE, SMALL);
    assert!(rt; part.len() == bytes.len());
    part.copy_from_slice(bytes);
    Ok(ram)
}

/// A machine like this one, but at reset in debug mode with a ROM, after its boot, which makes so many
/// steps and sends nothing.
pub(crate) fn booted(
    rt: &impl Abort,
    alloc: Global,
    like: &Machine,
    rom: Vec<u8>,
    steps: u32,
) -> Result<Machine, NoMemory> {
    let ram = copied(rt, alloc, like)?;
    assert!(rt; rom.len() <= 131_072 && like.taken() < 1000);
    assert!(rt; ram.len() == like.shape().ram);
    let mut machine = Machine::reset_debug(alloc, like.shape(), ram, rom, like.taken())?;
    let answer = machine.boot();
    same(rt, &answer, &Ok(steps), "answer of a boot", 0);
    same(rt, &machine.output().len(), &0, "bytes that it sends", 0);
    Ok(machine)
}

// ---- what is there of a machine

/// What a hart keeps of its control and status registers.
#[tactic(auto, unfolding(csr_file::specs::Legal::keeps_value, csr_file::specs::Legal::is_kept_number, csr_file::specs::Legal::kept_numbers, csr_file::specs::Kept::kept_in, csr_file::specs::Kept::kept_value, csr_file::specs::Numbers::is_listed))]
fn controls(csrs: &CsrFile) -> [u64; 22] {
    [
        csrs.kept(MSTATUS),
        csrs.kept(MEDELEG),
        csrs.kept(MIDELEG),
        csrs.kept(MIE),
        csrs.kept(MTVEC),
        csrs.kept(MCOUNTEREN),
        csrs.kept(MENVCFG),
        csrs.kept(MSCRATCH),
        csrs.kept(MEPC),
        csrs.kept(MCAUSE),
        csrs.kept(MTVAL),
        csrs.kept(MIP),
        csrs.kept(STVEC),
        csrs.kept(SCOUNTEREN),
        csrs.kept(SENVCFG),
        csrs.kept(SSCRATCH),
        csrs.kept(SEPC),
        csrs.kept(SCAUSE),
        csrs.kept(STVAL),
        csrs.kept(SATP),
        csrs.kept(MCYCLE),
        csrs.kept(MINSTRET),
    ]
}

/// Registers x0 to x31.
fn registers(hart: &Hart) -> [u64; 32] {
    let mut registers = [0; 32];
    for i in 0..32u8 {
        registers[usize::from(i)] = hart.x(i);
    }
    registers
}

/// The software interrupt and the time of the timer interrupt of a hart.
fn timer(board: &Board, h: u8) -> (Option<u64>, Option<u64>) {
    let at = u64::from(h);
    let clint = board.clint();
    (
        clint.load(4 * at, 4).ok(),
        clint.load(0x4000 + 8 * at, 8).ok(),
    )
}

/// The priorities, and the sources that are served.
fn sources(plic: &Plic) -> (u32, u32, u8) {
    (plic.priority(1), plic.priority(2), plic.served())
}

/// The enable and the threshold of a context of a board for so many harts.
fn context(board: &Board, harts: u8, c: u8) -> (u32, u32)
    requires board { hart_count board.now ≡ harts }
    requires context { c < 2 * harts }
{
    board.see_fit();
    (board.plic().enabled(c), board.plic().threshold(c))
}

/// The byte that waits behind so many others.
fn waiting(board: &Board, i: usize) -> Option<u8> {
    if i < board.console().waiting() {
        Some(board.console().byte(i))
    } else {
        None
    }
}

/// Ctrl and txaddr.
fn control(board: &Board) -> (u32, u64) {
    (board.console().ctrl(), board.console().txaddr())
}

// ---- two machines

/// Two harts are the same, but for their reservations.
fn same_registers(rt: &impl Abort, got: &Hart, want: &Hart, h: u64) {
    same(rt, &got.pc(), &want.pc(), "pc of hart", h);
    same(rt, &got.mode(), &want.mode(), "mode of hart", h);
    let (one, other) = (registers(got), registers(want));
    same(rt, &one, &other, "registers of hart", h);
    let (one, other) = (controls(got.csrs()), controls(want.csrs()));
    same(rt, &one, &other, "control registers of hart", h);
    holds(rt, got.csrs().debug().is_none(), "hart out of debug", h);
}

/// A hart of one machine is that of another, and has no reservation.
fn same_hart(rt: &impl Abort, got: &Machine, want: &Machine, h: u8) {
    assert!(rt; h < got.core().harts() && h < want.core().harts());
    let number = u64::from(h);
    same_registers(rt, got.core().hart(h), want.core().hart(h), number);
    let reservation = got.core().reservation(h);
    same(rt, &reservation, &None, "reservation of hart", number);
    let (one, other) = (timer(got.board(), h), timer(want.board(), h));
    same(rt, &one, &other, "timer of hart", number);
}

/// The contexts of the interrupt controller.
fn same_contexts(rt: &impl Abort, got: &Board, want: &Board, harts: u8)
    requires got { hart_count got.now ≡ harts }
    requires want { hart_count want.now ≡ harts }
    requires most { harts ≤ 8 }
{
    for c in 0..2 * harts {
        let (one, other) = (context(got, harts, c), context(want, harts, c));
        same(rt, &one, &other, "context", u64::from(c));
    }
}

/// The devices, but for those of each hart.
fn same_devices(rt: &impl Abort, got: &Board, want: &Board) {
    same(rt, &got.time(), &want.time(), "time of the board", 0);
    let (one, other) = (sources(got.plic()), sources(want.plic()));
    same(rt, &one, &other, "interrupt sources", 0);
    same(rt, &control(got), &control(want), "console", 0);
    for i in 0..17usize {
        let (one, other) = (waiting(got, i), waiting(want, i));
        same(rt, &one, &other, "waiting byte", i as u64);
    }
}

/// A machine is another one without its reservations, and runs.
pub(crate) fn same_machine(rt: &impl Abort, got: &Machine, want: &Machine) {
    let harts = want.shape().harts;
    holds(rt, got.shape() == want.shape(), "same shape", 0);
    holds(rt, memory(rt, got) == memory(rt, want), "same memory", 0);
    holds(rt, got.running(), "runs", 0);
    same(rt, &got.taken(), &want.taken(), "bytes taken", 0);
    same(rt, &got.core().rom().len(), &0, "bytes of boot memory", 0);
    for h in 0..harts {
        same_hart(rt, got, want, h);
    }
    same_devices(rt, got.board(), want.board());
    got.see_fit();
    want.see_fit();
    assert!(rt; got.shape().harts == harts);
    same_contexts(rt, got.board(), want.board(), harts);
}

/// Two machines that are the same make the same turn.
pub(crate) fn goes_on(rt: &impl Abort, got: &mut Machine, want: &mut Machine) {
    go(rt, got, Some(0x41));
    go(rt, want, Some(0x41));
    same_events(rt, got.events(), want.events());
    same_machine(rt, got, want);
}
