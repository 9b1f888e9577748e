//! Steps by tables. The words are those of an assembler (LLVM), and the expected steps are reckoned from the
//! manual by tools/step_rows.py and tools/translation_rows.py, with unbounded integers.

ghost use Rattle.std.specs.Prelude.{◌≡◌, ◌+◌, ◌^◌, ◌-◌, bit_and, min};
ghost use Rattle.csr_file.specs.View.{volatile_bits};
ghost use Rattle.trap_rules.specs.Interrupt.{picked};
ghost use Rattle.rv_alu.specs.Bits.{low_bytes};

mod atomic;
pub(crate) mod debug_mode;
mod devices;
mod memory;
mod registers;
mod translations;
mod traps;
mod words;

use csr_file::CsrFile;
use csr_file::numbers::{MCAUSE, MCYCLE, MEPC, MINSTRET, MIP, MSTATUS, MTVAL};
use guest_ram::{BASE, GuestRam};
use hart_step::{Answers, Core, Event, Priv, Put};
use rv_alu::{Mode, low_bytes};
use std::alloc::{AllocError, Global};
use std::fmt::Debug;
use std::process::Abort;
use trap_rules::pick;

/// Compares what is there with what should be; words and a number say where. Each `assert_eq!` costs the
/// check seconds, a call of this one hardly any.
pub(crate) fn same<T: PartialEq + Debug>(
    rt: &impl Abort,
    got: &T,
    want: &T,
    what: &str,
    number: u64,
) {
    assert_eq!(rt; *got, *want, "{what} {number}");
}

/// What every device register answers, cut to its size.
const DEVICE: u64 = 0x9182_7364_d5c6_b7a8;

/// What every volatile register reads as, cut to its volatile bits.
const WORD: u64 = 0xf0e1_d2c3_b4a5_9687;

/// Surroundings that always answer the same, and count the calls for devices.
#[derive(Drop)]
pub(crate) struct Fixed {
    /// The live interrupt signals.
    pub(crate) live: u64,
    /// Whether a store-conditional succeeds.
    pub(crate) wins: bool,
    pub(crate) loads: u64,
    pub(crate) stores: u64,
    /// What the last device store stored.
    pub(crate) last: u64,
}

impl Fixed {
    pub(crate) fn new(live: u64) -> Fixed {
        Fixed {
            live,
            wins: true,
            loads: 0,
            stores: 0,
            last: 0,
        }
    }
}

/// The bits of a word that a register takes from its surroundings.
#[tactic(auto, using(csr_file::proofs::LegalLaws::and_twice))]
fn cut(word: u64, num: u16) -> u64
    ensures value { result ≡ bit_and word (volatile_bits num) }
    ensures within { bit_and result (volatile_bits num) ≡ result }
{
    word & CsrFile::volatile_mask(num)
}

impl Answers for Fixed {
    ghost use Rattle.csr_file.specs.Numbers.{csr_mip};
    ghost use Rattle.hart_step.specs.Answers.{Loads, Stores, Untouched};

    ghost ready = { λ fixed hart. Unit {0} };

    ghost says = { λ fixed hart. record {
      interrupt = λ registers mode. picked registers mode (bit_and fixed.live (volatile_bits csr_mip));
      device = λ at size. low_bytes size 0x91827364d5c6b7a8;
      volatile = λ number registers. bit_and 0xf0e1d2c3b4a59687 (volatile_bits number);
      may_win = fixed.wins;
    } };

    ghost after = { λ fixed hart ram. elim [
      | Untouched ↦ fixed
      | Loads at size ↦ record fixed { loads = min (fixed.loads + 1) (2 ^ 64 - 1) }
      | Stores at size value ↦ record fixed { stores = min (fixed.stores + 1) (2 ^ 64 - 1); last = value }
    ] };

    fn interrupt(&mut self, _hart: u8, csrs: &CsrFile, mode: Mode) -> Option<u8> {
        pick(csrs, mode, cut(self.live, MIP))
    }

    fn device_load(&mut self, _hart: u8, _at: u64, size: u8) -> u64 {
        self.loads = self.loads.saturating_add(1);
        low_bytes(size, DEVICE)
    }

    fn device_store(&mut self, _hart: u8, _at: u64, _size: u8, value: u64, _ram: &GuestRam) {
        self.stores = self.stores.saturating_add(1);
        self.last = value;
    }

    fn volatile(&mut self, _hart: u8, num: u16, _csrs: &CsrFile) -> u64 {
        cut(WORD, num)
    }

    fn sc_may_win(&mut self, _hart: u8) -> bool {
        self.wins
    }
}

/// What a step did.
#[derive(Clone, Copy)]
pub(crate) enum Did {
    /// Nothing but the pc is shown.
    Passed,
    /// A register and its value.
    Wrote(u8, u64),
    /// An address, a size and a value.
    Stored(u64, u8, u64),
    /// A register and its value, and what is stored; register 0 for none.
    Updated(u8, u64, u64, u8, u64),
    /// A register and its value, and what the device answered; register 0 for none.
    Loaded(u8, u64, u64),
    /// A register and its value, and what the volatile register read as; register 0 for none.
    Saw(u8, u64, u64),
    /// A cause and a trap value.
    Raised(u8, u64),
    /// A cause.
    Interrupted(u8),
    /// No step: the hart has a reservation of these eight bytes.
    Holds(u64),
    /// No step: the hart has no reservation.
    HoldsNothing,
    /// No step: the walker remembers, for the root table of `SATP`, where this address leads.
    Remembers(u64),
    /// No step: the walker does not.
    Forgot(u64),
    /// No step: a device clears the eight bytes from this address.
    Clears(u64),
}

/// Sv39 with the root table at 0x80001000.
pub(crate) const SATP: u64 = 0x8000_0000_0008_0001;

/// A step: the hart, its mode and pc before it, the word there, and what the step did.
pub(crate) type Row = (u8, Priv, u64, u32, Did);

/// The register that an event shows, none for x0.
fn shown(rd: u8, value: u64) -> Option<(u8, u64)> {
    if rd == 0 { None } else { Some((rd, value)) }
}

/// The event of a row.
pub(crate) fn event_of(row: Row) -> Event {
    let (hart, mode, pc, insn, did) = row;
    match did {
        Did::Raised(cause, tval) => Event::Exception {
            hart,
            mode,
            pc,
            cause,
            tval,
        },
        Did::Interrupted(cause) => Event::Interrupt { hart, cause },
        _ => Event::Commit {
            hart,
            mode,
            pc,
            insn,
            rd: written(did),
            st: put(did),
            dv: answered(did),
            vl: seen(did),
        },
    }
}

fn written(did: Did) -> Option<(u8, u64)> {
    match did {
        Did::Wrote(rd, value) => shown(rd, value),
        Did::Updated(rd, value, _, _, _) => shown(rd, value),
        Did::Loaded(rd, value, _) => shown(rd, value),
        Did::Saw(rd, value, _) => shown(rd, value),
        _ => None,
    }
}

fn put(did: Did) -> Option<Put> {
    match did {
        Did::Stored(at, size, value) => Some(Put { at, size, value }),
        Did::Updated(_, _, at, size, value) => Some(Put { at, size, value }),
        _ => None,
    }
}

/// What a device answered.
fn answered(did: Did) -> Option<u64> {
    match did {
        Did::Loaded(_, _, word) => Some(word),
        _ => None,
    }
}

/// What a volatile register read as.
fn seen(did: Did) -> Option<u64> {
    match did {
        Did::Saw(_, _, word) => Some(word),
        _ => None,
    }
}

fn put_number(ram: &mut GuestRam, at: u64, value: u64) {
    if at % 8 == 0 && ram.has(at, 8) {
        ram.write(at, 8, value);
    }
}

fn put_half(ram: &mut GuestRam, at: u64, value: u64) {
    if at % 2 == 0 && ram.has(at, 2) {
        ram.write(at, 2, value);
    }
}

/// Lays a word of two or four bytes.
fn put_word(ram: &mut GuestRam, at: u64, word: u32) {
    put_half(ram, at, u64::from(word));
    if word % 4 == 3 {
        put_half(ram, at.wrapping_add(2), u64::from(word >> 16));
    }
}

fn put_words(ram: &mut GuestRam, words: &[u32]) {
    let mut at = BASE;
    for &word in words {
        put_word(ram, at, word);
        at = at.wrapping_add(4);
    }
}

fn number_from(ram: &GuestRam, at: u64) -> u64 {
    if at % 8 == 0 && ram.has(at, 8) {
        ram.read(at, 8)
    } else {
        0
    }
}

/// Compares a number in memory.
pub(crate) fn holds(rt: &impl Abort, ram: &GuestRam, at: u64, want: u64) {
    same(rt, &number_from(ram, at), &want, "number at", at);
}

/// A memory with these numbers, each at its address, and the word of each row at the row's pc.
fn memory_of(alloc: Global, data: &[(u64, u64)], rows: &[Row]) -> Result<GuestRam, AllocError> {
    let mut ram = GuestRam::new(alloc, 0x1_0000)?;
    for &(_, _, pc, word, _) in rows {
        if word != 0 {
            put_word(&mut ram, pc, word);
        }
    }
    for &(at, value) in data {
        put_number(&mut ram, at, value);
    }
    Ok(ram)
}

/// Harts at reset over a memory, 1 to 8 of them.
fn core_of(rt: &impl Abort, alloc: Global, harts: u8, ram: GuestRam) -> Result<Core, AllocError> {
    assert!(rt; 0 < harts && harts <= 8);
    Core::new(alloc, harts, ram, BASE)
}

/// One step of a hart.
fn stepped(rt: &impl Abort, core: &mut Core, h: u8, fixed: &mut Fixed) -> Event {
    assert!(rt; h < core.harts());
    core.step(h, fixed)
}

/// How many device loads and stores what was done is, and what it stores in the device.
fn calls_of(did: Did) -> (u64, u64, u64) {
    match did {
        Did::Loaded(_, _, _) => (1, 0, 0),
        Did::Stored(at, _, value) => { if at < BASE { (0, 1, value) } else { (0, 0, 0) } }
        _ => (0, 0, 0),
    }
}

/// Compares the device calls of a step with what it did.
fn called(rt: &impl Abort, fixed: &Fixed, did: Did, number: u64) {
    let calls = (fixed.loads, fixed.stores, fixed.last);
    same(rt, &calls, &calls_of(did), "device calls of", number);
}

/// Compares a step, and its device calls, with a row.
pub(crate) fn compare(rt: &impl Abort, core: &mut Core, fixed: &mut Fixed, row: Row, count: u64) {
    fixed.loads = 0;
    fixed.stores = 0;
    fixed.last = 0;
    let event = stepped(rt, core, row.0, fixed);
    same(rt, &event, &event_of(row), "step", count);
    called(rt, fixed, row.4, count);
}

/// Compares the reservation of a hart.
pub(crate) fn reserves(rt: &impl Abort, core: &Core, h: u8, want: Option<u64>, count: u64) {
    assert!(rt; h < core.harts());
    same(
        rt,
        &core.reservation(h),
        &want,
        "reservation before step",
        count,
    );
}

/// Compares whether the walker remembers where an address leads.
fn remembers(rt: &impl Abort, core: &Core, va: u64, want: bool) {
    let got = core.walker().remembers(SATP, va);
    same(rt, &got, &want, "memory of the translation of", va);
}

/// Clears eight bytes of memory as a device does.
fn clear(core: &mut Core, at: u64) {
    if at % 8 == 0 && core.ram().has(at, 8) {
        core.host_clear(at);
    }
}

/// Does what a row says before step `count`, and answers how many steps that is.
fn follow(rt: &impl Abort, core: &mut Core, fixed: &mut Fixed, row: Row, count: u64) -> u64 {
    match row.4 {
        Did::Holds(at) => reserves(rt, core, row.0, Some(at), count),
        Did::HoldsNothing => reserves(rt, core, row.0, None, count),
        Did::Remembers(va) => remembers(rt, core, va, true),
        Did::Forgot(va) => remembers(rt, core, va, false),
        Did::Clears(at) => clear(core, at),
        _ => {
            compare(rt, core, fixed, row, count);
            return 1;
        }
    }
    0
}

/// Takes the steps of the rows, from reset on, and compares each.
pub(crate) fn replay(rt: &impl Abort, mut core: Core, fixed: &mut Fixed, rows: &[Row]) -> Core {
    let mut count = 0u64;
    for &row in rows {
        let steps = follow(rt, &mut core, fixed, row, count);
        count = count.wrapping_add(steps);
    }
    core
}

/// What a run of rows starts from.
#[derive(Clone, Copy)]
pub(crate) struct Start<'a> {
    pub(crate) harts: u8,
    pub(crate) live: u64,
    /// Whether a store-conditional succeeds.
    pub(crate) wins: bool,
    pub(crate) data: &'a [(u64, u64)],
}

/// One hart, no live interrupts and no data.
pub(crate) const PLAIN: Start<'static> = Start {
    harts: 1,
    live: 0,
    wins: true,
    data: &[],
};

/// So many harts, with numbers in memory, each at its address.
pub(crate) fn with_data(harts: u8, data: &[(u64, u64)]) -> Start<'_> {
    Start {
        harts,
        live: 0,
        wins: true,
        data,
    }
}

/// Takes the steps of the rows from a start, and answers the core after them.
pub(crate) fn run(
    rt: &impl Abort,
    alloc: Global,
    start: Start<'_>,
    rows: &[Row],
) -> Result<Core, AllocError> {
    let ram = memory_of(alloc, start.data, rows)?;
    let core = core_of(rt, alloc, start.harts, ram)?;
    let mut fixed = Fixed::new(start.live);
    fixed.wins = start.wins;
    Ok(replay(rt, core, &mut fixed, rows))
}

/// The same, where what they leave is not looked at.
pub(crate) fn run_rows(
    rt: &impl Abort,
    alloc: Global,
    start: Start<'_>,
    rows: &[Row],
) -> Result<(), AllocError> {
    let _ = run(rt, alloc, start, rows)?;
    Ok(())
}

/// The same, where the kept `mcycle` and `minstret` of hart 0 are these in the end.
pub(crate) fn run_counted(
    rt: &impl Abort,
    alloc: Global,
    start: Start<'_>,
    rows: &[Row],
    want: (u64, u64),
) -> Result<(), AllocError> {
    let core = run(rt, alloc, start, rows)?;
    counted(rt, &core, want, rows.len() as u64);
    Ok(())
}

/// Compares the kept `mcycle` and `minstret` of hart 0 after so many steps.
pub(crate) fn counted(rt: &impl Abort, core: &Core, want: (u64, u64), steps: u64) {
    assert!(rt; 0 < core.harts());
    let counters = kept_counters(core.hart(0).csrs());
    same(rt, &counters, &want, "cycles and instructions of", steps);
}

/// The kept `mcycle` and `minstret` of hart 0.
#[tactic(auto, unfolding(csr_file::specs::Legal::keeps_value, csr_file::specs::Legal::is_kept_number, csr_file::specs::Legal::kept_numbers, csr_file::specs::Kept::kept_in, csr_file::specs::Kept::kept_value, csr_file::specs::Numbers::is_listed))]
fn kept_counters(csrs: &CsrFile) -> (u64, u64) {
    (csrs.kept(MCYCLE), csrs.kept(MINSTRET))
}

/// Where the word that is tried stands, and where the data before it.
pub(crate) const WORD_AT: u64 = 0x8000_0010;

pub(crate) const DATA: u64 = 0x8000_0110;

/// The data: two doublewords, with bytes of both signs.
const LOW: u64 = 0x9122_3344_f566_7788;

const HIGH: u64 = 0x1685_0403_0201_807f;

/// Makes x31 the first address of memory, x10 and x11 the numbers at 0x100 and 0x108, and x2 DATA.
static SET_UP: [u32; 4] = [
    0x0000_0f97, // auipc x31,0
    0x100f_b503, // ld x10,0x100(x31)
    0x108f_b583, // ld x11,0x108(x31)
    0x110f_8113, // addi x2,x31,0x110
];

/// What a step showed, and the pc and the data after it.
#[derive(Clone, Copy, PartialEq, Eq, Debug)]
pub(crate) struct Tried {
    pub(crate) event: Event,
    pub(crate) next: u64,
    pub(crate) low: u64,
    pub(crate) high: u64,
}

/// Memory with the words that set up and then this word, a and b at 0x100 and 0x108, and the data.
fn words_in(alloc: Global, word: u32, a: u64, b: u64) -> Result<GuestRam, AllocError> {
    let mut ram = GuestRam::new(alloc, 0x1_0000)?;
    put_words(&mut ram, &SET_UP);
    put_word(&mut ram, WORD_AT, word);
    put_number(&mut ram, BASE + 0x100, a);
    put_number(&mut ram, BASE + 0x108, b);
    put_number(&mut ram, DATA, LOW);
    put_number(&mut ram, DATA + 8, HIGH);
    Ok(ram)
}

/// So many steps of hart 0.
fn set_up(rt: &impl Abort, mut core: Core, fixed: &mut Fixed, count: usize) -> Core {
    for _ in 0..count {
        let _ = stepped(rt, &mut core, 0, fixed);
    }
    core
}

/// Tries a word in machine mode with these values in x10 and x11.
pub(crate) fn try_word(
    rt: &impl Abort,
    alloc: Global,
    fixed: &mut Fixed,
    word: u32,
    a: u64,
    b: u64,
) -> Result<Tried, AllocError> {
    let ram = words_in(alloc, word, a, b)?;
    let core = core_of(rt, alloc, 1, ram)?;
    let mut core = set_up(rt, core, fixed, 4);
    let event = stepped(rt, &mut core, 0, fixed);
    assert!(rt; 0 < core.harts());
    Ok(Tried {
        event,
        next: core.hart(0).pc(),
        low: number_from(core.ram(), DATA),
        high: number_from(core.ram(), DATA + 8),
    })
}

/// A word in machine mode, x10 and x11 before it, what the step does, and the pc after it.
pub(crate) type Word = (u32, u64, u64, Did, u64);

/// Tries a word, which leaves the data as they are.
pub(crate) fn try_row(rt: &impl Abort, alloc: Global, row: Word) -> Result<(), AllocError> {
    let (word, a, b, did, next) = row;
    let number = u64::from(word);
    let mut fixed = Fixed::new(0);
    let shown = try_word(rt, alloc, &mut fixed, word, a, b)?;
    let want = event_of((0, Priv::M, WORD_AT, word, did));
    same(rt, &shown.event, &want, "event of", number);
    same(rt, &shown.next, &next, "pc after", number);
    called(rt, &fixed, did, number);
    Ok(())
}

pub(crate) fn try_rows(rt: &impl Abort, alloc: Global, rows: &[Word]) -> Result<(), AllocError> {
    for &row in rows {
        try_row(rt, alloc, row)?;
    }
    Ok(())
}

/// Goes on at 0x30 with mstatus, satp and mcounteren as they stand at 0x108, 0x110 and 0x118, scounteren
/// 5, and x10 as at 0x100; the word at 0x2c leaves machine mode or does nothing.
static ENTER: [u32; 11] = [
    0x0000_0f97, // auipc x31,0
    0x100f_b503, // ld x10,0x100(x31)
    0x108f_b283, // ld x5,0x108(x31)
    0x110f_b303, // ld x6,0x110(x31)
    0x118f_b383, // ld x7,0x118(x31)
    0x3063_9073, // csrrw x0,mcounteren,x7
    0x1062_d073, // csrrwi x0,scounteren,5
    0x030f_8393, // addi x7,x31,0x30
    0x3413_9073, // csrrw x0,mepc,x7
    0x1803_1073, // csrrw x0,satp,x6
    0x3002_9073, // csrrw x0,mstatus,x5
];

/// The registers before a word that is tried in a mode.
#[derive(Clone, Copy)]
pub(crate) struct Before {
    pub(crate) mode: Priv,
    pub(crate) status: u64,
    pub(crate) satp: u64,
    pub(crate) counters: u64,
    pub(crate) x10: u64,
}

/// Memory with the words that enter a mode and then this word, and these data.
fn entering(
    alloc: Global,
    before: Before,
    word: u32,
    data: &[(u64, u64)],
) -> Result<GuestRam, AllocError> {
    let mut ram = GuestRam::new(alloc, 0x1_0000)?;
    let leave = if before.mode == Priv::M {
        0x0000_0013
    } else {
        0x3020_0073
    };
    put_words(&mut ram, &ENTER);
    put_word(&mut ram, BASE + 0x2c, leave);
    put_word(&mut ram, BASE + 0x30, word);
    put_number(&mut ram, BASE + 0x100, before.x10);
    put_number(&mut ram, BASE + 0x108, before.status);
    put_number(&mut ram, BASE + 0x110, before.satp);
    put_number(&mut ram, BASE + 0x118, before.counters);
    for &(at, value) in data {
        put_number(&mut ram, at, value);
    }
    Ok(ram)
}

/// `mepc`, `mcause`, `mtval` and `mstatus`.
#[tactic(auto, unfolding(csr_file::specs::Legal::keeps_value, csr_file::specs::Legal::is_kept_number, csr_file::specs::Legal::kept_numbers, csr_file::specs::Kept::kept_in, csr_file::specs::Kept::kept_value, csr_file::specs::Numbers::is_listed))]
fn trap_registers(csrs: &CsrFile) -> (u64, u64, u64, u64) {
    (
        csrs.kept(MEPC),
        csrs.kept(MCAUSE),
        csrs.kept(MTVAL),
        csrs.kept(MSTATUS),
    )
}

/// What `mstatus` is after an exception into machine mode in a mode that was entered with this status: the
/// return to a mode below set MIE to MPIE and cleared MPRV, and the entry set MPIE to MIE, MIE to 0 and MPP
/// to the mode.
fn status_after(before: Before) -> u64 {
    let kept = before.status & 0x7e_0122;
    let enabled = if before.mode == Priv::M {
        before.status & 8 != 0
    } else {
        before.status & 0x80 != 0
    };
    let left = match before.mode {
        Priv::U => kept & 0x7c_0122,
        Priv::S => kept & 0x7c_0122 | 0x800,
        _ => kept | 0x1800,
    };
    0xa_0000_0000 | left | if enabled { 0x80 } else { 0 }
}

/// Compares what an exception of a word that was tried in a mode left.
fn raised(rt: &impl Abort, core: &Core, before: Before, tried: (u8, u64), number: u64) {
    assert!(rt; 0 < core.harts());
    let hart = core.hart(0);
    let (cause, tval) = tried;
    same(rt, &hart.pc(), &0, "handler of", number);
    same(rt, &hart.mode(), &Mode::M, "mode after", number);
    let want = (BASE + 0x30, u64::from(cause), tval, status_after(before));
    same(rt, &trap_registers(hart.csrs()), &want, "trap of", number);
}

/// Tries a word in a mode; an exception goes to machine mode at address 0.
pub(crate) fn try_in(
    rt: &impl Abort,
    alloc: Global,
    before: Before,
    word: u32,
    data: &[(u64, u64)],
    did: Did,
) -> Result<Core, AllocError> {
    let ram = entering(alloc, before, word, data)?;
    let core = core_of(rt, alloc, 1, ram)?;
    let mut fixed = Fixed::new(0);
    let mut core = set_up(rt, core, &mut fixed, 12);
    let row = (0, before.mode, BASE + 0x30, word, did);
    compare(rt, &mut core, &mut fixed, row, u64::from(word));
    if let Did::Raised(cause, tval) = did {
        raised(rt, &core, before, (cause, tval), u64::from(word));
    }
    Ok(core)
}
