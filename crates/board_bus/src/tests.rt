//! The registers of boards by tables, the signals of harts, and the host window.

ghost use Rattle.std.specs.Prelude.{◌≡◌, IfOk};
ghost use Rattle.board_bus.specs.Board.{hart_count};

use crate::{Board, HostSays, Refused, host_word, listed};
use console::OutBuf;
use guest_ram::{BASE, GuestRam};
use std::process::Abort;
use std::test::Fail;

// Address and size of each register of a board of one hart.
static OF_ONE_HART: [(u64, u8); 17] = [
    (0x200_0000, 4),
    (0x200_4000, 8),
    (0x200_bff8, 8),
    (0xc00_0004, 4),
    (0xc00_0008, 4),
    (0xc00_1000, 4),
    (0xc00_2000, 4),
    (0xc00_2080, 4),
    (0xc20_0000, 4),
    (0xc20_0004, 4),
    (0xc20_1000, 4),
    (0xc20_1004, 4),
    (0x1000_0000, 1),
    (0x1000_0004, 4),
    (0x1000_0008, 4),
    (0x1000_0010, 8),
    (0x1000_0018, 4),
];

// Address and size of the first and the last register of each row that only a board of eight harts has.
static OF_EIGHT_HARTS: [(u64, u8); 10] = [
    (0x200_0004, 4),
    (0x200_001c, 4),
    (0x200_4008, 8),
    (0x200_4038, 8),
    (0xc00_2100, 4),
    (0xc00_2780, 4),
    (0xc20_2000, 4),
    (0xc20_2004, 4),
    (0xc20_f000, 4),
    (0xc20_f004, 4),
];

// Address and size of no register: beside a register or a block, inside one, or of another size.
static UNLISTED: [(u64, u8); 47] = [
    (0, 4),
    (0x1ff_fffc, 4),
    (0x200_0000, 1),
    (0x200_0000, 2),
    (0x200_0000, 8),
    (0x200_0002, 4),
    (0x200_0020, 4),
    (0x200_3ff8, 8),
    (0x200_4000, 4),
    (0x200_4004, 8),
    (0x200_4040, 8),
    (0x200_bff0, 8),
    (0x200_bff8, 4),
    (0x200_bffc, 8),
    (0x200_c000, 8),
    (0x201_0000, 4),
    (0x201_4000, 8),
    (0xbff_fffc, 4),
    (0xc00_0000, 4),
    (0xc00_0004, 1),
    (0xc00_0004, 8),
    (0xc00_0006, 4),
    (0xc00_000c, 4),
    (0xc00_1004, 4),
    (0xc00_1ffc, 4),
    (0xc00_2004, 4),
    (0xc00_2800, 4),
    (0xc20_0002, 4),
    (0xc20_0004, 8),
    (0xc20_0008, 4),
    (0xc21_0000, 4),
    (0xc21_0004, 4),
    (0xfff_fffc, 4),
    (0x1000_0000, 2),
    (0x1000_0000, 4),
    (0x1000_0000, 0),
    (0x1000_0001, 1),
    (0x1000_0004, 1),
    (0x1000_0010, 4),
    (0x1000_0014, 4),
    (0x1000_0018, 8),
    (0x1000_001c, 4),
    (0x1000_1000, 1),
    (0x8000_0000, 8),
    (0x1_0200_0000, 4),
    (u64::MAX, 1),
    (u64::MAX - 7, 8),
];

// A board at reset for a number of harts that a table gives.
fn board_of(rt: &impl Abort, harts: u8) -> Board
    ensures { hart_count result ≡ harts }
{
    assert!(rt; 0 < harts && harts <= 8);
    Board::new(harts)
}

// A store, before which the buffer is seen to have its room.
fn put(
    rt: &impl Abort,
    board: &mut Board,
    place: (u64, u8),
    value: u64,
    ram: &GuestRam,
    out: &mut OutBuf,
) -> Result<(), Refused>
    ensures { hart_count board.new ≡ hart_count board.old }
{
    assert!(rt; out.spare() >= 256);
    board.store(place.0, place.1, value, ram, out)
}

// That `listed`, a load and a store agree on whether there is this register.
fn look(
    rt: &impl Abort,
    harts: u8,
    place: (u64, u8),
    want: bool,
    ram: &GuestRam,
    out: &mut OutBuf,
) {
    let (at, size) = place;
    let mut board = board_of(rt, harts);
    assert_eq!(rt; listed(harts, at, size), want, "{size} at {at} of {harts}");
    assert_eq!(rt;
        board.load(at, size).is_ok(),
        want,
        "load of {size} at {at} of {harts}"
    );
    assert_eq!(rt;
        put(rt, &mut board, place, 0, ram, out).is_ok(),
        want,
        "store of {size} at {at} of {harts}"
    );
}

#[test]
fn a_board_has_the_registers_of_its_harts(rt: HostRuntime) -> Result<(), Fail> {
    let ram = GuestRam::new(rt.alloc(), 16)?;
    let mut out = OutBuf::new(rt.alloc(), 512)?;
    for &place in &OF_ONE_HART {
        look(&rt, 1, place, true, &ram, &mut out);
        look(&rt, 8, place, true, &ram, &mut out);
    }
    for &place in &OF_EIGHT_HARTS {
        look(&rt, 1, place, false, &ram, &mut out);
        look(&rt, 8, place, true, &ram, &mut out);
    }
    for &place in &UNLISTED {
        look(&rt, 1, place, false, &ram, &mut out);
        look(&rt, 8, place, false, &ram, &mut out);
    }
    Ok(())
}

#[test]
fn loads_and_stores_reach_each_device(rt: HostRuntime) -> Result<(), Fail> {
    let ram = GuestRam::new(rt.alloc(), 16)?;
    let mut out = OutBuf::new(rt.alloc(), 512)?;
    let mut board = Board::new(2);
    put(&rt, &mut board, (0x200_4008, 8), 77, &ram, &mut out)?;
    put(&rt, &mut board, (0x200_bff8, 8), 76, &ram, &mut out)?;
    put(&rt, &mut board, (0xc20_3000, 4), 5, &ram, &mut out)?;
    put(&rt, &mut board, (0x1000_0010, 8), 99, &ram, &mut out)?;
    assert_eq!(rt; board.load(0x200_4008, 8), Ok(77));
    assert_eq!(rt; board.clint().load(0x4008, 8).is_ok(), true);
    assert_eq!(rt; board.load(0xc20_3000, 4), Ok(5));
    assert_eq!(rt; board.plic().served(), 0);
    assert_eq!(rt; board.load(0x1000_0010, 8), Ok(99));
    assert_eq!(rt; board.console().txaddr(), 99);
    assert_eq!(rt; (board.time(), board.live(1)), (76, 0));
    board.tick();
    assert_eq!(rt; (board.time(), board.live(1)), (77, 0x80));
    assert_eq!(rt; board.live(0), 0);
    Ok(())
}

// A board with both priorities 1, where the registers of hart h have these values.
fn driven(
    rt: &impl Abort,
    harts: u8,
    h: u8,
    values: (u64, u64, u64, u64),
    ram: &GuestRam,
    out: &mut OutBuf,
) -> Result<Board, Refused>
    ensures { IfOk result (λ board. hart_count board ≡ harts) }
{
    let mut board = board_of(rt, harts);
    let h = u64::from(h);
    put(rt, &mut board, (0xc00_0004, 4), 1, ram, out)?;
    put(rt, &mut board, (0xc00_0008, 4), 1, ram, out)?;
    put(rt, &mut board, (0x1000_0008, 4), 2, ram, out)?;
    put(rt, &mut board, (0x200_0000 + 4 * h, 4), values.0, ram, out)?;
    put(rt, &mut board, (0x200_4000 + 8 * h, 8), values.1, ram, out)?;
    put(
        rt,
        &mut board,
        (0xc00_2000 + 0x100 * h, 4),
        values.2,
        ram,
        out,
    )?;
    put(
        rt,
        &mut board,
        (0xc00_2080 + 0x100 * h, 4),
        values.3,
        ram,
        out,
    )?;
    Ok(board)
}

#[test]
fn each_hart_gets_its_four_signals(rt: HostRuntime) -> Result<(), Fail> {
    let ram = GuestRam::new(rt.alloc(), 16)?;
    let mut out = OutBuf::new(rt.alloc(), 512)?;
    // harts, the hart, its msip, its mtimecmp, the enables of its contexts for M and S, and its signals
    for (harts, h, values, want) in [
        (1u8, 0u8, (0u64, 1u64, 0u64, 0u64), 0u64),
        (1, 0, (1, 1, 0, 0), 0x008),
        (1, 0, (0, 0, 0, 0), 0x080),
        (1, 0, (0, 1, 0, 4), 0x200),
        (1, 0, (0, 1, 4, 0), 0x800),
        (1, 0, (0, 1, 2, 2), 0),
        (8, 7, (1, 0, 4, 4), 0xa88),
        (8, 7, (0, 1, 4, 0), 0x800),
        (8, 3, (0, 1, 0, 4), 0x200),
    ] {
        let board = driven(&rt, harts, h, values, &ram, &mut out)?;
        assert!(rt; h < harts);
        assert_eq!(rt; board.live(h), want, "hart {h} of {harts}");
    }
    Ok(())
}

// What happens to a board.
#[derive(Clone, Copy)]
enum Act {
    Nothing,
    Put(u64, u8, u64),
    Take(u64, u8),
    Tick,
    Enter(u8),
}

// Two acts on the board below, and the signals of its two harts afterwards. Its interrupt of input is due for hart 0
// in S mode; hart 1 in M mode enables that of output, which the console does not.
static ACTS: [(&str, Act, Act, u64, u64); 23] = [
    ("nothing", Act::Nothing, Act::Nothing, 0x200, 0),
    (
        "msip 1",
        Act::Nothing,
        Act::Put(0x200_0004, 4, 1),
        0x200,
        0x008,
    ),
    (
        "msip 1, cleared",
        Act::Put(0x200_0004, 4, 1),
        Act::Put(0x200_0004, 4, 0),
        0x200,
        0,
    ),
    (
        "mtimecmp 0",
        Act::Nothing,
        Act::Put(0x200_4000, 8, 0),
        0x280,
        0,
    ),
    (
        "mtimecmp 1",
        Act::Nothing,
        Act::Put(0x200_4008, 8, 0),
        0x200,
        0x080,
    ),
    ("mtime", Act::Nothing, Act::Put(0x200_bff8, 8, 1), 0x280, 0),
    ("tick", Act::Nothing, Act::Tick, 0x280, 0),
    (
        "tick, mtimecmp 0",
        Act::Tick,
        Act::Put(0x200_4000, 8, 2),
        0x200,
        0,
    ),
    (
        "last time, tick",
        Act::Put(0x200_bff8, 8, u64::MAX),
        Act::Tick,
        0x200,
        0,
    ),
    (
        "output enabled",
        Act::Nothing,
        Act::Put(0x1000_0008, 4, 3),
        0x200,
        0x800,
    ),
    (
        "input disabled",
        Act::Nothing,
        Act::Put(0x1000_0008, 4, 2),
        0,
        0x800,
    ),
    ("priority 1", Act::Nothing, Act::Put(0xc00_0004, 4, 0), 0, 0),
    (
        "enable of context 1",
        Act::Nothing,
        Act::Put(0xc00_2080, 4, 4),
        0,
        0,
    ),
    (
        "enable of context 2",
        Act::Nothing,
        Act::Put(0xc00_2100, 4, 2),
        0x200,
        0x800,
    ),
    (
        "threshold of context 1",
        Act::Nothing,
        Act::Put(0xc20_1000, 4, 1),
        0,
        0,
    ),
    ("claim", Act::Nothing, Act::Take(0xc20_1004, 4), 0, 0),
    (
        "claim, completion",
        Act::Take(0xc20_1004, 4),
        Act::Put(0xc20_1004, 4, 1),
        0x200,
        0,
    ),
    (
        "claim, no completion",
        Act::Take(0xc20_1004, 4),
        Act::Put(0xc20_2004, 4, 1),
        0,
        0,
    ),
    (
        "claim of context 2",
        Act::Nothing,
        Act::Take(0xc20_2004, 4),
        0x200,
        0,
    ),
    ("byte taken", Act::Nothing, Act::Take(0x1000_0000, 1), 0, 0),
    (
        "byte taken, byte entered",
        Act::Take(0x1000_0000, 1),
        Act::Enter(66),
        0x200,
        0,
    ),
    (
        "byte entered, byte taken",
        Act::Enter(66),
        Act::Take(0x1000_0000, 1),
        0x200,
        0,
    ),
    (
        "no register",
        Act::Put(0x200_0004, 1, 1),
        Act::Take(0x1000_0000, 4),
        0x200,
        0,
    ),
];

// A board of two harts at time 0, where mtimecmp of hart 0 is 1, the priorities of the sources are 1 and 2, context 1
// enables source 1 and context 2 source 2, and the console, where a byte waits, the interrupt of input.
fn waiting(rt: &impl Abort, ram: &GuestRam, out: &mut OutBuf) -> Result<Board, Refused>
    ensures { IfOk result (λ board. hart_count board ≡ 2) }
{
    let mut board = Board::new(2);
    put(rt, &mut board, (0x200_4000, 8), 1, ram, out)?;
    put(rt, &mut board, (0xc00_0004, 4), 1, ram, out)?;
    put(rt, &mut board, (0xc00_0008, 4), 2, ram, out)?;
    put(rt, &mut board, (0xc00_2080, 4), 2, ram, out)?;
    put(rt, &mut board, (0xc00_2100, 4), 4, ram, out)?;
    put(rt, &mut board, (0x1000_0008, 4), 1, ram, out)?;
    let _ = board.push_input(65);
    Ok(board)
}

// Does an act; that no register is listed is no fault of a test.
fn carry_out(rt: &impl Abort, board: &mut Board, act: Act, ram: &GuestRam, out: &mut OutBuf)
    ensures { hart_count board.new ≡ hart_count board.old }
{
    match act {
        Act::Nothing => {}
        Act::Put(at, size, value) => {
            let _ = put(rt, board, (at, size), value, ram, out);
        }
        Act::Take(at, size) => {
            let _ = board.load(at, size);
        }
        Act::Tick => board.tick(),
        Act::Enter(byte) => {
            let _ = board.push_input(byte);
        }
    }
}

#[test]
fn signals_follow_each_change_of_a_device(rt: HostRuntime) -> Result<(), Fail> {
    let ram = GuestRam::new(rt.alloc(), 16)?;
    let mut out = OutBuf::new(rt.alloc(), 512)?;
    for &(name, first, second, of_zero, of_one) in &ACTS {
        let mut board = waiting(&rt, &ram, &mut out)?;
        carry_out(&rt, &mut board, first, &ram, &mut out);
        carry_out(&rt, &mut board, second, &ram, &mut out);
        assert_eq!(rt; (board.live(0), board.live(1)), (of_zero, of_one), "{name}");
    }
    Ok(())
}

#[test]
fn claims_of_a_hart_take_both_sources_of_the_console(rt: HostRuntime) -> Result<(), Fail> {
    let ram = GuestRam::new(rt.alloc(), 16)?;
    let mut out = OutBuf::new(rt.alloc(), 512)?;
    let mut board = Board::new(1);
    put(&rt, &mut board, (0xc00_0004, 4), 3, &ram, &mut out)?;
    put(&rt, &mut board, (0xc00_0008, 4), 3, &ram, &mut out)?;
    put(&rt, &mut board, (0xc00_2000, 4), 6, &ram, &mut out)?;
    put(&rt, &mut board, (0xc20_0000, 4), 7, &ram, &mut out)?;
    put(&rt, &mut board, (0x1000_0008, 4), 3, &ram, &mut out)?;
    assert!(rt; board.push_input(65));
    assert_eq!(rt; (board.console().levels(), board.live(0)), (6, 0));
    for want in [1u64, 2, 0] {
        assert_eq!(rt; board.load(0xc20_0004, 4), Ok(want));
    }
    put(&rt, &mut board, (0xc20_0004, 4), 1, &ram, &mut out)?;
    assert_eq!(rt; board.load(0xc00_1000, 4), Ok(2));
    assert_eq!(rt; board.load(0x1000_0000, 1), Ok(65));
    assert_eq!(rt; board.load(0xc00_1000, 4), Ok(0));
    Ok(())
}

#[test]
fn sixteen_input_bytes_wait(rt: HostRuntime) {
    let mut board = Board::new(1);
    for b in 0..16u8 {
        assert!(rt; board.push_input(b));
    }
    assert!(rt; !board.push_input(16));
    assert_eq!(rt; board.load(0x1000_0004, 4), Ok(0x1003));
}

#[test]
fn sends_give_all_bytes_or_none(rt: HostRuntime) -> Result<(), Fail> {
    let mut ram = GuestRam::new(rt.alloc(), 0x1100)?;
    assert!(rt; ram.has(0x8000_0ff0, 8));
    ram.write(0x8000_0ff0, 8, 0x0807_0605_0403_0201);
    let mut out = OutBuf::new(rt.alloc(), 512)?;
    // txaddr, txlen, how many bytes go out, and the first of them
    for (at, n, count, first) in [
        (0x8000_0ff0u64, 32u64, 32usize, 1u8),
        (0x8000_0ff0, 257, 0, 0),
        (0x8000_10f8, 8, 8, 0),
        (0x8000_10f8, 9, 0, 0),
    ] {
        let mut board = Board::new(1);
        out.clear();
        put(&rt, &mut board, (0x1000_0010, 8), at, &ram, &mut out)?;
        put(&rt, &mut board, (0x1000_0018, 4), n, &ram, &mut out)?;
        assert_eq!(rt; out.bytes().len(), count, "{n} bytes from {at}");
        assert_eq!(rt; out.bytes().first().copied().unwrap_or(0), first);
    }
    Ok(())
}

// What the window at `at` says once memory has this word there.
fn heard(rt: &impl Abort, ram: &mut GuestRam, at: u64, word: u64) -> HostSays {
    assert!(rt; at % 8 == 0);
    assert!(rt; ram.has(at, 8));
    ram.write(at, 8, word);
    assert!(rt; ram.has(at, 8));
    host_word(at, ram)
}

#[test]
fn words_of_the_host_window(rt: HostRuntime) -> Result<(), Fail> {
    let mut ram = GuestRam::new(rt.alloc(), 64)?;
    assert_eq!(rt; host_word(0, &ram), HostSays::Nothing);
    for (word, want) in [
        (0u64, HostSays::Nothing),
        (1, HostSays::End(0)),
        (3, HostSays::End(1)),
        (0x0000_ffff_ffff_ffff, HostSays::End(0x7fff_ffff_ffff)),
        (2, HostSays::Bad(2)),
        (0x0001_0000_0000_0001, HostSays::Bad(0x0001_0000_0000_0001)),
        (0x0101_0000_0000_0041, HostSays::Send(0x41)),
        (0x0101_0000_0000_0000, HostSays::Send(0)),
        (0x0101_ffff_ffff_ff42, HostSays::Send(0x42)),
        (0x0100_0000_0000_0041, HostSays::Bad(0x0100_0000_0000_0041)),
        (0x0201_0000_0000_0041, HostSays::Bad(0x0201_0000_0000_0041)),
        (u64::MAX, HostSays::Bad(u64::MAX)),
    ] {
        assert_eq!(rt; heard(&rt, &mut ram, BASE + 8, word), want, "word {word}");
        assert_eq!(rt; heard(&rt, &mut ram, BASE + 56, word), want, "word {word}");
    }
    Ok(())
}
