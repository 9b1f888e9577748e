//! What stands around the harts: the devices, and the buffer of the console's output.

ghost use Rattle.std.specs.Prelude.{◌≡◌, ◌<◌};
ghost use Rattle.csr_file.specs.View.{IsGiven};
ghost use Rattle.board_bus.specs.Board.{hart_count};
ghost use Rattle.hart_turns.specs.Gives.{board_volatile, board_word};

use crate::registers::{mcycle, mip};
use board_bus::Board;
use console::OutBuf;
use csr_file::CsrFile;
use csr_file::numbers::{CYCLE, MCYCLE, TIME};
use guest_ram::GuestRam;
use hart_step::Answers;
use rv_alu::Mode;
use trap_rules::{mie, pick};

/// The devices, and the console bytes that they have sent in this turn.
#[derive(Drop)]
pub(crate) struct Surroundings {
    pub(crate) board: Board,
    pub(crate) output: OutBuf,
}

impl Answers for Surroundings {
    ghost use Rattle.std.specs.Prelude.{◌<◌, ◌≤◌};
    ghost use Rattle.console.specs.Access.{most_sent};
    ghost use Rattle.console.specs.Output.{spare_of};
    ghost use Rattle.board_bus.specs.Board.{hart_count};
    ghost use Rattle.hart_turns.specs.Kept.{outside_after};
    ghost use Rattle.hart_turns.specs.Gives.{board_says};

    ghost ready = { λ s h. (h < hart_count s.board) × (most_sent ≤ spare_of s.output) };

    ghost says = { λ s h. board_says s.board h };

    ghost after = { λ s h ram access. outside_after s ram access };

    #[tactic(auto, using(crate::proofs::Quiet::nothing_enabled, crate::proofs::Quiet::nothing_pending), unfolding(csr_file::specs::View::volatile_bits))]
    #[inline(always)]
    fn interrupt(&mut self, hart: u8, csrs: &CsrFile, mode: Mode) -> Option<u8> {
        // the devices' signals need not be looked at where none of them can matter
        if mie(csrs) == 0 {
            return None;
        }
        let live = self.board.live(hart);
        if (mip(csrs) | live) & mie(csrs) == 0 {
            return None;
        }
        pick(csrs, mode, live)
    }

    #[inline(never)]
    fn device_load(&mut self, _hart: u8, at: u64, size: u8) -> u64 {
        match self.board.load(at, size) {
            Ok(value) => value,
            Err(_) => 0,
        }
    }

    #[inline(never)]
    fn device_store(&mut self, _hart: u8, at: u64, size: u8, value: u64, ram: &GuestRam) {
        let _ = self.board.store(at, size, value, ram, &mut self.output);
    }

    #[inline(never)]
    fn volatile(&mut self, hart: u8, num: u16, csrs: &CsrFile) -> u64 {
        volatile_word(&self.board, hart, num, csrs)
    }

    fn sc_may_win(&mut self, _hart: u8) -> bool {
        true
    }
}

/// What a volatile register reads as.
#[tactic(auto, using(csr_file::proofs::LegalLaws::and_twice))]
#[inline(never)]
fn volatile_word(board: &Board, hart: u8, num: u16, csrs: &CsrFile) -> u64
    requires { hart < hart_count board.now }
    ensures value { result ≡ board_volatile board.now hart num csrs.now }
    ensures within { IsGiven num result }
{
    word_behind(board, hart, num, csrs) & CsrFile::volatile_mask(num)
}

/// The word behind a volatile register.
fn word_behind(board: &Board, hart: u8, num: u16, csrs: &CsrFile) -> u64
    requires { hart < hart_count board.now }
    ensures { result ≡ board_word board.now hart num csrs.now }
{
    match num {
        TIME => board.time(),
        CYCLE | MCYCLE => mcycle(csrs),
        _ => board.live(hart),
    }
}
