//! The judge of a stream.

ghost use Rattle.std.specs.Prelude.{◌≡◌, ◌<◌, ◌≤◌, ◌++◌, ◌∷◌, [], take, ℕ, List, IsFalse, IsTrue, false, is_none, true, length};
ghost use Rattle.hart_step.specs.Harts.{CoreState, lowest_in_debug};
ghost use Rattle.cosim_check.specs.Lines.{newline};
ghost use Rattle.cosim_check.specs.Places.{IsPlain, next_place, place_of, places, verdict_at};
ghost use Rattle.cosim_check.specs.Standing.{HasWindow, StandsFor};
ghost use Rattle.cosim_check.specs.Verdicts.{IsFinal, verdict_of};

use crate::line::{judge_line, long_column};
use crate::verdict::Verdict;
use commit_log::LineBuf;
use hart_step::{Core, Event};
use memchr::memchr;
use std::marker::Model;

/// A judge of the commit stream of another core, which takes the stream in pieces.
///
/// Contracts see it as a `JudgeState`.
#[derive(Drop)]
pub struct Judge {
    core: Core,
    /// The place for what a step shows.
    shown: Event,
    /// The front of a line that has come in earlier pieces.
    line: LineBuf,
    tohost: u64,
    most: u64,
    passed: u64,
    end: Option<Verdict>,
    finished: bool,
}

impl Model for Judge {
    ghost use Rattle.cosim_check.specs.Standing.{IsKept, JudgeState, settled};

    ghost Value = { JudgeState };

    ghost view = { λ j. record { core = j.core; front = j.line; tohost = j.tohost; most = j.most; verdict = settled j.passed j.end; finished = j.finished } };

    ghost invariant = { λ j. IsKept j.core j.tohost j.most j.passed j.end };
}

impl Judge {
    /// A judge of a stream that begins with this core, no hart of which is in debug mode. `tohost` is
    /// the address of the host window, a multiple of 8 whose 8 bytes lie in memory, or 0 where there is
    /// none; so many records may pass at the `most`.
    pub fn new(core: Core, tohost: u64, most: u64) -> Judge
        requires window { HasWindow tohost core.ram }
        requires running { IsTrue (is_none (lowest_in_debug core)) }
        ensures stands { StandsFor result core [] }
        ensures tohost { result.tohost ≡ tohost }
        ensures most { result.most ≡ most }
    {
        Judge {
            core,
            shown: Event::Host { word: 0 },
            line: LineBuf::new(),
            tohost,
            most,
            passed: 0,
            end: None,
            finished: false,
        }
    }

    /// Takes the next bytes of the stream, and gives the verdict on all so far. Once a verdict other
    /// than `Passing` was given, or the stream has ended, nothing is taken.
    pub fn feed(&mut self, piece: &[u8]) -> Verdict
        ensures answer { (core : CoreState) (bytes : List ℕ) → StandsFor self.old core bytes → result ≡ verdict_of core self.old.tohost self.old.most (bytes ++ piece.now) false }
        ensures stands { (core : CoreState) (bytes : List ℕ) → StandsFor self.old core bytes → StandsFor self.new core (bytes ++ piece.now) }
        ensures tohost { self.new.tohost ≡ self.old.tohost }
        ensures most { self.new.most ≡ self.old.most }
        ensures verdict { result ≡ self.new.verdict }
        ensures settled { IsFinal self.old.verdict → self.new ≡ self.old }
        ensures over { IsTrue self.old.finished → self.new ≡ self.old }
    {
        if self.finished {
            return self.verdict();
        }
        if self.end.is_some() {
            return self.verdict();
        }
        self.take_lines(piece);
        self.verdict()
    }

    /// Ends the stream: a last line that has no newline is judged, and the verdict stays.
    pub fn finish(&mut self) -> Verdict
        ensures answer { (core : CoreState) (bytes : List ℕ) → StandsFor self.old core bytes → result ≡ verdict_of core self.old.tohost self.old.most bytes true }
        ensures verdict { result ≡ self.new.verdict }
        ensures stays { IsFinal self.old.verdict → result ≡ self.old.verdict }
        ensures finished { IsTrue self.new.finished }
        ensures over { IsTrue self.old.finished → self.new ≡ self.old }
    {
        if self.finished {
            return self.verdict();
        }
        self.end_line();
        self.finished = true;
        self.verdict()
    }

    /// The verdict on the bytes so far.
    fn verdict(&self) -> Verdict
        ensures { result ≡ self.now.verdict }
    {
        match self.end {
            Some(verdict) => verdict,
            None => Verdict::Passing(self.passed),
        }
    }

    /// Judges the line that no newline ended.
    fn end_line(&mut self)
        ensures verdict { self.new.verdict ≡ verdict_at self.old.tohost true (place_of self.old) }
        ensures settled { IsFinal self.old.verdict → self.new ≡ self.old }
    {
        if self.end.is_some() {
            return;
        }
        if self.passed >= self.most {
            return;
        }
        if self.line.bytes().is_empty() {
            return;
        }
        self.end = judge_line(
            &mut self.core,
            self.tohost,
            self.passed,
            self.line.bytes(),
            &mut self.shown,
        );
        if self.end.is_none() {
            self.passed += 1;
        }
    }

    /// Takes these bytes line by line.
    fn take_lines(&mut self, piece: &[u8])
        ensures place { place_of self.new ≡ places self.old.tohost (place_of self.old) piece.now }
        ensures tohost { self.new.tohost ≡ self.old.tohost }
        ensures most { self.new.most ≡ self.old.most }
        ensures finished { self.new.finished ≡ self.old.finished }
    {
        let mut done: usize = 0;
        'lines: while done < piece.len() {
            done += self.take_line(&piece[done..]);
        }
    }

    /// Takes the first line of these bytes with its newline, or all of them where no line ends; gives
    /// how many it took.
    fn take_line(&mut self, rest: &[u8]) -> usize
        requires some { 0 < length rest.now }
        ensures some { 0 < result }
        ensures within { result ≤ length rest.now }
        ensures place { place_of self.new ≡ places self.old.tohost (place_of self.old) (take result rest.now) }
        ensures tohost { self.new.tohost ≡ self.old.tohost }
        ensures most { self.new.most ≡ self.old.most }
        ensures finished { self.new.finished ≡ self.old.finished }
    {
        match memchr(b'\n', rest) {
            Some(i) => {
                self.take_whole(&rest[..i]);
                i + 1
            }
            None => {
                self.take_bytes(rest);
                rest.len()
            }
        }
    }

    /// Takes a line and its newline. Where no front of it has come before, it is judged where it lies.
    fn take_whole(&mut self, line: &[u8])
        requires plain { IsPlain line.now }
        ensures place { place_of self.new ≡ places self.old.tohost (place_of self.old) (line.now ++ newline ∷ []) }
        ensures tohost { self.new.tohost ≡ self.old.tohost }
        ensures most { self.new.most ≡ self.old.most }
        ensures finished { self.new.finished ≡ self.old.finished }
    {
        if self.end.is_none()
            && self.passed < self.most
            && self.line.bytes().is_empty()
            && line.len() < 256
        {
            self.end = judge_line(
                &mut self.core,
                self.tohost,
                self.passed,
                line,
                &mut self.shown,
            );
            if self.end.is_none() {
                self.passed += 1;
            }
        } else {
            self.take_bytes(line);
            self.take_byte(b'\n');
        }
    }

    /// Takes these bytes one by one.
    fn take_bytes(&mut self, piece: &[u8])
        ensures place { place_of self.new ≡ places self.old.tohost (place_of self.old) piece.now }
        ensures tohost { self.new.tohost ≡ self.old.tohost }
        ensures most { self.new.most ≡ self.old.most }
        ensures finished { self.new.finished ≡ self.old.finished }
    {
        for &b in piece {
            self.take_byte(b);
        }
    }

    /// Takes one byte.
    fn take_byte(&mut self, b: u8)
        ensures place { place_of self.new ≡ next_place self.old.tohost b (place_of self.old) }
        ensures tohost { self.new.tohost ≡ self.old.tohost }
        ensures most { self.new.most ≡ self.old.most }
        ensures finished { self.new.finished ≡ self.old.finished }
    {
        if self.end.is_some() {
            return;
        }
        if self.passed >= self.most {
            self.end = Some(Verdict::TooMany(self.passed));
            return;
        }
        if b == b'\n' {
            self.end = judge_line(
                &mut self.core,
                self.tohost,
                self.passed,
                self.line.bytes(),
                &mut self.shown,
            );
            self.line.clear();
            if self.end.is_none() {
                self.passed += 1;
            }
            return;
        }
        if !self.line.push(b) {
            self.end = Some(Verdict::BadLine {
                n: self.passed,
                column: long_column(self.line.bytes()),
            });
        }
    }
}
