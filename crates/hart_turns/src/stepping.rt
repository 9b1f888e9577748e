//! A machine within a turn or a boot.

ghost use Rattle.std.specs.Prelude.{◌≡◌, ◌⊎◌, ◌+◌, ◌*◌, ◌<◌, ◌≤◌, ◌%◌, [], All, length};
ghost use Rattle.guest_ram.specs.Bytes.{HasPart};
ghost use Rattle.board_bus.specs.Board.{hart_count};
ghost use Rattle.board_bus.specs.Window.{host_says};
ghost use Rattle.board_bus.specs.declared.window.HostSays.TheVariants.{Send};
ghost use Rattle.hart_step.specs.Events.{IsEvent};
ghost use Rattle.hart_turns.specs.Kept.{AfterSteps, HasRoom, KeepsForm, StaysFormed, kept, progress_of};
ghost use Rattle.hart_turns.specs.Turn.{after_window, all_steps, end_of, hart_steps, looked_after, one_step, window_after};

use crate::events::{EventList, Keeps};
use crate::machine::TurnEnd;
use crate::surroundings::Surroundings;
use board_bus::{HostSays, access_laws, host_word};
use hart_step::{Core, Event};

/// The harts, what stands around them, and the events of this turn.
#[derive(Drop)]
pub(crate) struct Stepping {
    pub(crate) core: Core,
    pub(crate) outside: Surroundings,
    pub(crate) events: EventList,
}

impl Stepping {
    /// Begins a turn: no byte was sent and nothing has happened in it.
    pub(crate) fn begin(&mut self)
        ensures progress { progress_of self.new ≡ record (progress_of self.old) { console = []; events = [] } }
        ensures form { KeepsForm self.old self.new }
        ensures formed { All IsEvent self.new.events.items }
    {
        self.outside.output.clear();
        self.events.clear();
    }

    /// One step of hart `h`, whose event is kept or not.
    #[inline(always)]
    pub(crate) fn one_step<K: Keeps>(&mut self, h: u8)
        requires hart { h < length self.old.core.harts }
        requires devices { hart_count self.old.outside.board ≡ length self.old.core.harts }
        requires room { HasRoom self.old 1 }
        ensures steps { AfterSteps K.keeps self.old self.new (one_step h (progress_of self.old)) 1 }
        ensures formed { StaysFormed self.old self.new }
    {
        access_laws();
        K::step(&mut self.events, &mut self.core, h, &mut self.outside);
    }

    /// So many steps of hart `h`.
    pub(crate) fn hart_steps<K: Keeps>(&mut self, h: u8, steps: u16)
        requires hart { h < length self.old.core.harts }
        requires devices { hart_count self.old.outside.board ≡ length self.old.core.harts }
        requires room { HasRoom self.old steps }
        ensures steps { AfterSteps K.keeps self.old self.new (hart_steps h steps (progress_of self.old)) steps }
        ensures formed { StaysFormed self.old self.new }
    {
        for _ in 0..steps {
            self.one_step::<K>(h);
        }
    }

    /// So many steps of each of the first harts, in order of number.
    pub(crate) fn all_steps<K: Keeps>(&mut self, harts: u8, steps: u16)
        requires harts { harts ≤ length self.old.core.harts }
        requires devices { hart_count self.old.outside.board ≡ length self.old.core.harts }
        requires room { HasRoom self.old (harts * steps) }
        ensures steps { AfterSteps K.keeps self.old self.new (all_steps harts steps (progress_of self.old)) (harts * steps) }
        ensures formed { StaysFormed self.old self.new }
    {
        for h in 0..harts {
            self.hart_steps::<K>(h, steps);
        }
    }

    /// The steps of a turn, of so many harts, and the look at the host window at `tohost`. The events of the
    /// turn before are dropped, and those of this one are kept or not.
    pub(crate) fn turn<K: Keeps>(&mut self, harts: u8, steps: u16, tohost: u64) -> TurnEnd
        requires harts { harts ≤ length self.old.core.harts }
        requires devices { hart_count self.old.outside.board ≡ length self.old.core.harts }
        requires window { (tohost ≡ 0) ⊎ ((tohost % 8 ≡ 0) × HasPart self.old.core.ram tohost 8) }
        requires console { 256 * (harts * steps) + 1 ≤ self.old.outside.output.room }
        requires events { harts * steps + 1 ≤ self.old.events.room }
        ensures end { result ≡ end_of (window_after harts steps tohost (progress_of self.old)) }
        ensures progress { progress_of self.new ≡ kept K.keeps [] (looked_after harts steps tohost (progress_of self.old)) }
        ensures form { KeepsForm self.old self.new }
        ensures formed { All IsEvent self.new.events.items }
    {
        self.begin();
        self.all_steps::<K>(harts, steps);
        self.look::<K>(tohost)
    }

    /// Looks at the host window, which is off at 0, and answers how the turn ends by what it says. A
    /// word that sends a byte is taken.
    #[tactic(auto, unfolding(board_bus::specs::Window::host_says))]
    pub(crate) fn look<K: Keeps>(&mut self, tohost: u64) -> TurnEnd
        requires window { (tohost ≡ 0) ⊎ ((tohost % 8 ≡ 0) × HasPart self.old.core.ram tohost 8) }
        requires room { HasRoom self.old 0 }
        ensures end { result ≡ end_of (host_says tohost self.old.core.ram) }
        ensures progress { progress_of self.new ≡ kept K.keeps self.old.events.items
            (after_window tohost (host_says tohost self.old.core.ram) (progress_of self.old)) }
        ensures form { KeepsForm self.old self.new }
        ensures formed { StaysFormed self.old self.new }
    {
        if tohost == 0 {
            return TurnEnd::Goes;
        }
        match host_word(tohost, self.core.ram()) {
            HostSays::Nothing => TurnEnd::Goes,
            HostSays::End(code) => TurnEnd::Ended(code),
            HostSays::Bad(word) => TurnEnd::BadHost(word),
            HostSays::Send(byte) => {
                self.take_word::<K>(tohost, byte);
                TurnEnd::Goes
            }
        }
    }

    /// Takes the word at `tohost`, which sends a byte.
    fn take_word<K: Keeps>(&mut self, tohost: u64, byte: u8)
        requires aligned { tohost % 8 ≡ 0 }
        requires inside { HasPart self.old.core.ram tohost 8 }
        requires room { HasRoom self.old 0 }
        ensures progress { progress_of self.new
            ≡ kept K.keeps self.old.events.items (after_window tohost (Send byte) (progress_of self.old)) }
        ensures form { KeepsForm self.old self.new }
        ensures formed { StaysFormed self.old self.new }
    {
        let word = self.core.ram().read(tohost, 8);
        self.core.host_clear(tohost);
        self.outside.output.push(byte);
        K::push(&mut self.events, Event::Host { word });
    }
}
