//! The machine and its turns.

ghost use Rattle.std.specs.Prelude.{◌≡◌, ◌%◌, ◌<◌, ◌≤◌, ◌+◌, if◌then◌else◌, [], All, IfErr, IfOk, IsFalse, IsTrue, length};
ghost use Rattle.board_bus.specs.Board.{reset_board, ticked};
ghost use Rattle.sim_config.specs.Ranges.{IsShape};
ghost use Rattle.hart_step.specs.Events.{IsEvent};
ghost use Rattle.hart_step.specs.Memory.{most_rom};
ghost use Rattle.hart_turns.specs.Boot.{answer_of, answered, booted, machine_at};
ghost use Rattle.hart_turns.specs.Fit.{IsFit};
ghost use Rattle.hart_turns.specs.Machine.{cleared, debug_machine, is_running, reset_machine};
ghost use Rattle.hart_turns.specs.Turn.{taken_after, takes, turned};

use crate::booting::{BootFault, MOST_STEPS};
use crate::events::{Dropped, EventList, Keeps, Kept};
use crate::stepping::Stepping;
use crate::surroundings::Surroundings;
use board_bus::Board;
use console::OutBuf;
use guest_ram::GuestRam;
use hart_step::{Core, Event};
use sim_config::Shape;
use std::alloc::{AllocError, Global};
use std::marker::Model;

/// The allocator has no room for the machine's parts.
pub type NoMemory = AllocError;

/// How a turn ended.
#[derive(Clone, Copy, PartialEq, Eq, Debug)]
pub enum TurnEnd {
    /// The machine goes on.
    Goes,
    /// The program has ended, with this code.
    Ended(u64),
    /// The host window has this word, which is not understood.
    BadHost(u64),
}

/// A machine of one to eight harts, with its devices.
///
/// Contracts see it as a `MachineView`: the machine, the console bytes of its last turn or boot, and
/// the events of its last turn, of which there are none after [`Machine::turn_unseen`] and
/// [`Machine::boot`]. Neither a turn nor a boot takes memory.
#[derive(Drop)]
pub struct Machine {
    shape: Shape,
    stepping: Stepping,
    taken: u64,
}

impl Model for Machine {
    ghost use Rattle.std.specs.Prelude.{◌≡◌, ◌≤◌, ◌+◌, ◌*◌};
    ghost use Rattle.hart_turns.specs.Kept.{IsMachine};
    ghost use Rattle.hart_turns.specs.Machine.{MachineView};

    ghost Value = { MachineView };

    ghost view = { λ m. record {
      machine = record { shape = m.shape; core = m.stepping.core; board = m.stepping.outside.board; taken = m.taken };
      console = m.stepping.outside.output.bytes;
      events = m.stepping.events.items;
    } };

    ghost invariant = { λ m. IsMachine m.shape m.stepping };
}

impl Machine {
    /// A machine of this shape at reset, over memory of the shape's length: its harts begin at
    /// `entry`, which is even.
    ///
    /// # Errors
    ///
    /// `NoMemory` where the allocator has no room for its parts.
    pub fn reset(
        alloc: Global,
        shape: Shape,
        ram: GuestRam,
        entry: u64,
    ) -> Result<Machine, NoMemory>
        requires shape { IsShape shape }
        requires length { length ram ≡ shape.ram }
        requires even { entry % 2 ≡ 0 }
        ensures machine { IfOk result (λ m. m.machine ≡ reset_machine shape ram entry) }
        ensures empty { IfOk result (λ m. (m.console ≡ []) × (m.events ≡ [])) }
    {
        let core = Core::new(alloc, shape.harts, ram, entry)?;
        Machine::of_parts(alloc, shape, core, 0)
    }

    /// A machine of this shape at reset in debug mode, over memory of the shape's length: its harts
    /// begin to execute this boot ROM, which has at most 131,072 bytes and stands at 0x10000. So many
    /// input bytes were taken, at most 1,000,000,000,000.
    ///
    /// # Errors
    ///
    /// `NoMemory` where the allocator has no room for its parts.
    pub fn reset_debug(
        alloc: Global,
        shape: Shape,
        ram: GuestRam,
        rom: Vec<u8>,
        taken: u64,
    ) -> Result<Machine, NoMemory>
        requires shape { IsShape shape }
        requires length { length ram ≡ shape.ram }
        requires room { length rom.items ≤ most_rom }
        requires taken { taken ≤ 1_000_000_000_000 }
        ensures machine { IfOk result (λ m. m.machine ≡ debug_machine shape taken ram rom.items) }
        ensures empty { IfOk result (λ m. (m.console ≡ []) × (m.events ≡ [])) }
    {
        let core = Core::new_debug(alloc, shape.harts, ram, rom)?;
        Machine::of_parts(alloc, shape, core, taken)
    }

    /// A machine of this shape with these harts and with its devices at reset.
    #[tactic(auto, using(crate::proofs::Rooms::steps_of_turn))]
    fn of_parts(alloc: Global, shape: Shape, core: Core, taken: u64) -> Result<Machine, NoMemory>
        requires shape { IsShape shape }
        requires harts { length core.harts ≡ shape.harts }
        requires ram { length core.ram ≡ shape.ram }
        ensures machine { IfOk result (λ m. m.machine ≡ record { shape = shape; core = core; board = reset_board shape.harts; taken = taken }) }
        ensures empty { IfOk result (λ m. (m.console ≡ []) × (m.events ≡ [])) }
    {
        let harts = u64::from(shape.harts);
        let events = usize::from(shape.harts) * usize::from(shape.slice) + 1;
        let stepping = Stepping {
            core,
            outside: Surroundings {
                board: Board::new(shape.harts),
                output: OutBuf::new(alloc, 256 * (harts * u64::from(MOST_STEPS)) + 1)?,
            },
            events: EventList::new(alloc, events)?,
        };
        Ok(Machine {
            shape,
            stepping,
            taken,
        })
    }

    /// The machine is well formed.
    pub fn see_fit(&self)
        ensures { IsFit self.now.machine }
    {
        self.stepping.core.see_fit();
        self.stepping.outside.board.see_fit();
    }

    /// Whether no hart is in debug mode.
    pub fn running(&self) -> bool
        ensures { result ≡ is_running self.now.machine }
    {
        self.stepping.core.in_debug().is_none()
    }

    /// One turn, in which an input byte is offered, or none. What is kept of the last turn gives way
    /// to this one's console bytes and events. A caller boots a machine that is not running first;
    /// this call does not: it makes a turn in which each hart steps, those in debug mode too.
    pub fn turn(&mut self, input: Option<u8>) -> TurnEnd
        requires { self.old.machine.taken < 2_000_000_000_000 }
        ensures end { result ≡ (turned self.old.machine input).end }
        ensures machine { self.new.machine ≡ (turned self.old.machine input).machine }
        ensures console { self.new.console ≡ (turned self.old.machine input).console }
        ensures events { self.new.events ≡ (turned self.old.machine input).events }
        ensures grows { self.old.machine.taken ≤ self.new.machine.taken }
        ensures at_most_one { self.new.machine.taken ≤ self.old.machine.taken + 1 }
    {
        self.turn_of::<Kept>(input)
    }

    /// The same turn, of which no events are kept: a turn that nobody looks at is faster so.
    pub fn turn_unseen(&mut self, input: Option<u8>) -> TurnEnd
        requires { self.old.machine.taken < 2_000_000_000_000 }
        ensures end { result ≡ (turned self.old.machine input).end }
        ensures machine { self.new.machine ≡ (turned self.old.machine input).machine }
        ensures console { self.new.console ≡ (turned self.old.machine input).console }
        ensures events { self.new.events ≡ [] }
        ensures grows { self.old.machine.taken ≤ self.new.machine.taken }
        ensures at_most_one { self.new.machine.taken ≤ self.old.machine.taken + 1 }
    {
        self.turn_of::<Dropped>(input)
    }

    /// One turn, whose events are kept or not.
    fn turn_of<K: Keeps>(&mut self, input: Option<u8>) -> TurnEnd
        requires { self.old.machine.taken < 2_000_000_000_000 }
        ensures end { result ≡ (turned self.old.machine input).end }
        ensures machine { self.new.machine ≡ (turned self.old.machine input).machine }
        ensures console { self.new.console ≡ (turned self.old.machine input).console }
        ensures events { self.new.events ≡ (if K.keeps then (turned self.old.machine input).events else []) }
        ensures grows { self.old.machine.taken ≤ self.new.machine.taken }
        ensures at_most_one { self.new.machine.taken ≤ self.old.machine.taken + 1 }
    {
        let shape = self.shape;
        let end = self
            .stepping
            .turn::<K>(shape.harts, shape.slice, shape.tohost);
        match end {
            TurnEnd::Goes => self.close(input),
            TurnEnd::Ended(_) => {}
            TurnEnd::BadHost(_) => {}
        }
        end
    }

    /// Takes the offered byte where there is room, and lets time pass.
    fn close(&mut self, input: Option<u8>)
        requires { self.old.machine.taken < 2_000_000_000_000 }
        ensures machine { self.new.machine ≡ record self.old.machine {
          board = ticked (takes input self.old.machine.board);
          taken = taken_after input self.old.machine.board self.old.machine.taken;
        } }
        ensures console { self.new.console ≡ self.old.console }
        ensures events { self.new.events ≡ self.old.events }
        ensures grows { self.old.machine.taken ≤ self.new.machine.taken }
        ensures at_most_one { self.new.machine.taken ≤ self.old.machine.taken + 1 }
    {
        if let Some(byte) = input {
            if self.stepping.outside.board.push_input(byte) {
                self.taken += 1;
            }
        }
        self.stepping.outside.board.tick();
    }

    /// Executes the boot ROM: each hart in debug mode, in order of number, steps until it leaves that
    /// mode. Answers how many steps were made. What is kept of the last turn gives way to the console
    /// bytes of these steps, also where the boot is refused, and to no events. No turn passes.
    ///
    /// # Errors
    ///
    /// `Trap` at the first exception, and `Long` for the first hart that is still in debug mode after
    /// 1,024 of its steps. The machine is then as the steps made left it, and not running.
    pub fn boot(&mut self) -> Result<u32, BootFault>
        ensures answer { result ≡ answer_of (booted self.old.machine) }
        ensures left { self.new ≡ record {
          machine = machine_at self.old.machine (booted self.old.machine).left;
          console = (booted self.old.machine).left.console;
          events = [];
        } }
        ensures running { IfOk result (λ _. IsTrue (is_running self.new.machine)) }
        ensures held { IfErr result (λ _. IsFalse (is_running self.new.machine)) }
    {
        self.stepping.begin();
        let mut steps = 0;
        let fault = self.stepping.boot(self.shape.harts, &mut steps);
        self.stepping.events.clear();
        answer(steps, fault)
    }

    /// The console bytes of the last turn or boot.
    pub fn output(&self) -> &[u8]
        ensures { result.now ≡ self.now.console }
    {
        self.stepping.outside.output.bytes()
    }

    /// The events of the last turn, in order; none after [`Machine::turn_unseen`] and
    /// [`Machine::boot`].
    pub fn events(&self) -> &[Event]
        ensures events { result.now ≡ self.now.events }
        ensures formed { All IsEvent result.now }
    {
        self.stepping.events.as_slice()
    }

    /// How many input bytes were taken.
    pub fn taken(&self) -> u64
        ensures { result ≡ self.now.machine.taken }
    {
        self.taken
    }

    /// The harts and their memory.
    pub fn core(&self) -> &Core
        ensures { result.now ≡ self.now.machine.core }
    {
        &self.stepping.core
    }

    /// The harts and their memory, without the rest of the machine.
    pub fn into_core(self) -> Core
        ensures { result ≡ self.machine.core }
    {
        self.stepping.core
    }

    /// The devices.
    pub fn board(&self) -> &Board
        ensures { result.now ≡ self.now.machine.board }
    {
        &self.stepping.outside.board
    }

    /// The machine's shape.
    pub fn shape(&self) -> Shape
        ensures value { result ≡ self.now.machine.shape }
        ensures fit { IsShape result }
    {
        self.shape
    }

    /// Drops every reservation.
    pub fn clear_reservations(&mut self)
        ensures { self.new ≡ record self.old { machine = cleared self.old.machine } }
    {
        self.stepping.core.clear_reservations();
    }
}

/// What a boot of so many steps answers.
fn answer(steps: u32, fault: Option<BootFault>) -> Result<u32, BootFault>
    ensures { result ≡ answered steps fault }
{
    match fault {
        None => Ok(steps),
        Some(fault) => Err(fault),
    }
}
