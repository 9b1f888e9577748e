//! The three objects of a call.

ghost use Rattle.std.specs.Prelude.{◌≡◌};
ghost use Rattle.outside_acts.specs.Calls.{stop_by};
ghost use Rattle.outside_acts.specs.World.{counts};

use crate::{Outside, Stop};
use outside_io::{Files, OutFault, Sink, Source};

/// Files, input and console that a call was given.
#[derive(Drop)]
pub struct Objects<'f, 'i, 'o, F, I, O> {
    /// The files.
    pub files: &'f mut F,
    /// The input.
    pub input: &'i mut I,
    /// The console.
    pub out: &'o mut O,
}

/// The stop of a fault.
fn stop_of(fault: OutFault, failed: Stop) -> Stop
    ensures { result ≡ stop_by fault failed }
{
    match fault {
        OutFault::Failed => failed,
        OutFault::NoMemory => Stop::NoMemory,
    }
}

impl<'f, 'i, 'o, F: Files, I: Source, O: Sink> Outside for Objects<'f, 'i, 'o, F, I, O> {
    ghost world = { λ a. record {
      objects = (a.files.ghost_name, a.input.ghost_name, a.out.ghost_name);
      held = F.held a.files.now;
      left = I.left a.input.now;
      written = O.written a.out.now;
      counts = counts (F.read_faults a.files.now) (F.write_faults a.files.now) (I.faults a.input.now) (O.faults a.out.now);
    } };

    ghost quiet = { λ a. F.quiet a.files.now × I.quiet a.input.now × O.quiet a.out.now };

    fn read(&mut self, buf: &mut [u8]) -> Result<usize, Stop> {
        match self.input.read(buf) {
            Ok(count) => Ok(count),
            Err(_) => Err(Stop::Input),
        }
    }

    #[tactic(auto, using(crate::proofs::OneAct::send_stops))]
    fn send(&mut self, piece: &[u8]) -> Result<(), Stop> {
        match self.out.write(piece) {
            Ok(()) => Ok(()),
            Err(fault) => Err(stop_of(fault, Stop::Out)),
        }
    }

    #[tactic(auto, using(crate::proofs::OneAct::start_stops))]
    fn start(&mut self, name: &str) -> Result<(), Stop> {
        match self.files.start(name) {
            Ok(()) => Ok(()),
            Err(fault) => Err(stop_of(fault, Stop::Files)),
        }
    }

    #[tactic(auto, using(crate::proofs::OneAct::add_stops))]
    fn append(&mut self, name: &str, piece: &[u8]) -> Result<(), Stop> {
        match self.files.append(name, piece) {
            Ok(()) => Ok(()),
            Err(fault) => Err(stop_of(fault, Stop::Files)),
        }
    }
}
