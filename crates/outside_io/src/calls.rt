//! The calls of an object in memory: their numbers, and which of them are to fail.

ghost use Rattle.std.specs.Prelude.{◌≡◌, ◌≤◌, ◌↔◌, [], ◌∷◌, ◌++◌, Contains, IsTrue, OnOk, OnErr, IsErrOf};
ghost use Rattle.outside_io.specs.declared.OutFault.TheVariants.{Failed, NoMemory};
ghost use Rattle.outside_io.specs.Causes.{HasCause, raised};

use crate::OutFault;
use std::alloc::Global;

/// The numbers of the calls that are to fail, and how many calls were made.
///
/// Calls are numbered from 1. The number stays at 2^64 - 1: that call and each later one have it.
#[derive(Drop)]
pub(crate) struct Calls {
    pub(crate) listed: Vec<u64>,
    pub(crate) made: u64,
}

/// Counts one fault, and answers it.
pub(crate) fn count_fault(faults: &mut u64) -> OutFault
    ensures answer { result ≡ OutFault.Failed }
    ensures count { faults.new ≡ raised faults.old }
    ensures later { faults.old ≤ faults.new }
{
    *faults = faults.saturating_add(1);
    OutFault::Failed
}

impl Calls {
    /// No call is listed, and none was made.
    pub(crate) fn new(alloc: Global) -> Self
        ensures listed { result.listed.items ≡ [] }
        ensures made { result.made ≡ 0 }
    {
        Calls {
            listed: Vec::new(alloc),
            made: 0,
        }
    }

    /// Lists the number of one more call that is to fail. After `NoMemory` nothing has changed.
    pub(crate) fn fail_at(&mut self, call: u64) -> Result<(), OutFault>
        ensures ok { OnOk result (self.new.listed.items ≡ self.old.listed.items ++ call ∷ []) }
        ensures err { OnErr result (self.new.listed.items ≡ self.old.listed.items) }
        ensures made { self.new.made ≡ self.old.made }
        ensures never_failed { IsErrOf result Failed → ⊥ }
    {
        match self.listed.push(call) {
            Ok(()) => Ok(()),
            Err(_) => Err(OutFault::NoMemory),
        }
    }

    /// Whether this number is listed.
    fn is_listed(&self, number: u64) -> bool
        ensures { IsTrue result ↔ Contains self.now.listed.items number }
    {
        self.listed.contains(&number)
    }

    /// Numbers the next call, and fails it where its number is listed; the fault is counted.
    pub(crate) fn next(&mut self, faults: &mut u64) -> Result<(), OutFault>
        ensures fails { IsErrOf result Failed ↔ Contains self.old.listed.items (raised self.old.made) }
        ensures never_starved { IsErrOf result NoMemory → ⊥ }
        ensures listed { self.new.listed.items ≡ self.old.listed.items }
        ensures made { self.new.made ≡ raised self.old.made }
        ensures cause { HasCause faults.old faults.new result }
    {
        self.made = self.made.saturating_add(1);
        if self.is_listed(self.made) {
            Err(count_fault(faults))
        } else {
            Ok(())
        }
    }
}
