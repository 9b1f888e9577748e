//! The registers that the board looks at, beside `mie`.
#![tactic(auto, unfolding(csr_file::specs::Legal::keeps_value, csr_file::specs::Legal::is_kept_number, csr_file::specs::Legal::kept_numbers, csr_file::specs::Kept::kept_in, csr_file::specs::Kept::kept_value, csr_file::specs::Numbers::is_listed))]

ghost use Rattle.std.specs.Prelude.{◌≡◌};

use csr_file::CsrFile;
use csr_file::numbers::{MCYCLE, MIP};

pub(crate) fn mcycle(csrs: &CsrFile) -> u64
    ensures { result ≡ csrs.now.kept.mcycle }
{
    csrs.kept(MCYCLE)
}

pub(crate) fn mip(csrs: &CsrFile) -> u64
    ensures { result ≡ csrs.now.kept.mip }
{
    csrs.kept(MIP)
}
