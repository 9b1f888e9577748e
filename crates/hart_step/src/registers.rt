//! The register that a step looks at by name, beside `mstatus`.
#![tactic(auto, unfolding(csr_file::specs::Legal::keeps_value, csr_file::specs::Legal::is_kept_number, csr_file::specs::Legal::kept_numbers, csr_file::specs::Kept::kept_in, csr_file::specs::Kept::kept_value, csr_file::specs::Numbers::is_listed))]

ghost use Rattle.std.specs.Prelude.{◌≡◌};

use csr_file::CsrFile;
use csr_file::numbers::SATP;

pub(crate) fn satp(csrs: &CsrFile) -> u64
    ensures { result ≡ csrs.now.kept.satp }
{
    csrs.kept(SATP)
}
