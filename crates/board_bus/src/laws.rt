//! Laws of the definitions, each as the contract of a call that does nothing.

ghost use Rattle.board_bus.specs.Laws.{DrivesFourBits, LoadKeepsHarts, LoadsFit, SendsAtMost, StoreKeepsHarts};

/// The devices drive no bits of `mip` but 3, 7, 9 and 11.
pub fn drives_four_bits()
    ensures { DrivesFourBits }
{}

/// Loads and stores leave the number of harts as it is, and a store sends no more bytes than the
/// console's longest send has.
pub fn access_laws()
    ensures load { LoadKeepsHarts }
    ensures store { StoreKeepsHarts }
    ensures sends { SendsAtMost }
{
    clint::keeps_harts();
    console::sends_at_most();
}

/// What a register answers to a load has as many bytes as were asked for.
pub fn loads_fit()
    ensures { LoadsFit }
{}
