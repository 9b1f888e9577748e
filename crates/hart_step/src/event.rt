//! What a step shows of itself.

/// Bytes stored in memory or in a device: `size` bytes (1, 2, 4 or 8) at the physical address `at`,
/// with the little-endian number `value`, zeros above.
#[derive(Clone, Copy, PartialEq, Eq, Debug)]
pub struct Put {
    pub at: u64,
    pub size: u8,
    pub value: u64,
}

/// The privilege of a step: user, supervisor or machine mode, or debug mode.
#[derive(Clone, Copy, PartialEq, Eq, Debug)]
pub enum Priv {
    U,
    S,
    M,
    D,
}

/// What one step did, or the host.
#[derive(Clone, Copy, PartialEq, Eq, Debug)]
pub enum Event {
    /// An instruction was carried out. `mode` and `pc` are those before the step. `insn` is its
    /// 32-bit word, or its 16-bit word with zeros above. `rd` is the register among x1 to x31 that it
    /// wrote, with the new value. `st` is what it stored, in memory or in a device. `dv` is what a
    /// device answered to a load, and `vl` what a volatile register read as.
    Commit {
        hart: u8,
        mode: Priv,
        pc: u64,
        insn: u32,
        rd: Option<(u8, u64)>,
        st: Option<Put>,
        dv: Option<u64>,
        vl: Option<u64>,
    },
    /// An instruction raised an exception instead, or could not be fetched. `mode` and `pc` are those
    /// before the step, `cause` is the exception's number, below 16, and `tval` its trap value.
    Exception {
        hart: u8,
        mode: Priv,
        pc: u64,
        cause: u8,
        tval: u64,
    },
    /// An interrupt was taken, by its number.
    Interrupt {
        hart: u8,
        cause: u8,
    },
    /// The host took this word out of its window.
    Host {
        word: u64,
    },
}
